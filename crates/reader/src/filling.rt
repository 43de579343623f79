// The second pass over a text that is known to be readable: each list's rows are stored at the start of its table.
ghost use Rattle.std.specs.Prelude.{◌≡◌, false, ◌≤◌, ltb, length, take};
ghost use Rattle.format.specs.Limits.{max_text};
ghost use Rattle.format.specs.Blocks.{between, blocks_from, blocks};
ghost use Rattle.format.specs.Lists.{items, lists, any_over};
ghost use Rattle.format.specs.Rows.{region_rows, style_rows, stored_cues};
ghost use Rattle.format.specs.Answers.{placed};
ghost use Rattle.blocks.specs.Collecting.{lines_from};
ghost use Rattle.blocks.specs.Items.{meaning_at, PlacesIn, item_is, kind_is};
ghost use Rattle.lookup.specs.Known.{AllRight};
ghost use Rattle.reader.specs.Counting.{with_item};
ghost use Rattle.reader.specs.Filling.{entry_of, cues_with, regions_with, styles_with, RoomFor};

use super::counting::with_kind;
use blocks::collecting::{Block, Stop};
use blocks::items::{CueRead, Item, ItemKind};
use format::Counts;
use format::rows::{CueEntry, CueRow, LineSpan, RegionRow, StyleRow};
use lookup::inner::{KNOWN_ROWS, KNOWN_WORDS, KnownRow};

// The cue as it stands in the table, among these regions.
fn entry(text: &[u8], cue: CueRead, regions: &[RegionRow], known: &mut [KnownRow]) -> CueEntry
    requires known_len { length known.old ≡ 256 }
    requires all_right { AllRight text.now regions.now known.old }
    ensures is { result ≡ entry_of text.now regions.now cue }
    ensures known { AllRight text.now regions.now known.new }
{
    CueEntry {
        id: cue.id,
        start: cue.start,
        end: cue.end,
        text: cue.text,
        settings: cue.settings,
        region: lookup::inner::region_asked(text, regions, cue.region, known),
    }
}

// The lines of a block whose first line has this number.
fn lines_of(first: usize, stop: Stop) -> LineSpan
    ensures { result ≡ record { first = first; count = stop.lines } }
{
    LineSpan {
        first: first as u64,
        count: stop.lines as u64,
    }
}

// Stores the row of what a block gives after the rows of its list, and tells what that was. The block's first line has the number `first`. The
// item is made here, so that it is not copied.
fn put(
    text: &[u8],
    block: Block,
    first: usize,
    n: Counts,
    known: &mut [KnownRow],
    cues: &mut [CueRow],
    regions: &mut [RegionRow],
    styles: &mut [StyleRow],
) -> ItemKind
    requires known_len { length known.old ≡ 256 }
    requires all_right { AllRight text.now (take n.regions regions.old) known.old }
    requires places_in { PlacesIn text.now block }
    requires room_for { RoomFor (item_is (meaning_at (ltb 0 n.cues) text.now block)) n (length cues.old) (length regions.old) (length styles.old) }
    ensures kind { result ≡ kind_is (item_is (meaning_at (ltb 0 n.cues) text.now block)) }
    ensures known { AllRight text.now (take (with_item (item_is (meaning_at (ltb 0 n.cues) text.now block)) n).regions regions.new) known.new }
    ensures cues { cues.new ≡ cues_with text.now (item_is (meaning_at (ltb 0 n.cues) text.now block)) (record { first = first; count = block.stop.lines }) n regions.old cues.old }
    ensures regions { regions.new ≡ regions_with (item_is (meaning_at (ltb 0 n.cues) text.now block)) n regions.old }
    ensures styles { styles.new ≡ styles_with (item_is (meaning_at (ltb 0 n.cues) text.now block)) n styles.old }
{
    if blocks::inner::gives_nothing(text, block) {
        return ItemKind::Nothing;
    }
    match blocks::inner::item_at(text, block, 0 < n.cues) {
        Item::Nothing => ItemKind::Nothing,
        Item::Over => ItemKind::Over,
        Item::Cue(cue) => {
            let lines = lines_of(first, block.stop);
            cues[n.cues] = rows::cue_row(entry(text, cue, &regions[..n.regions], known), lines);
            ItemKind::Cue
        }
        Item::Style(part) => {
            styles[n.styles] = rows::style_row(part);
            ItemKind::Style
        }
        Item::Region(region) => {
            regions[n.regions] = rows::region_row(region);
            ItemKind::Region
        }
    }
}

// The rows of the blocks from `from` on.
pub(crate) fn fill(
    text: &[u8],
    from: usize,
    cues: &mut [CueRow],
    regions: &mut [RegionRow],
    styles: &mut [StyleRow],
)
    requires from_in_bounds { (from ≤ length text.now) × (length text.now ≤ max_text) × (blocks text.now ≡ blocks_from between (lines_from text.now from)) × (any_over (items text.now) ≡ false) }
    requires text_in_bounds { (length (lists text.now).cues ≤ length cues.old) × (length (lists text.now).regions ≤ length regions.old) × (length (lists text.now).styles ≤ length styles.old) }
    ensures cues { cues.new ≡ placed (stored_cues text.now) cues.old }
    ensures regions { regions.new ≡ placed (region_rows (lists text.now).regions) regions.old }
    ensures styles { styles.new ≡ placed (style_rows (lists text.now).styles) styles.old }
{
    let mut at = from;
    // The number of the line at that place, from 1.
    let mut line = blocks::line_ends(&text[..from]) + 1;
    let mut n = Counts::NONE;
    let mut known = [[0; KNOWN_WORDS]; KNOWN_ROWS];
    while let Some(block) = blocks::next_block(text, at) {
        // Empty lines stand between, a byte each.
        let first = line + (block.from - at);
        let kind = put(text, block, first, n, &mut known, cues, regions, styles);
        n = with_kind(n, kind);
        line = first + block.stop.lines;
        at = block.stop.at;
    }
}
