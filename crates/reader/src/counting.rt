// The first pass over a plain text: every refusal that it gives, and how many entries each list has.
ghost use Rattle.std.specs.Prelude.{◌≡◌, false, ◌≤◌, length};
ghost use Rattle.format.specs.Limits.{max_text};
ghost use Rattle.format.specs.Plain.{first_not_plain};
ghost use Rattle.format.specs.Blocks.{between, blocks_from};
ghost use Rattle.format.specs.Lists.{items_from};
ghost use Rattle.blocks.specs.Collecting.{lines_from, header_end};
ghost use Rattle.reader.specs.Counting.{with_kind, tally_is, MeasuredIs};

use blocks::items::ItemKind;
use format::{Counts, OverLimit, TextError};

// The counts with one item of this kind more.
pub(crate) fn with_kind(n: Counts, kind: ItemKind) -> Counts
    requires { (n.cues ≤ max_text) × (n.regions ≤ max_text) × (n.styles ≤ max_text) }
    ensures { result ≡ with_kind kind n }
{
    match kind {
        ItemKind::Nothing | ItemKind::Over => n,
        ItemKind::Cue => Counts {
            cues: n.cues + 1,
            ..n
        },
        ItemKind::Style => Counts {
            styles: n.styles + 1,
            ..n
        },
        ItemKind::Region => Counts {
            regions: n.regions + 1,
            ..n
        },
    }
}

// What the blocks from `from` on give.
fn count_items(s: &[u8], from: usize) -> Result<Counts, OverLimit>
    requires { (from ≤ length s.now) × (length s.now ≤ max_text) }
    ensures { result ≡ tally_is (items_from false (blocks_from between (lines_from s.now from))) }
{
    let mut at = from;
    let mut n = Counts::NONE;
    while let Some(block) = blocks::next_block(s, at) {
        let kind = blocks::inner::kind_at(s, block, 0 < n.cues);
        if kind == ItemKind::Over {
            return Err(OverLimit);
        }
        n = with_kind(n, kind);
        at = block.stop.at;
    }
    Ok(n)
}

// The counts of a plain text's lists, or the first refusal that the text gives. Its header ends at `from`.
pub(crate) fn measure(s: &[u8], from: usize) -> Result<Counts, TextError>
    requires { (length s.now ≤ max_text) × (length s.now ≤ first_not_plain s.now) × (from ≡ header_end s.now) }
    ensures { MeasuredIs s.now result }
{
    if !blocks::has_signature(s) {
        return Err(TextError::NoSignature);
    }
    Ok(count_items(s, from)?)
}
