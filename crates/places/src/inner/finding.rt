// One walk over the blocks of a plain text: how many cues it has, where the lines of one cue stand, and whether a region has a name.
ghost use Rattle.std.specs.Prelude.{◌≡◌, cond, Some, ◌<◌, eqb, ltb, length};
ghost use Rattle.blocks.specs.Items.{meaning_at, PlacesIn, item_is, kind_is};
ghost use Rattle.places.specs.Finding.{item_named, lines_of, with_item, SurveyedIs};

use blocks::collecting::Block;
use blocks::items::{Item, ItemKind};
use format::TextError;
use format::settings::Span;

// What the blocks have that were passed over.
#[derive(Clone, Copy)]
pub struct Found {
    // How many cues.
    pub cues: usize,
    // From the first byte of the first line of the cue asked for up to the end of its last line; none without that cue.
    pub own: Option<Span>,
    // Has a region the name asked for.
    pub named: bool,
}

// Where the lines of the cue asked for stand, with one cue more, which is this block.
fn own_lines(found: Found, block: Block, number: usize) -> Option<Span>
    ensures { result ≡ cond (eqb found.cues number) (Some (lines_of block)) found.own }
{
    if found.cues == number {
        return Some(Span {
            from: block.from,
            to: block.stop.to,
        });
    }
    found.own
}

// Is the item a region of this name.
fn is_region_named(s: &[u8], item: Item, name: &[u8]) -> bool
    ensures { result ≡ item_named s.now name.now item }
{
    match item {
        Item::Region(region) => lookup::is_named(s, region.id, name),
        _ => false,
    }
}

// One block more, which gives an item of this kind. The item itself is made for a region alone, whose name is asked for.
fn with_block(
    found: Found,
    s: &[u8],
    kind: ItemKind,
    block: Block,
    number: usize,
    name: &[u8],
) -> Found
    requires cues_in_bounds { found.cues < length s.now }
    requires places_in { PlacesIn s.now block }
    requires kind_value { kind ≡ kind_is (item_is (meaning_at (ltb 0 found.cues) s.now block)) }
    ensures { result ≡ with_item s.now number name.now (item_is (meaning_at (ltb 0 found.cues) s.now block)) (lines_of block) found }
{
    match kind {
        ItemKind::Nothing | ItemKind::Over | ItemKind::Style => found,
        ItemKind::Cue => Found {
            cues: found.cues + 1,
            own: own_lines(found, block, number),
            ..found
        },
        ItemKind::Region => {
            let item = blocks::inner::item_at(s, block, 0 < found.cues);
            Found {
                named: found.named || is_region_named(s, item, name),
                ..found
            }
        }
    }
}

// What a text has: the cue with this number and a region with this name are looked for.
pub fn survey(s: &[u8], number: usize, name: &[u8]) -> Result<Found, TextError>
    ensures { SurveyedIs s.now number name.now result }
{
    if !blocks::has_signature(s) {
        return Err(TextError::NoSignature);
    }
    let mut at = blocks::past_header(s);
    let mut found = Found {
        cues: 0,
        own: None,
        named: false,
    };
    while let Some(block) = blocks::next_block(s, at) {
        let kind = blocks::inner::kind_at(s, block, 0 < found.cues);
        if kind == ItemKind::Over {
            return Err(TextError::OverLimit);
        }
        found = with_block(found, s, kind, block, number, name);
        at = block.stop.at;
    }
    Ok(found)
}
