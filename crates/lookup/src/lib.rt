// The look-up of a region by its name, among rows of the lent table. Any rows are taken, over any text, and the name may stand in another.
#![tactic(auto)]

ghost use Rattle.std.specs.Prelude.{◌≡◌, false};
ghost use Rattle.format.specs.Texts.{same, bytes_at};
ghost use Rattle.format.specs.Writable.{names_of};
ghost use Rattle.format.specs.LookingUp.{look_up, Last};

use format::RegionFound;
use format::rows::RegionRow;
use format::settings::Span;
use values::bytes::{part, same_bytes};

pub mod inner;

// Can two texts be the same, by their lengths and last bytes. Most names of one file differ there, and many begin alike.
fn ends_alike(a: &[u8], b: &[u8]) -> bool
    ensures { result ≡ false → same a.now b.now ≡ false }
{
    a.len() == b.len() && a.last() == b.last()
}

// Is the part of a text at these places this name.
pub fn is_named(text: &[u8], id: Span, name: &[u8]) -> bool
    ensures { result ≡ same (bytes_at text.now id.from id.to) name.now }
{
    let own = part(text, id.from, id.to);
    if !ends_alike(own, name) {
        return false;
    }
    same_bytes(own, name)
}

// The region of this name, looked for from the last row to the first: the later of two with one identifier counts.
pub fn find_region(text: &[u8], regions: &[RegionRow], name: &[u8]) -> RegionFound
    ensures found { result ≡ look_up name.now (names_of text.now regions.now) }
    ensures last { Last name.now (names_of text.now regions.now) result.index result.seen }
{
    let count = regions.len();
    for i in (0..count).rev() {
        if is_named(text, rows::regions::id(regions[i]), name) {
            return RegionFound {
                index: Some(i as u64),
                seen: count - i,
            };
        }
    }
    RegionFound {
        index: None,
        seen: count,
    }
}
