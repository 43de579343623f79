// The tests of "writable" on the new cue, a row over a text lent with it.
ghost use Rattle.std.specs.Prelude.{◌≡◌, List, ℕ};
ghost use Rattle.format.specs.RegionSettings.{last_named};
ghost use Rattle.format.specs.Replacing.{name_lent, is_there, new_cue_fails};

use format::rows::NewCueRow;
use parts::part_plain;
use values::bytes::part;

// The first test that the new cue fails, where `named` tells whether a region of the file has its region's name; none where it is writable.
pub fn new_cue_test(text: &[u8], row: NewCueRow, named: bool) -> Option<usize>
    ensures { (names : List (List ℕ)) → named ≡ is_there (last_named 0 (name_lent text.now row) names) → result ≡ new_cue_fails text.now row names }
{
    let place = rows::new_cue_name(row);
    if !part_plain(text, place.from, place.to) {
        return Some(1);
    }
    if let Some(test) = writable::cue_fields_test(text, rows::inner::cue_of_new(row)) {
        return Some(test);
    }
    let name = part(text, place.from, place.to);
    if name.len() == 0 {
        return None;
    }
    if named {
        return None;
    }
    Some(6)
}
