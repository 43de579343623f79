// Looking up the regions that the cues of one file ask for, one after the other. Answers are remembered: most cues ask for the same few names, and a
// file may have very many regions.
ghost use Rattle.std.specs.Prelude.{◌≡◌, ◌<◌, length};
ghost use Rattle.format.specs.Writable.{last_of_its_name, names_of};
ghost use Rattle.lookup.specs.Known.{asked_at, known_name, known_index, known_words, AllRight, AllLast};

use super::{find_region, is_named};
use format::rows::RegionRow;
use format::settings::Span;
use values::bytes::part;

// How many answers are remembered.
pub const KNOWN_ROWS: usize = 256;

// An answer that is remembered; zeros remember nothing.
pub const KNOWN_WORDS: usize = 5;

pub type KnownRow = [u64; KNOWN_WORDS];

// The place where the answer for a name is remembered. Any place would be right.
fn place_of(name: &[u8]) -> usize
    ensures { result < 256 }
{
    let mut sum = 0;
    for &b in name {
        sum = (sum * 31 + b as usize) % KNOWN_ROWS;
    }
    sum
}

fn known_name(row: KnownRow) -> Span
    ensures { result ≡ known_name row }
{
    Span {
        from: row[1] as usize,
        to: row[2] as usize,
    }
}

fn known_index(row: KnownRow) -> Option<u64>
    ensures { result ≡ known_index row }
{
    if row[3] == 0 {
        return None;
    }
    Some(row[4])
}

fn known_row(count: usize, name: Span, index: Option<u64>) -> KnownRow
    ensures { result ≡ known_words count name index }
{
    let n = count as u64;
    let from = name.from as u64;
    let to = name.to as u64;
    match index {
        None => [n, from, to, 0, 0],
        Some(i) => [n, from, to, 1, i],
    }
}

// The region that a part of the text asks for by its name; none where it is empty.
pub fn region_asked(
    text: &[u8],
    regions: &[RegionRow],
    name: Span,
    known: &mut [KnownRow],
) -> Option<u64>
    requires known_len { length known.old ≡ 256 }
    requires all_right { AllRight text.now regions.now known.old }
    ensures index { result ≡ asked_at text.now regions.now name }
    ensures known { AllRight text.now regions.now known.new }
{
    let wanted = part(text, name.from, name.to);
    if wanted.len() == 0 {
        return None;
    }
    let place = place_of(wanted);
    let row = known[place];
    if row[0] == regions.len() as u64 && is_named(text, known_name(row), wanted) {
        return known_index(row);
    }
    let found = find_region(text, regions, wanted);
    let index = found.index;
    known[place] = known_row(regions.len(), name, index);
    index
}

// Is the region with this index in the list, has it an identifier, and is it the last with it.
fn is_last_of_its_name(text: &[u8], regions: &[RegionRow], index: usize) -> bool
    ensures { result ≡ last_of_its_name (names_of text.now regions.now) index }
{
    if regions.len() <= index {
        return false;
    }
    let id = rows::regions::id(regions[index]);
    let name = part(text, id.from, id.to);
    if name.len() == 0 {
        return false;
    }
    let found = find_region(text, regions, name);
    let place = found.index;
    match place {
        None => false,
        Some(last) => last == index as u64,
    }
}

// The same, where `known` holds indices for which it was so, each increased by one.
pub fn is_known_last(text: &[u8], regions: &[RegionRow], index: usize, known: &mut [usize]) -> bool
    requires known_len { length known.old ≡ 256 }
    requires all_last { AllLast (names_of text.now regions.now) known.old }
    ensures answer { result ≡ last_of_its_name (names_of text.now regions.now) index }
    ensures known { AllLast (names_of text.now regions.now) known.new }
{
    if regions.len() <= index {
        return false;
    }
    let place = index % KNOWN_ROWS;
    if known[place] == index + 1 {
        return true;
    }
    if !is_last_of_its_name(text, regions, index) {
        return false;
    }
    known[place] = index + 1;
    true
}
