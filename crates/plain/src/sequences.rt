// Well-formed sequences and the runs that could have begun one, recognised from the bits of the first byte.
ghost use Rattle.std.specs.Prelude.{◌≡◌, ◌+◌, ◌<◌, ◌≤◌, length, drop};
ghost use Rattle.format.specs.Plain.{◌to◌, table, following};
ghost use Rattle.plain.specs.Lead.{row_of, low_of, high_of, starts_in};
ghost use Rattle.plain.specs.Pieces.{run_of};

use super::pieces::Piece;

// What the table says of a first byte: the length of its sequence (0: it begins none) and the range of its second byte.
#[derive(Clone, Copy)]
pub struct Lead {
    pub len: usize,
    pub low: u8,
    pub high: u8,
}

impl Lead {
    pub const NONE: Lead = Lead {
        len: 0,
        low: 0,
        high: 0,
    };

    pub const ASCII: Lead = Lead {
        len: 1,
        low: 0,
        high: 0,
    };
}

// The narrowed ranges of the second byte are those after E0, F0, ED and F4.
fn low(b: u8) -> u8
    ensures { result ≡ low_of b }
{
    match b {
        0xE0 => 0xA0,
        0xF0 => 0x90,
        _ => 0x80,
    }
}

fn high(b: u8) -> u8
    ensures { result ≡ high_of b }
{
    match b {
        0xED => 0x9F,
        0xF4 => 0x8F,
        _ => 0xBF,
    }
}

// The length is the number of leading one bits of the first byte; C0, C1 and F5 to FF begin no sequence.
fn lead_of(b: u8) -> Lead
    ensures { (result.len ≤ 4) × (following table b ≡ row_of result.len result.low result.high) }
{
    let ones = u8::leading_zeros(!b);
    if ones == 0 {
        return Lead::ASCII;
    }
    if b < 0xC2 {
        return Lead::NONE;
    }
    if 0xF4 < b {
        return Lead::NONE;
    }
    Lead {
        len: ones as usize,
        low: low(b),
        high: high(b),
    }
}

// Does a byte from `low` to `high` stand `k` bytes after the place `at`; where the text has ended, none does.
fn holds(s: &[u8], at: usize, k: usize, low: u8, high: u8) -> bool
    requires { at < length s.now }
    ensures { result ≡ starts_in (low to high) (drop (at + k) s.now) }
{
    if k < s.len() - at {
        let b = s[at + k];
        return low <= b && b <= high;
    }
    false
}

// What stands at a place: a well-formed sequence, or the longest run that could have begun one; a byte that begins none is a run of its own.
pub(crate) fn run_at(s: &[u8], at: usize) -> Piece
    requires { at < length s.now }
    ensures { result ≡ run_of (drop at s.now) }
{
    let first = lead_of(s[at]);
    if first.len == 0 {
        return Piece::Replace(1);
    }
    if first.len == 1 {
        return Piece::Keep(1);
    }
    if !holds(s, at, 1, first.low, first.high) {
        return Piece::Replace(1);
    }
    if first.len == 2 {
        return Piece::Keep(2);
    }
    if !holds(s, at, 2, 0x80, 0xBF) {
        return Piece::Replace(2);
    }
    if first.len == 3 {
        return Piece::Keep(3);
    }
    if !holds(s, at, 3, 0x80, 0xBF) {
        return Piece::Replace(3);
    }
    Piece::Keep(4)
}
