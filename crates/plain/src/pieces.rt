// A raw file piece by piece: what stands at a place, how far it reaches and what it becomes.
ghost use Rattle.std.specs.Prelude.{◌≡◌, true, ◌+◌, ◌<◌, ◌≤◌, length, take, drop};
ghost use Rattle.std.proofs.lemmas.List.Edits.{sets};
ghost use Rattle.plain.specs.Pieces.{Stays, taken_by, put_by, size_of, piece_of};

use super::sequences;

#[derive(Clone, Copy)]
pub enum Piece {
    // This many bytes stay as they are.
    Keep(usize),
    // This many bytes become one U+FFFD.
    Replace(usize),
    // A CR that is not before LF becomes LF.
    Line,
    // A CR before LF goes.
    Pair,
}

impl Piece {
    pub(crate) fn taken(self) -> usize
        ensures { result ≡ taken_by self }
    {
        match self {
            Piece::Keep(n) => n,
            Piece::Replace(n) => n,
            Piece::Line => 1,
            Piece::Pair => 1,
        }
    }

    // How many bytes it becomes.
    pub(crate) fn size(self) -> usize
        ensures { result ≡ size_of self }
    {
        match self {
            Piece::Keep(n) => n,
            Piece::Replace(_) => 3,
            Piece::Line => 1,
            Piece::Pair => 0,
        }
    }
}

// Is the byte one of ASCII that always stays: no NUL and no CR.
pub(crate) fn stays(b: u8) -> bool
    ensures { result ≡ true → Stays b }
{
    matches!(b, b'\n' | 0x0E..0x80)
}

// What stands at a place.
pub(crate) fn piece_at(s: &[u8], at: usize) -> Piece
    requires { at < length s.now }
    ensures { result ≡ piece_of (drop at s.now) }
{
    match s[at] {
        0 => Piece::Replace(1),
        b'\r' if s.get(at + 1) == Some(&b'\n') => Piece::Pair,
        b'\r' => Piece::Line,
        _ => sequences::run_at(s, at),
    }
}

// Copies `n` bytes of `s` from `at` on into the room, from `to` on. A piece has four bytes at most: `copy_from_slice` takes half again as long.
fn copy(s: &[u8], at: usize, n: usize, room: &mut [u8], to: usize)
    requires { (at + n ≤ length s.now) × (to + n ≤ length room.old) }
    ensures { room.new ≡ sets room.old to (take n (drop at s.now)) }
{
    for i in 0..n {
        room[to + i] = s[at + i];
    }
}

// Writes what the piece at `at` becomes into the room, from `to` on.
pub(crate) fn put(s: &[u8], at: usize, p: Piece, room: &mut [u8], to: usize)
    requires { (at + taken_by p ≤ length s.now) × (to + size_of p ≤ length room.old) }
    ensures { room.new ≡ sets room.old to (put_by p (drop at s.now)) }
{
    match p {
        Piece::Keep(n) => copy(s, at, n, room, to),
        // Three stores: `copy_from_slice` of the three bytes takes a tenth more steps.
        Piece::Replace(_) => {
            room[to] = 0xEF;
            room[to + 1] = 0xBF;
            room[to + 2] = 0xBD;
        }
        Piece::Line => room[to] = b'\n',
        Piece::Pair => {}
    }
}
