// Bytes, numbers and times put into an output room. A room that is too short stores what fits; the place where the next byte goes moves on
// all the same, up to the first number above the greatest length of a file.
#![tactic(auto)]

ghost use Rattle.std.specs.Prelude.{◌≡◌, List, [], ◌∷◌, ℕ, ◌+◌, ◌≤◌, length};
ghost use Rattle.std.proofs.lemmas.List.Edits.{sets};
ghost use Rattle.format.specs.Limits.{max_file};
ghost use Rattle.format.specs.Written.{last_digits, at_least, decimal_in, without_zeros, fraction};
ghost use Rattle.format.specs.Written.{written_time, written_decimal, written_percentage};
ghost use Rattle.output.specs.Puts.{place_after, Puts};

pub mod inner;

// A lent room, and the place in it where the next byte goes. What is put beyond the room's end is only counted.
#[derive(Drop)]
pub struct Output<'a> {
    pub room: &'a mut [u8],
    pub at: usize,
}

// A text into a room of its own length, byte by byte: `copy_from_slice` calls `memmove` for a text of any length, which an archive for C would need
// from outside, and that call costs more than the pieces of one to three bytes that are put most.
fn copy(s: &[u8], room: &mut [u8])
    requires { length s.now ≡ length room.old }
    ensures { room.new ≡ s.now }
{
    for i in 0..s.len() {
        room[i] = s[i];
    }
}

// Stores a text from a place on; nothing outside the room, and that costs no time.
pub fn store_text(s: &[u8], room: &mut [u8], at: usize)
    ensures { room.new ≡ sets room.old at s.now }
{
    if room.len() <= at {
        return;
    }
    let fits = room.len() - at;
    // A text that fits is copied by its own length: that of a literal is known, so the bytes are stored with no loop.
    if s.len() <= fits {
        copy(s, &mut room[at..at + s.len()]);
        return;
    }
    copy(&s[..fits], &mut room[at..]);
}

// The place after so many bytes more.
fn after(at: usize, len: usize) -> usize
    ensures { ((x : List ℕ) → length x ≡ len → result ≡ place_after at x) × (result ≤ max_file → result ≡ at + len) }
{
    at.saturating_add(len).min(format::MAX_FILE + 1).max(at)
}

// How many digits a number has, `least` of them counted where it has fewer.
fn width(least: usize, n: u64) -> usize
    ensures { (result ≤ 20) × (at_least least (last_digits 20 n) ≡ last_digits result n) }
{
    let mut rest = n;
    for w in 0..20 {
        if least <= w && rest == 0 {
            return w;
        }
        rest /= 10;
    }
    20
}

impl Output<'_> {
    // One byte.
    pub fn byte(&mut self, b: u8)
        ensures { Puts (b ∷ []) self.old self.new }
    {
        if self.at < self.room.len() {
            self.room[self.at] = b;
        }
        if self.at <= format::MAX_FILE {
            self.at += 1;
        }
    }

    // A text byte by byte: the only way where the count stops inside the room, since each byte more then replaces the last.
    fn each_byte(&mut self, s: &[u8])
        ensures { Puts s.now self.old self.new }
    {
        for &b in s {
            self.byte(b);
        }
    }

    // A text. What of it lies outside the room costs no time.
    pub fn bytes(&mut self, s: &[u8])
        ensures { Puts s.now self.old self.new }
    {
        let end = after(self.at, s.len());
        if format::MAX_FILE < end && self.at < self.room.len() {
            self.each_byte(s);
        } else {
            store_text(s, self.room, self.at);
            self.at = end;
        }
    }

    // The last `k` digits of a number, made from the last one on.
    fn digits(&mut self, k: usize, n: u64)
        requires { k ≤ 20 }
        ensures { Puts (last_digits k n) self.old self.new }
    {
        let mut made = [0u8; 20];
        let mut rest = n;
        for i in (0..k).rev() {
            made[i] = b'0' + (rest % 10) as u8;
            rest /= 10;
        }
        self.bytes(&made[..k]);
    }

    // A number in so many digits at least.
    pub fn number(&mut self, least: usize, n: u64)
        ensures { Puts (decimal_in least n) self.old self.new }
    {
        self.digits(width(least, n), n);
    }

    // A full stop and the six digits of a fraction without the zeros that they end with; nothing where all are zeros.
    fn fraction(&mut self, millionths: u64)
        ensures { Puts (fraction (without_zeros (last_digits 6 millionths))) self.old self.new }
    {
        let mut rest = millionths;
        for k in (0..6).rev() {
            if rest % 10 != 0 {
                self.byte(b'.');
                self.digits(k + 1, rest);
                return;
            }
            rest /= 10;
        }
    }

    // A number of millionths, without trailing zeros.
    pub fn decimal(&mut self, millionths: u64)
        ensures { Puts (written_decimal millionths) self.old self.new }
    {
        self.number(1, millionths / 1_000_000);
        self.fraction(millionths % 1_000_000);
    }

    // A percentage.
    pub fn percentage(&mut self, millionths: u64)
        ensures { Puts (written_percentage millionths) self.old self.new }
    {
        self.decimal(millionths);
        self.byte(b'%');
    }

    // A time, in milliseconds.
    pub fn time(&mut self, ms: u64)
        ensures { Puts (written_time ms) self.old self.new }
    {
        self.number(2, ms / 3_600_000);
        self.byte(b':');
        self.digits(2, ms / 60_000 % 60);
        self.byte(b':');
        self.digits(2, ms / 1_000 % 60);
        self.byte(b'.');
        self.digits(3, ms % 1_000);
    }
}
