// Decimal numbers of any length, held up to a number above every limit.
ghost use Rattle.std.specs.Prelude.{◌≡◌, ◌-◌, ◌≤◌, ◌<◌, min, get_or, take, ◌++◌};
ghost use Rattle.format.specs.Bytes.{ascii};
ghost use Rattle.format.specs.Numbers.{number, decimal, percentage, signed, line_number, line_count};
ghost use Rattle.values.specs.Numbers.{cap, decimal_is, up_to, line_number_is, line_number_answer, number_answer, line_count_is, line_count_answer, count_answer};

use super::bytes::{ByteKind, is_at, past};

// Above every limit: a number that is greater is held at this.
const CAP: u64 = 1_000_000;

fn digit_value(b: u8) -> u64
    ensures { result ≡ b - 0x30 }
{
    b.saturating_sub(b'0') as u64
}

// The value of the digit at `i`, 0 after the end.
fn digit_at(ds: &[u8], i: usize) -> u64
    ensures { (result ≡ get_or ds.now i 0 - 0x30) × (result ≤ 207) }
{
    ds.get(i).map_or(0, |&b| digit_value(b))
}

// Digits as a base-ten integer, held at CAP.
pub(crate) fn number_of(ds: &[u8]) -> u64
    ensures { result ≡ min (number ds.now) cap }
{
    let mut v: u64 = 0;
    for &d in ds {
        v = CAP.min(v * 10 + digit_value(d));
    }
    v
}

// The first six digits after a full stop as millionths.
fn six_digits(ds: &[u8]) -> u32
    ensures { result ≡ number (take 6 (ds.now ++ ascii "000000")) }
{
    let a = digit_at(ds, 0) * 100_000 + digit_at(ds, 1) * 10_000;
    let b = digit_at(ds, 2) * 1_000 + digit_at(ds, 3) * 100;
    (a + b + digit_at(ds, 4) * 10 + digit_at(ds, 5)) as u32
}

// A decimal without a sign.
#[derive(Clone, Copy)]
struct Decimal {
    // The digits before the full stop, held at CAP.
    whole: u64,
    // The millionths after it.
    fraction: u32,
    // Is any digit after it not 0.
    more: bool,
}

impl Decimal {
    // In millionths, where it is not above a limit.
    fn up_to(self, limit: u64) -> Option<u64>
        requires { limit < 1_000_000 }
        ensures { result ≡ up_to limit self }
    {
        if limit < self.whole || (self.whole == limit && self.more) {
            return None;
        }
        Some(self.whole * 1_000_000 + self.fraction as u64)
    }
}

fn read_decimal(s: &[u8]) -> Option<Decimal>
    ensures { result ≡ decimal_is (decimal s.now) }
{
    let end = past(s, 0, ByteKind::Digits);
    if end == 0 {
        return None;
    }
    let whole = number_of(&s[..end]);
    if end == s.len() {
        return Some(Decimal {
            whole,
            fraction: 0,
            more: false,
        });
    }
    if s[end] != b'.' {
        return None;
    }
    let from = end + 1;
    if s.len() == from {
        return None;
    }
    if past(s, from, ByteKind::Digits) < s.len() {
        return None;
    }
    let rest = &s[from..];
    Some(Decimal {
        whole,
        fraction: six_digits(rest),
        more: past(rest, 0, ByteKind::Only(b'0')) < rest.len(),
    })
}

// In millionths.
pub fn read_percentage(s: &[u8]) -> Option<u64>
    ensures { result ≡ percentage s.now }
{
    let [size @ .., b'%'] = s else {
        return None;
    };
    read_decimal(size)?.up_to(100)
}

#[derive(Clone, Copy)]
pub struct LineNumber {
    pub negative: bool,
    pub millionths: u64,
}

// Why a line number or a count of lines cannot be read.
#[derive(Clone, Copy, PartialEq, Eq)]
pub enum NumberError {
    // It is none.
    Bad,
    // It is beyond 999,999, either way.
    Over,
}

// A decimal as a line number, with a minus before it or not.
fn read_signed(minus: bool, s: &[u8]) -> Result<LineNumber, NumberError>
    ensures { result ≡ line_number_is (signed minus (decimal s.now)) }
{
    let Some(size) = read_decimal(s) else {
        return Err(NumberError::Bad);
    };
    let Some(millionths) = size.up_to(999_999) else {
        return Err(NumberError::Over);
    };
    Ok(LineNumber {
        negative: minus && 0 < millionths,
        millionths,
    })
}

pub fn read_line_number(s: &[u8]) -> Result<LineNumber, NumberError>
    ensures is { result ≡ line_number_is (line_number s.now) }
    ensures answer { line_number_answer result ≡ number_answer (line_number s.now) }
{
    if is_at(s, 0, b'-') {
        return read_signed(true, &s[1..]);
    }
    read_signed(false, s)
}

pub fn read_line_count(s: &[u8]) -> Result<u64, NumberError>
    ensures is { result ≡ line_count_is (line_count s.now) }
    ensures answer { line_count_answer result ≡ count_answer (line_count s.now) }
{
    if s.is_empty() {
        return Err(NumberError::Bad);
    }
    if past(s, 0, ByteKind::Digits) < s.len() {
        return Err(NumberError::Bad);
    }
    let n = number_of(s);
    if 999_999 < n {
        return Err(NumberError::Over);
    }
    Ok(n)
}
