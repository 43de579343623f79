// The usual form of a timing line's times, `dd:dd:dd.ddd --> dd:dd:dd.ddd`, read at fixed places: nearly every line has it, and no loop is
// needed.
ghost use Rattle.std.specs.Prelude.{◌≡◌, true, ◌+◌, ◌-◌, ◌*◌, ◌≤◌, ◌<◌, length, IfSome};
ghost use Rattle.format.specs.Bytes.{digit};
ghost use Rattle.timing.specs.Usual.{DigitsRead, ClockRead, ArrowIs, NoDigitIs, UsualRead};

use values::bytes::is_digit;

// The value of a digit.
fn value_of(b: u8) -> u64
    requires { digit b ≡ true }
    ensures { (result ≡ b - 0x30) × (result < 10) }
{
    (b - b'0') as u64
}

// The value of the two digits at `k`, if two stand there.
fn two(t: &[u8], k: usize) -> Option<u64>
    requires { k + 2 ≤ length t.now }
    ensures { IfSome result (λ v. (v < 100) × DigitsRead t.now k 2 v) }
{
    let a = t[k];
    let b = t[k + 1];
    if is_digit(a) && is_digit(b) {
        return Some(value_of(a) * 10 + value_of(b));
    }
    None
}

fn in_milliseconds(hours: u64, minutes: u64, seconds: u64, thousandths: u64) -> u64
    requires { (hours < 100) × (minutes < 60) × (seconds < 60) × (thousandths < 1_000) }
    ensures { result ≡ 3_600_000 * hours + 60_000 * minutes + 1_000 * seconds + thousandths }
{
    3_600_000 * hours + 60_000 * minutes + 1_000 * seconds + thousandths
}

// The time `dd:dd:dd.ddd` that a text begins with, minutes and seconds at most 59, in milliseconds.
// The slice goes to no function but `two`, which is small enough to become a part of this one: handing it to one that is called for the
// last three digits made all of it three times slower.
fn clock(t: &[u8]) -> Option<u64>
    requires { 12 ≤ length t.now }
    ensures { IfSome result (λ ms. ClockRead t.now ms) }
{
    let hours = two(t, 0)?;
    let minutes = two(t, 3)?;
    let seconds = two(t, 6)?;
    let hundredths = two(t, 9)?;
    if t[2] == b':' && t[5] == b':' && t[8] == b'.' && minutes < 60 && seconds < 60 {
        let last = t[11];
        if is_digit(last) {
            let thousandths = hundredths * 10 + value_of(last);
            return Some(in_milliseconds(hours, minutes, seconds, thousandths));
        }
    }
    None
}

// Does a text begin with the five bytes ` --> `.
fn arrow_here(t: &[u8]) -> bool
    requires { 5 ≤ length t.now }
    ensures { ArrowIs t.now result }
{
    matches!(t, [b' ', b'-', b'-', b'>', b' ', ..])
}

// Does a text begin with no digit.
fn no_digit(t: &[u8]) -> bool
    ensures { NoDigitIs t.now result }
{
    if t.is_empty() {
        return true;
    }
    !is_digit(t[0])
}

// Start and end, in milliseconds.
#[derive(Clone, Copy)]
pub struct StartEnd {
    pub start: u64,
    pub end: u64,
}

// The times from `at` on, where they are of the usual form; else they are to be read in the general way.
pub(crate) fn usual_times(s: &[u8], at: usize) -> Option<StartEnd>
    requires { at ≤ length s.now }
    ensures { IfSome result (λ t. UsualRead s.now at t.start t.end) }
{
    let t = &s[at..];
    if t.len() < 29 {
        return None;
    }
    let start = clock(t)?;
    if !arrow_here(&t[12..]) {
        return None;
    }
    let end = clock(&t[17..])?;
    if !no_digit(&t[29..]) {
        return None;
    }
    Some(StartEnd { start, end })
}
