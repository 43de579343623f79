// Timestamps, by the steps of the specification; where one cannot be read, the step that failed, and where the reading then stands.
ghost use Rattle.std.specs.Prelude.{◌≡◌, not, ◌||◌, [], ◌∷◌, eqb, ltb, ◌≤◌, min, length, drop};
ghost use Rattle.format.specs.Bytes.{colon};
ghost use Rattle.format.specs.Texts.{starts_with};
ghost use Rattle.format.specs.Times.{missing, field, last_steps, timestamp};
ghost use Rattle.values.specs.Numbers.{cap};
ghost use Rattle.values.specs.Times.{field_is, stamp_is};

use super::bytes::ByteKind;
use format::times::{Stamp, TimeFault};

#[derive(Clone, Copy)]
pub enum Field {
    Bad { fault: TimeFault, at: usize },
    Good { value: u64, next: usize },
}

// The step that fails where the character `c` is missing.
fn missing_step(c: u8) -> TimeFault
    ensures { result ≡ missing c }
{
    match c {
        b':' => TimeFault::ColonMissing,
        b'.' => TimeFault::FullStopMissing,
        _ => TimeFault::ArrowMissing,
    }
}

// The character `c` at `at`, and then exactly `n` digits.
fn read_field(s: &[u8], at: usize, c: u8, n: usize) -> Field
    requires { at ≤ length s.now }
    ensures { result ≡ field_is (length s.now) (field c n (drop at s.now)) }
{
    if at == s.len() {
        return Field::Bad {
            fault: missing_step(c),
            at,
        };
    }
    if s[at] != c {
        return Field::Bad {
            fault: missing_step(c),
            at,
        };
    }
    let from = at + 1;
    let end = super::bytes::past(s, from, ByteKind::Digits);
    if end - from != n {
        return Field::Bad {
            fault: TimeFault::WrongDigitCount,
            at: end,
        };
    }
    Field::Good {
        value: super::numbers::number_of(&s[from..end]),
        next: end,
    }
}

// The thousandths at `at`, and the test of minutes and seconds. Each value is held at the cap.
fn finish(s: &[u8], at: usize, hours: u64, minutes: u64, seconds: u64) -> Stamp
    requires { at ≤ length s.now }
    ensures { result ≡ stamp_is (length s.now) (last_steps (record { hours = hours; minutes = minutes; seconds = seconds; thousandths = 0 }) (drop at s.now)) }
{
    match read_field(s, at, b'.', 3) {
        Field::Bad { fault, at: place } => Stamp::Bad { fault, at: place },
        Field::Good { value, next } => {
            if 59 < minutes {
                return Stamp::Bad {
                    fault: TimeFault::Over59,
                    at: next,
                };
            }
            if 59 < seconds {
                return Stamp::Bad {
                    fault: TimeFault::Over59,
                    at: next,
                };
            }
            if 99_999 < hours {
                return Stamp::Over { next };
            }
            Stamp::At {
                ms: hours * 3_600_000 + minutes * 60_000 + seconds * 1_000 + value,
                next,
            }
        }
    }
}

// Are there three values: the first has not two digits or is above 59, or a colon stands after the second.
fn has_hours(s: &[u8], at: usize, digits: usize, first: u64) -> bool
    requires { at ≤ length s.now }
    ensures { result ≡ (not (eqb digits 2) || ltb 59 first || starts_with (colon ∷ []) (drop at s.now)) }
{
    if digits != 2 {
        return true;
    }
    if 59 < first {
        return true;
    }
    super::bytes::is_at(s, at, b':')
}

// The timestamp at `at`; all places are those of `s`.
pub fn read_timestamp(s: &[u8], at: usize) -> Stamp
    ensures { result ≡ stamp_is (length s.now) (timestamp (drop at s.now)) }
{
    let end = super::bytes::past(s, at, ByteKind::Digits);
    if end == at {
        return Stamp::Bad {
            fault: TimeFault::DigitMissing,
            at: at.min(s.len()),
        };
    }
    let first = super::numbers::number_of(&s[at..end]);
    match read_field(s, end, b':', 2) {
        Field::Bad { fault, at: place } => Stamp::Bad { fault, at: place },
        Field::Good { value, next } => {
            if has_hours(s, next, end - at, first) {
                return match read_field(s, next, b':', 2) {
                    Field::Bad { fault, at: place } => Stamp::Bad { fault, at: place },
                    Field::Good {
                        value: seconds,
                        next: last,
                    } => finish(s, last, first, value, seconds),
                };
            }
            finish(s, next, 0, first, value)
        }
    }
}
