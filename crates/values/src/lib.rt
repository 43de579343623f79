// Runs of bytes, tokens, numbers and timestamps, read from a text or a part of one. Any bytes are taken; each function ends in linear time.
#![tactic(auto)]

pub mod bytes;
pub mod inner;
pub mod numbers;
pub mod times;
pub mod tokens;

ghost use Rattle.std.specs.Prelude.{◌≡◌, length};
ghost use Rattle.format.specs.Times.{timestamp, only_time};
ghost use Rattle.format.specs.TellingTimes.{stamp_answer, time_told, tag_time_told};
ghost use Rattle.values.specs.Times.{stamp_is, ended_is};

use format::times::{Stamp, TimeFault};

// The timestamp that a text begins with.
pub fn read_time(text: &[u8]) -> Stamp
    ensures is { result ≡ stamp_is (length text.now) (timestamp text.now) }
    ensures answer { stamp_answer result ≡ time_told text.now }
{
    times::read_timestamp(text, 0)
}

// A time that was read of a text of `n` bytes, where it is all of the text.
fn ended(read: Stamp, n: usize) -> Stamp
    ensures { result ≡ ended_is n read }
{
    match read {
        Stamp::Bad { fault, at } => Stamp::Bad { fault, at },
        Stamp::Over { next } => {
            if next < n {
                return Stamp::Bad {
                    fault: TimeFault::SomethingAfter,
                    at: next,
                };
            }
            Stamp::Over { next }
        }
        Stamp::At { ms, next: end } => {
            if end < n {
                return Stamp::Bad {
                    fault: TimeFault::SomethingAfter,
                    at: end,
                };
            }
            Stamp::At { ms, next: end }
        }
    }
}

// A text that has to be a time and nothing else, as what stands in a timestamp tag.
pub fn read_only_time(text: &[u8]) -> Stamp
    ensures is { result ≡ stamp_is (length text.now) (only_time text.now) }
    ensures answer { stamp_answer result ≡ tag_time_told text.now }
{
    ended(times::read_timestamp(text, 0), text.len())
}
