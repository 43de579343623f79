// What reading a time or a timing line tells: 0, where the reading ended, and what was read, in milliseconds; or the number of the step that failed,
// from 1, and where the reading then stands. The hours alone are refused, by 5.
#![tactic(auto, unfolding(format::specs::Answers::refusal_number, format::specs::Answers::returned, format::specs::Answers::with_values, format::specs::TellingTimes::stamp_answer, format::specs::TellingTimes::timing_line_answer, format::specs::TellingTimes::fault_number))]

ghost use Rattle.std.specs.Prelude.{◌≡◌};
ghost use Rattle.format.specs.TellingTimes.{fault_number, stamp_answer, timing_line_answer};

use crate::{Told, put};
use format::times::{Stamp, TimeFault, TimingLine};

// The number of a step that failed.
fn fault_number(fault: TimeFault) -> u64
    ensures { result ≡ fault_number fault }
{
    match fault {
        TimeFault::DigitMissing => 1,
        TimeFault::WrongDigitCount => 2,
        TimeFault::ColonMissing => 3,
        TimeFault::FullStopMissing => 4,
        TimeFault::Over59 => 5,
        TimeFault::ArrowMissing => 6,
        TimeFault::SomethingAfter => 7,
    }
}

impl Told for Stamp {
    ghost told = { stamp_answer };

    fn tell(self, values: &mut [u64; 8]) -> u64 {
        match self {
            Stamp::Bad { fault, at } => {
                put(&[fault_number(fault), at as u64], values);
                0
            }
            Stamp::Over { next: _ } => 5,
            Stamp::At { ms, next } => {
                put(&[0, next as u64, ms], values);
                0
            }
        }
    }
}

impl Told for TimingLine {
    ghost told = { timing_line_answer };

    fn tell(self, values: &mut [u64; 8]) -> u64 {
        match self {
            TimingLine::Bad { fault, at } => {
                put(&[fault_number(fault), at as u64], values);
                0
            }
            TimingLine::Over => 5,
            TimingLine::Good(line) => {
                put(&[0, line.next as u64, line.start, line.end], values);
                0
            }
        }
    }
}
