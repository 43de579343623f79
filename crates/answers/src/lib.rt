// What an answer says to a caller in document 01's words: its number, 0 where it accepts, and the values that go with it. Each type of an answer's
// value or error implements `Told`, and an answer, which is a `Result`, is told by what it holds.
#![tactic(auto)]

mod errors;
mod times;
mod values;

ghost use Rattle.std.specs.Prelude.{◌≡◌, ◌≤◌, length};
ghost use Rattle.format.specs.Answers.{Answer, answered, refusal_number, returned, with_values};

pub trait Told {
    // Document 01's number, 0 where it accepts, and the values.
    ghost told: { Self → Answer };

    // Hands the number back, and puts the values at the start of `values`, whose other words stay.
    fn tell(self, values: &mut [u64; 8]) -> u64
        ensures number { result ≡ refusal_number (told self) }
        ensures values { values.new ≡ with_values 0 (returned (told self)) values.old };
}

impl<V: Told, E: Told> Told for Result<V, E> {
    ghost told = { answered V.told E.told };

    fn tell(self, values: &mut [u64; 8]) -> u64 {
        match self {
            Ok(value) => value.tell(values),
            Err(error) => error.tell(values),
        }
    }
}

// The number alone, for programs that print it.
pub fn number<A: Told>(answer: A) -> u64
    ensures { result ≡ refusal_number (A.told answer) }
{
    let mut values = [0; 8];
    answer.tell(&mut values)
}

// Puts values at the start of the lent words.
fn put(told: &[u64], values: &mut [u64; 8])
    requires { length told.now ≤ 8 }
    ensures { values.new ≡ with_values 0 told.now values.old }
{
    values[..told.len()].copy_from_slice(told);
}
