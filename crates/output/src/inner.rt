// A file made of what a function puts. It is for the crates above: it asks that the function which it is given may be called.
ghost use Rattle.std.specs.Prelude.{List, ℕ};
ghost use Rattle.output.specs.Puts.{EachPuts, Made};

use super::Output;
use format::OutError;

// A file of what is put, at the start of a room. It is measured first, in a room of one byte: a refusal leaves the room as it was.
pub fn make_file<F: Fn(&mut Output)>(put: F, room: &mut [u8]) -> Result<usize, OutError>
    requires { F.IsAlwaysCallable put }
    ensures { (file : List ℕ) → EachPuts (F.post put) file → Made file room.old result room.new }
{
    let mut nothing = [0u8; 1];
    let mut measured = Output {
        room: &mut nothing,
        at: 0,
    };
    put(&mut measured);
    let need = measured.at;
    if format::MAX_FILE < need {
        return Err(OutError::FileTooLong);
    }
    if room.len() < need {
        return Err(OutError::OutTooShort(need));
    }
    let mut out = Output { room, at: 0 };
    put(&mut out);
    Ok(out.at)
}
