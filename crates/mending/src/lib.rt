// One cue of a raw file replaced as a request line asks. The line stands before the file, in one input. Any input is taken; what is answered,
// and what the rooms hold then, is what the definitions of mending say of the input, and demand 3 holds of a new file.
#![tactic(auto)]

ghost use Rattle.std.specs.Prelude.{ℕ, ◌≤◌, ◌≡◌, length, take};
ghost use Rattle.std.specs.Prelude.{Some, Ok};
ghost use Rattle.format.specs.Bytes.{lf};
ghost use Rattle.format.specs.Texts.{after_first};
ghost use Rattle.format.specs.Limits.{max_request};
ghost use Rattle.format.specs.Replacing.{Replaced};
ghost use Rattle.format.specs.Requests.{Request, request, asked, lent_text, lent_row, mending_is, mending, mended_room, mended_scratch};
ghost use Rattle.mending.specs.Asked.{MendedBy};

use format::{ConvertError, MendError, ReplaceError};
use values::bytes::{ByteKind, past};

// The greatest length in bytes of a request line, without its LF.
const MAX_LINE: usize = 4_096;

// The greatest length in bytes of the raw file after it.
const MAX_RAW: usize = 16_384;

// What a request line asks for in a raw file. `longer` says that the file goes on after what is lent; a bad request is told before that.
fn mend_line(
    line: &[u8],
    raw: &[u8],
    longer: bool,
    scratch: &mut [u8],
    out: &mut [u8],
) -> Result<usize, MendError>
    requires { length line.now ≤ max_request }
    ensures { MendedBy (request line.now) raw.now longer scratch.old out.old result scratch.new out.new }
{
    // The new cue's parts are pieces of the line, so the line's greatest length holds them.
    let mut text = [0u8; MAX_LINE];
    let Some(asking) = requests::read(line, &mut text) else {
        return Err(MendError::BadRequest);
    };
    if longer {
        return Err(MendError::Replace(ReplaceError::Convert(ConvertError::TooLong)));
    }
    if MAX_RAW < raw.len() {
        return Err(MendError::Replace(ReplaceError::Convert(ConvertError::TooLong)));
    }
    let region = asking.region;
    let end = region.to;
    Ok(replace::replace_cue(
        raw,
        asking.number,
        requests::row(asking),
        &text[..end],
        scratch,
        out,
    )?)
}

// What the request line at the input's start asks for in the raw file after it. The new file goes to `out`, the old file's plain text to
// `scratch`. `longer` says that the input goes on after what is lent.
pub fn mend(
    input: &[u8],
    longer: bool,
    scratch: &mut [u8],
    out: &mut [u8],
) -> Result<usize, MendError>
    ensures answer { mending_is result ≡ mending input.now longer (length scratch.old) (length out.old) }
    ensures scratch { scratch.new ≡ mended_scratch input.now longer scratch.old }
    ensures out { out.new ≡ mended_room input.now longer (length scratch.old) out.old }
    ensures replaced { (n : ℕ) (q : Request) → result ≡ Ok n → asked input.now ≡ Some q → Replaced (after_first lf input.now) q.number (lent_text q) (lent_row q) (take n out.new) }
{
    let end = past(input, 0, ByteKind::Until(b'\n'));
    if MAX_LINE < end {
        return Err(MendError::BadRequest);
    }
    if input.len() <= end {
        return Err(MendError::BadRequest);
    }
    let after = end + 1;
    mend_line(&input[..end], &input[after..], longer, scratch, out)
}
