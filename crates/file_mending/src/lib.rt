// The request and the raw file in an open file, answered. It is proved that any input is taken, that it ends inside its memory, and that a
// refusal is told by its number; what is printed is run and compared.
#![tactic(auto)]

use format::MendError;
use listing::input;
use std::io;
use std::io::{Read, Write};
use values::bytes::part;

// The new file, which goes to `room`, the line of the refusal, or that the request is bad. More input than `input` holds is refusal 1, after a
// bad request.
pub fn mend_file<R: Read, W: Write>(
    file: &mut R,
    out: &mut W,
    input: &mut [u8],
    text: &mut [u8],
    room: &mut [u8],
) -> io::Result<()> {
    let n = input::fill(file, input)?;
    let longer = input::has_more(file)?;
    match mending::mend(&input[..n], longer, text, room) {
        Ok(length) => out.write_all(part(room, 0, length)),
        Err(MendError::BadRequest) => out.write_all(b"bad request\n"),
        Err(MendError::Replace(why)) => listing::refuse(out, answers::number(why)),
    }
}
