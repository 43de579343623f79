// The files that a program's arguments name.
ghost use Rattle.std.specs.Prelude.{◌≤◌, IfSome, length};

use std::env::{Env, FillError};
use std::fmt::InlineText;
use std::fs::{File, Files};
use std::io;
use std::io::{ErrorKind, Write};

// Puts the argument of this number at the start of `buf`, and gives its length, which is 0 where it is longer than `buf`. The first one is the
// program's own name.
pub fn argument<R: Env>(rt: &R, number: usize, buf: &mut [u8]) -> Option<usize>
    ensures { IfSome result (λ n. n ≤ length buf.new) }
{
    match rt.arg(number, buf) {
        Ok(n) => Some(n),
        Err(FillError::TooLong) => Some(0),
        Err(FillError::NotPresent) => None,
    }
}

// Opens a file for reading. A name that is no UTF-8 names none.
pub fn open<R: Files>(rt: &R, name: &[u8]) -> io::Result<R::File> {
    match str::from_utf8(name) {
        Ok(path) => File::open(rt, path),
        Err(_) => Err(io::Error::from(ErrorKind::InvalidFilename)),
    }
}

// Where the number of an error begins in its text, which says it last; at the end, where it has none.
fn number_at(text: &[u8]) -> usize
    ensures { result ≤ length text.now }
{
    for i in 0..text.len() {
        if text[i..].starts_with(b" (os error ") {
            return i;
        }
    }
    text.len()
}

// The line that says why a file was not opened, in the system's words.
pub fn fail<W: Write>(err: &mut W, name: &[u8], why: io::Error) -> io::Result<()> {
    let text: InlineText<256> = InlineText::of(&why);
    let words = text.as_str().as_bytes();
    err.write_all(name)?;
    err.write_all(b": ")?;
    err.write_all(&words[..number_at(words)])?;
    err.write_all(b"\n")
}
