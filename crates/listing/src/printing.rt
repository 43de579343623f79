// Bytes, numbers and words written to a writer, and the fields of a line, each with the tab before it.
use std::io;
use std::io::Write;

// The millionths of one.
const ONE: u64 = 1_000_000;

pub fn print<W: Write>(out: &mut W, bytes: &[u8]) -> io::Result<()> {
    out.write_all(bytes)
}

pub fn digits<W: Write>(out: &mut W, n: u64) -> io::Result<()> {
    write!(out, "{n}")
}

// A number, as a field.
pub fn number<W: Write>(out: &mut W, n: u64) -> io::Result<()> {
    print(out, b"\t")?;
    digits(out, n)
}

// The shortest decimal of a number of millionths.
pub(crate) fn decimal<W: Write>(out: &mut W, millionths: u64) -> io::Result<()> {
    digits(out, millionths / ONE)?;
    let mut rest = millionths % ONE;
    if 0 < rest {
        print(out, b".")?;
    }
    for unit in [100_000, 10_000, 1_000, 100, 10, 1] {
        if rest == 0 {
            return Ok(());
        }
        digits(out, rest / unit)?;
        rest %= unit;
    }
    Ok(())
}

// A percentage, as a field.
pub fn percentage<W: Write>(out: &mut W, millionths: u64) -> io::Result<()> {
    print(out, b"\t")?;
    decimal(out, millionths)?;
    print(out, b"%")
}

// The letter that stands for a byte after a backslash; none where the byte stands for itself.
fn letter_of(b: u8) -> Option<u8> {
    match b {
        b'\\' => Some(b'\\'),
        b'\t' => Some(b't'),
        b'\n' => Some(b'n'),
        _ => None,
    }
}

// The bytes as a field: backslash, tab and LF are two characters each, so that it is within its line.
pub(crate) fn field<W: Write>(out: &mut W, bytes: &[u8]) -> io::Result<()> {
    print(out, b"\t")?;
    let mut start = 0;
    for (i, &b) in bytes.iter().enumerate() {
        if let Some(letter) = letter_of(b) {
            print(out, &bytes[start..i])?;
            print(out, &[b'\\', letter])?;
            start = i + 1;
        }
    }
    print(out, &bytes[start..])
}

// A part of the text, as a field.
pub fn part<W: Write>(out: &mut W, text: &[u8], from: u64, to: u64) -> io::Result<()> {
    field(out, values::bytes::part(text, from as usize, to as usize))
}

// The word that a code names; nothing where it names none.
pub fn word<W: Write>(out: &mut W, words: &[&[u8]], code: u64) -> io::Result<()> {
    match words.get(code as usize) {
        Some(&word) => print(out, word),
        None => Ok(()),
    }
}

// The same as a field, which is empty where the code names none.
pub fn choice<W: Write>(out: &mut W, words: &[&[u8]], code: u64) -> io::Result<()> {
    print(out, b"\t")?;
    word(out, words, code)
}

// The index of which a row holds one more, as a field; the field `none` where the row holds 0.
pub fn index<W: Write>(out: &mut W, held: u64, none: &[u8]) -> io::Result<()> {
    match held.checked_sub(1) {
        Some(index) => number(out, index),
        None => print(out, none),
    }
}

// The first `count` rows, each printed with its index; all where there are fewer.
pub(crate) fn rows<W: Write, T: Copy, F: FnMut(&mut W, usize, T) -> io::Result<()>>(
    out: &mut W,
    rows: &[T],
    count: usize,
    mut print_row: F,
) -> io::Result<()>
    requires { F.IsAlwaysCallable print_row }
{
    for (index, row) in rows.iter().take(count).enumerate() {
        print_row(out, index, *row)?;
    }
    Ok(())
}
