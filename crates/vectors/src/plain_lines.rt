// A line of hexadecimal bytes: the bytes are converted, and printed with the plain text and with the first place of the bytes that is not
// plain, parted by tabs.
ghost use Rattle.std.specs.Prelude.{◌≤◌, ◌<◌, length};

use format::ConvertError;
use listing::printing;
use std::io;
use std::io::Write;

// The value of a hexadecimal digit; 0 where it is none, which is so in no vector.
fn digit(c: u8) -> u8
    ensures { result < 16 }
{
    match c {
        b'0'..=b'9' => c - b'0',
        b'A'..=b'F' => c - b'A' + 10,
        _ => 0,
    }
}

// Reads pairs of digits into `raw`, as many as it holds, and gives their number.
fn decode(line: &[u8], raw: &mut [u8]) -> usize
    ensures { result ≤ length raw.new }
{
    let count = raw.len().min(line.len() / 2);
    for n in 0..count {
        raw[n] = digit(line[2 * n]) * 16 + digit(line[2 * n + 1]);
    }
    count
}

fn hex_digit(n: u8) -> u8
    requires { n < 16 }
{
    if n < 10 {
        return b'0' + n;
    }
    b'A' + (n - 10)
}

fn print_hex<W: Write>(out: &mut W, bytes: &[u8]) -> io::Result<()> {
    for b in bytes {
        let pair = [hex_digit(*b / 16), hex_digit(*b % 16)];
        printing::print(out, &pair)?;
    }
    Ok(())
}

fn print_place<W: Write>(out: &mut W, raw: &[u8]) -> io::Result<()> {
    match plain::first_not_plain(raw) {
        None => printing::print(out, b"\tplain\n"),
        Some(at) => {
            printing::number(out, at as u64)?;
            printing::print(out, b"\n")
        }
    }
}

fn print_text<W: Write>(out: &mut W, raw: &[u8]) -> io::Result<()> {
    let mut room = [0u8; 192];
    match plain::convert(raw, &mut room) {
        Ok(n) => {
            if n <= room.len() {
                return print_hex(out, &room[..n]);
            }
            Ok(())
        }
        Err(ConvertError::TooLong) => printing::print(out, b"refused 1"),
        Err(ConvertError::RoomTooShort(_)) => printing::print(out, b"refused 2"),
    }
}

fn report<W: Write>(out: &mut W, raw: &[u8]) -> io::Result<()> {
    print_hex(out, raw)?;
    printing::print(out, b"\t")?;
    print_text(out, raw)?;
    print_place(out, raw)
}

pub(crate) fn run<W: Write>(out: &mut W, line: &[u8]) -> io::Result<()> {
    let mut raw = [0u8; 64];
    let n = decode(line, &mut raw);
    report(out, &raw[..n])
}
