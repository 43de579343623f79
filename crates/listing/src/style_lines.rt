// The lines of the style texts.
use super::printing;
use format::rows::*;
use std::io;
use std::io::Write;

fn print_row<W: Write>(out: &mut W, text: &[u8], number: usize, row: StyleRow) -> io::Result<()> {
    printing::print(out, b"style")?;
    printing::number(out, number as u64)?;
    printing::part(out, text, row[STYLE_FROM], row[STYLE_TO])?;
    printing::print(out, b"\n")
}

// The first `count` rows, a line each; all where there are fewer.
pub(crate) fn print_all<W: Write>(
    out: &mut W,
    text: &[u8],
    styles: &[StyleRow],
    count: usize,
) -> io::Result<()> {
    printing::rows(
        out,
        styles,
        count,
        |out, number, row| print_row(out, text, number, row),
    )
}
