// The lines of the regions.
use super::printing;
use format::rows::*;
use std::io;
use std::io::Write;

fn print_row<W: Write>(out: &mut W, text: &[u8], number: usize, row: RegionRow) -> io::Result<()> {
    printing::print(out, b"region")?;
    printing::number(out, number as u64)?;
    printing::part(out, text, row[REGION_ID_FROM], row[REGION_ID_TO])?;
    printing::percentage(out, row[REGION_WIDTH])?;
    printing::number(out, row[REGION_LINES])?;
    printing::percentage(out, row[REGION_ANCHOR_X])?;
    printing::percentage(out, row[REGION_ANCHOR_Y])?;
    printing::percentage(out, row[REGION_VIEWPORT_X])?;
    printing::percentage(out, row[REGION_VIEWPORT_Y])?;
    printing::choice(out, &[b"none", b"up"], row[REGION_SCROLL])?;
    printing::print(out, b"\n")
}

// The first `count` rows, a line each; all where there are fewer.
pub(crate) fn print_all<W: Write>(
    out: &mut W,
    text: &[u8],
    regions: &[RegionRow],
    count: usize,
) -> io::Result<()> {
    printing::rows(
        out,
        regions,
        count,
        |out, number, row| print_row(out, text, number, row),
    )
}
