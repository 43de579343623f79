// The lines of the cues.
use super::printing;
use format::rows::*;
use std::io;
use std::io::Write;

// Auto, or a number with its sign: a line's where the line snaps to lines, else a percentage. Code 1 has no sign, so its word is empty.
fn print_line<W: Write>(out: &mut W, code: u64, millionths: u64, snap: u64) -> io::Result<()> {
    printing::choice(out, &[b"auto", b"", b"-"], code)?;
    if code == 0 {
        return Ok(());
    }
    printing::decimal(out, millionths)?;
    if snap == 1 {
        printing::print(out, b"%")?;
    }
    Ok(())
}

fn print_position<W: Write>(out: &mut W, code: u64, millionths: u64) -> io::Result<()> {
    if code == 0 {
        return printing::print(out, b"\tauto");
    }
    printing::percentage(out, millionths)
}

fn print_settings<W: Write>(out: &mut W, row: CueRow) -> io::Result<()> {
    printing::choice(out, &[b"horizontal", b"rl", b"lr"], row[CUE_VERTICAL])?;
    print_line(out, row[CUE_LINE], row[CUE_LINE_NUMBER], row[CUE_SNAP])?;
    printing::choice(out, &[b"start", b"center", b"end"], row[CUE_LINE_ALIGN])?;
    print_position(out, row[CUE_POSITION], row[CUE_POSITION_NUMBER])?;
    printing::choice(
        out,
        &[b"auto", b"line-left", b"center", b"line-right"],
        row[CUE_POSITION_ALIGN],
    )?;
    printing::percentage(out, row[CUE_SIZE])?;
    printing::choice(
        out,
        &[b"start", b"center", b"end", b"left", b"right"],
        row[CUE_ALIGN],
    )?;
    printing::index(out, row[CUE_REGION], b"\tnone")
}

// The cue with this number, which has this row.
fn print_cue<W: Write>(
    out: &mut W,
    text: &[u8],
    cues: &[CueRow],
    number: usize,
    row: CueRow,
) -> io::Result<()> {
    printing::print(out, b"cue")?;
    printing::number(out, number as u64)?;
    printing::number(out, row[CUE_START])?;
    printing::number(out, row[CUE_END])?;
    printing::field(out, parts::identifier_of(text, cues, number))?;
    printing::field(out, parts::text_of(text, cues, number))?;
    print_settings(out, row)?;
    printing::number(out, row[CUE_FIRST_LINE])?;
    printing::number(out, row[CUE_LINES])?;
    printing::print(out, b"\n")
}

// The first `count` cues, a line each; all where there are fewer.
pub(crate) fn print_all<W: Write>(
    out: &mut W,
    text: &[u8],
    cues: &[CueRow],
    count: usize,
) -> io::Result<()> {
    printing::rows(
        out,
        cues,
        count,
        |out, number, row| print_cue(out, text, cues, number, row),
    )
}
