// A line read by its first letter, and printed with what was read: T a timestamp, G what stands in a timestamp tag, P a percentage, N a line
// number, C a count of lines, S cue settings, R region settings, L a timing line. Numbers are in milliseconds and millionths; after a time stands
// where it ends, and where a time or a timing line fails, the number of the step and the place.
use answers::Told;
use format::regions::Region;
use format::rows::*;
use format::settings::{Settings, Span};
use format::times::{Stamp, Timing, TimingLine};
use listing::printing;
use std::io;
use std::io::Write;
use values::numbers::NumberError;

// What is printed where there is no number, and where one is above its limit.
fn print_error<W: Write>(out: &mut W, why: NumberError) -> io::Result<()> {
    match why {
        NumberError::Bad => printing::print(out, b"fails"),
        NumberError::Over => printing::print(out, b"over"),
    }
}

fn print_percentage<W: Write>(out: &mut W, text: &[u8]) -> io::Result<()> {
    match values::numbers::read_percentage(text) {
        Some(n) => printing::digits(out, n),
        None => print_error(out, NumberError::Bad),
    }
}

fn print_line_number<W: Write>(out: &mut W, text: &[u8]) -> io::Result<()> {
    match values::numbers::read_line_number(text) {
        Ok(n) => {
            if n.negative {
                printing::print(out, b"-")?;
            }
            printing::digits(out, n.millionths)
        }
        Err(why) => print_error(out, why),
    }
}

fn print_line_count<W: Write>(out: &mut W, text: &[u8]) -> io::Result<()> {
    match values::numbers::read_line_count(text) {
        Ok(n) => printing::digits(out, n),
        Err(why) => print_error(out, why),
    }
}

fn print_labelled<W: Write>(out: &mut W, label: &[u8], n: u64) -> io::Result<()> {
    printing::print(out, label)?;
    printing::digits(out, n)
}

// The step that failed, and where; false where none did.
fn print_failed<W: Write>(out: &mut W, told: [u64; 8]) -> io::Result<bool> {
    if told[0] == 0 {
        return Ok(false);
    }
    print_error(out, NumberError::Bad)?;
    print_labelled(out, b" ", told[0])?;
    print_labelled(out, b" ", told[1])?;
    Ok(true)
}

fn print_time<W: Write>(out: &mut W, read: Stamp) -> io::Result<()> {
    let mut told = [0u64; 8];
    if read.tell(&mut told) == 5 {
        return print_error(out, NumberError::Over);
    }
    if print_failed(out, told)? {
        return Ok(());
    }
    printing::digits(out, told[2])?;
    print_labelled(out, b" ", told[1])
}

fn print_part<W: Write>(out: &mut W, text: &[u8], part: Span) -> io::Result<()> {
    let from = part.from;
    let to = part.to;
    if from <= to {
        if to <= text.len() {
            return printing::print(out, &text[from..to]);
        }
    }
    Ok(())
}

// A choice whose first word carries no number.
fn print_choice<W: Write>(out: &mut W, words: &[&[u8]], code: u64, n: u64) -> io::Result<()> {
    printing::word(out, words, code)?;
    if 0 < code {
        return printing::digits(out, n);
    }
    Ok(())
}

fn print_line<W: Write>(out: &mut W, row: CueRow) -> io::Result<()> {
    print_choice(
        out,
        &[b" line auto", b" line ", b" line -"],
        row[CUE_LINE],
        row[CUE_LINE_NUMBER],
    )?;
    printing::word(out, &[b" snap", b""], row[CUE_SNAP])?;
    printing::word(out, &[b" start", b" center", b" end"], row[CUE_LINE_ALIGN])
}

fn print_position<W: Write>(out: &mut W, row: CueRow) -> io::Result<()> {
    print_choice(
        out,
        &[b" position auto", b" position "],
        row[CUE_POSITION],
        row[CUE_POSITION_NUMBER],
    )?;
    printing::word(
        out,
        &[b" auto", b" line-left", b" center", b" line-right"],
        row[CUE_POSITION_ALIGN],
    )
}

// The choices of a cue's row.
fn print_cue_row<W: Write>(out: &mut W, row: CueRow) -> io::Result<()> {
    printing::word(out, &[b"horizontal", b"rl", b"lr"], row[CUE_VERTICAL])?;
    print_line(out, row)?;
    print_position(out, row)?;
    print_labelled(out, b" size ", row[CUE_SIZE])?;
    printing::word(
        out,
        &[
            b" align start",
            b" align center",
            b" align end",
            b" align left",
            b" align right",
        ],
        row[CUE_ALIGN],
    )
}

// The row of a cue that has these settings, no region and no lines, so that each choice is printed by its code.
fn row_of(settings: Settings) -> CueRow {
    let none = Span { from: 0, to: 0 };
    let entry = CueEntry {
        id: none,
        start: 0,
        end: 0,
        text: none,
        settings,
        region: None,
    };
    rows::cue_row(entry, LineSpan::NONE)
}

fn print_settings<W: Write>(
    out: &mut W,
    text: &[u8],
    settings: Settings,
    region: Span,
) -> io::Result<()> {
    print_cue_row(out, row_of(settings))?;
    printing::print(out, b" region ")?;
    print_part(out, text, region)
}

fn print_points<W: Write>(out: &mut W, row: RegionRow) -> io::Result<()> {
    print_labelled(out, b" anchor ", row[REGION_ANCHOR_X])?;
    print_labelled(out, b",", row[REGION_ANCHOR_Y])?;
    print_labelled(out, b" viewport ", row[REGION_VIEWPORT_X])?;
    print_labelled(out, b",", row[REGION_VIEWPORT_Y])
}

// The numbers and the choice of a region's row.
fn print_region_row<W: Write>(out: &mut W, row: RegionRow) -> io::Result<()> {
    print_labelled(out, b" width ", row[REGION_WIDTH])?;
    print_labelled(out, b" lines ", row[REGION_LINES])?;
    print_points(out, row)?;
    printing::word(out, &[b" none", b" up"], row[REGION_SCROLL])
}

fn print_region<W: Write>(out: &mut W, text: &[u8], region: Region) -> io::Result<()> {
    let id = region.id;
    printing::print(out, b"id ")?;
    print_part(out, text, id)?;
    print_region_row(out, rows::region_row(region))
}

fn print_timing<W: Write>(out: &mut W, text: &[u8], timing: Timing) -> io::Result<()> {
    let settings = timing.settings;
    let region = timing.region;
    printing::digits(out, timing.start)?;
    print_labelled(out, b" ", timing.end)?;
    print_labelled(out, b" ", timing.next as u64)?;
    printing::print(out, b" ")?;
    print_settings(out, text, settings, region)
}

fn print_timing_line<W: Write>(out: &mut W, text: &[u8]) -> io::Result<()> {
    let read = timing::line_of(text, 0, text.len());
    let mut told = [0u64; 8];
    if read.tell(&mut told) == 5 {
        return print_error(out, NumberError::Over);
    }
    if print_failed(out, told)? {
        return Ok(());
    }
    if let TimingLine::Good(timing) = read {
        return print_timing(out, text, timing);
    }
    Ok(())
}

fn print_cue_settings<W: Write>(out: &mut W, text: &[u8]) -> io::Result<()> {
    let taken = cue_settings::all_settings(text, 0, text.len());
    if taken.over {
        return print_error(out, NumberError::Over);
    }
    let settings = taken.settings;
    let region = taken.region;
    print_settings(out, text, settings, region)
}

fn print_region_settings<W: Write>(out: &mut W, text: &[u8]) -> io::Result<()> {
    let taken = regions::all_settings(text, 0, text.len());
    if taken.over {
        return print_error(out, NumberError::Over);
    }
    let region = taken.region;
    print_region(out, text, region)
}

fn run_kind<W: Write>(out: &mut W, kind: u8, text: &[u8]) -> io::Result<()> {
    match kind {
        b'T' => print_time(out, values::read_time(text)),
        b'G' => print_time(out, values::read_only_time(text)),
        b'P' => print_percentage(out, text),
        b'N' => print_line_number(out, text),
        b'C' => print_line_count(out, text),
        b'S' => print_cue_settings(out, text),
        b'R' => print_region_settings(out, text),
        _ => print_timing_line(out, text),
    }
}

pub(crate) fn run<W: Write>(out: &mut W, line: &[u8]) -> io::Result<()> {
    if line.len() < 2 {
        return Ok(());
    }
    printing::print(out, line)?;
    printing::print(out, b"\n  ")?;
    run_kind(out, line[0], &line[2..])?;
    printing::print(out, b"\n")
}
