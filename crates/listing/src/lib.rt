// Prints what a player would read of a raw file: its styles, regions and cues, a line each, or the refusal.
#![tactic(auto)]

ghost use Rattle.std.specs.Prelude.{◌≡◌, [], IfOk, IfSome, OnErr, length, nat_lt};
ghost use Rattle.format.specs.Plain.{plain_text};
ghost use Rattle.format.specs.Lists.{lists};
ghost use Rattle.format.specs.Rows.{region_rows, style_rows, stored_cues};
ghost use Rattle.format.specs.Answers.{accepted, answered, refusal_number};
ghost use Rattle.format.specs.Converting.{converted_room};
ghost use Rattle.format.specs.Reading.{read_file_error, reading_raw, after_reading};

use format::rows::{CueRow, RegionRow, StyleRow};
use format::{ConvertError, ReadFileError};
use std::io;
use std::io::{Read, Write};
use values::bytes::part;

mod cue_lines;
pub mod files;
pub mod input;
mod node_lines;
pub mod printing;
mod region_lines;
mod style_lines;
pub mod trees;

// The line of a refusal; none for 0, which is no refusal's number.
pub fn refuse<W: Write>(out: &mut W, number: u64) -> io::Result<()> {
    if number == 0 {
        return Ok(());
    }
    printing::print(out, b"refused")?;
    printing::number(out, number)?;
    printing::print(out, b"\n")
}

// Is there more in an open file than was read of it. Then it is refused by 1.
pub fn refuse_more<R: Read, W: Write>(file: &mut R, out: &mut W) -> io::Result<bool>
    ensures { IfOk result (λ more. IfSome (R.remaining file.old) (λ bytes. more ≡ nat_lt 0 (length bytes))) }
{
    if !input::has_more(file)? {
        return Ok(false);
    }
    refuse(out, answers::number(ConvertError::TooLong))?;
    Ok(true)
}

// Prints the lines of a raw file. Its plain text goes to `text`, and the lists to the tables. Where converting and reading refuse, nothing is
// printed, and why is handed back.
pub(crate) fn show<W: Write>(
    out: &mut W,
    raw: &[u8],
    text: &mut [u8],
    cues: &mut [CueRow],
    regions: &mut [RegionRow],
    styles: &mut [StyleRow],
) -> io::Result<Result<(), ReadFileError>>
    ensures number { IfOk result (λ shown. refusal_number (answered (λ _. accepted []) read_file_error shown) ≡ refusal_number (reading_raw raw.now (length text.old) (length cues.old) (length regions.old) (length styles.old))) }
    ensures err { OnErr result (refusal_number (reading_raw raw.now (length text.old) (length cues.old) (length regions.old) (length styles.old)) ≡ 0) }
    ensures text { text.new ≡ converted_room raw.now text.old }
    ensures cues { cues.new ≡ after_reading (reading_raw raw.now (length text.old) (length cues.old) (length regions.old) (length styles.old)) (stored_cues (plain_text raw.now)) cues.old }
    ensures regions { regions.new ≡ after_reading (reading_raw raw.now (length text.old) (length cues.old) (length regions.old) (length styles.old)) (region_rows (lists (plain_text raw.now)).regions) regions.old }
    ensures styles { styles.new ≡ after_reading (reading_raw raw.now (length text.old) (length cues.old) (length regions.old) (length styles.old)) (style_rows (lists (plain_text raw.now)).styles) styles.old }
{
    match reader::read_file(raw, text, cues, regions, styles) {
        Ok(lists) => {
            let shown = part(text, 0, lists.text);
            let counts = lists.counts;
            style_lines::print_all(out, shown, styles, counts.styles)?;
            region_lines::print_all(out, shown, regions, counts.regions)?;
            cue_lines::print_all(out, shown, cues, counts.cues)?;
            Ok(Ok(()))
        }
        Err(why) => Ok(Err(why)),
    }
}

// Prints the lines of an open file, read into `raw`, or the line of the refusal. More input than `raw` holds is refusal 1.
pub fn show_file<R: Read, W: Write>(
    file: &mut R,
    out: &mut W,
    raw: &mut [u8],
    text: &mut [u8],
    cues: &mut [CueRow],
    regions: &mut [RegionRow],
    styles: &mut [StyleRow],
) -> io::Result<()> {
    let n = input::fill(file, raw)?;
    if refuse_more(file, out)? {
        return Ok(());
    }
    match show(out, &raw[..n], text, cues, regions, styles)? {
        Ok(()) => Ok(()),
        Err(why) => refuse(out, answers::number(why)),
    }
}
