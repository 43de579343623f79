// Reading a plain text, or a raw file, into lent tables of cues, regions and style texts. Any bytes and rooms and tables of any length are taken.
#![tactic(auto)]

ghost use Rattle.std.specs.Prelude.{◌≡◌, length};
ghost use Rattle.format.specs.Lists.{lists};
ghost use Rattle.format.specs.Rows.{region_rows, style_rows, stored_cues};
ghost use Rattle.format.specs.Plain.{plain_text};
ghost use Rattle.format.specs.Converting.{converted_room};
ghost use Rattle.format.specs.Reading.{reading_is, reading, reading_raw, file_reading_is, file_reading, after_reading};

use format::rows::{CueRow, RegionRow, StyleRow};
use format::{Counts, FileLists, ReadError, ReadFileError};

mod counting;
mod filling;
pub mod inner;

// The lists of a plain text, as rows at the start of each table. The meaning of a row's words is in format/specs/Rows.antt.
pub fn read(
    text: &[u8],
    cues: &mut [CueRow],
    regions: &mut [RegionRow],
    styles: &mut [StyleRow],
) -> Result<Counts, ReadError>
    ensures answer { reading_is result ≡ reading text.now (length cues.old) (length regions.old) (length styles.old) }
    ensures cues { cues.new ≡ after_reading (reading_is result) (stored_cues text.now) cues.old }
    ensures regions { regions.new ≡ after_reading (reading_is result) (region_rows (lists text.now).regions) regions.old }
    ensures styles { styles.new ≡ after_reading (reading_is result) (style_rows (lists text.now).styles) styles.old }
{
    if format::MAX_TEXT < text.len() {
        return Err(ReadError::TooLong);
    }
    if let Some(i) = plain::first_not_plain(text) {
        return Err(ReadError::NotPlainAt(i));
    }
    Ok(inner::read_plain(text, cues, regions, styles)?)
}

// A raw file converted and read in one call, which does not look for what is not plain in a text that it made itself. The plain text goes to
// `text`, whose bytes are as they were only after the refusals 1 and 2; no refusal changes a table.
pub fn read_file(
    raw: &[u8],
    text: &mut [u8],
    cues: &mut [CueRow],
    regions: &mut [RegionRow],
    styles: &mut [StyleRow],
) -> Result<FileLists, ReadFileError>
    ensures answer { file_reading_is result ≡ file_reading raw.now (length text.old) (length cues.old) (length regions.old) (length styles.old) }
    ensures text { text.new ≡ converted_room raw.now text.old }
    ensures cues { cues.new ≡ after_reading (reading_raw raw.now (length text.old) (length cues.old) (length regions.old) (length styles.old)) (stored_cues (plain_text raw.now)) cues.old }
    ensures regions { regions.new ≡ after_reading (reading_raw raw.now (length text.old) (length cues.old) (length regions.old) (length styles.old)) (region_rows (lists (plain_text raw.now)).regions) regions.old }
    ensures styles { styles.new ≡ after_reading (reading_raw raw.now (length text.old) (length cues.old) (length regions.old) (length styles.old)) (style_rows (lists (plain_text raw.now)).styles) styles.old }
{
    let n = plain::convert(raw, text)?;
    let counts = inner::read_plain(&text[..n], cues, regions, styles)?;
    Ok(FileLists { counts, text: n })
}
