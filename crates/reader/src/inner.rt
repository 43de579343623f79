// Reading a text that is known to be plain. The function is for the crates above: it asks that the text is.
ghost use Rattle.std.specs.Prelude.{◌≡◌, ◌≤◌, length};
ghost use Rattle.format.specs.Limits.{max_text};
ghost use Rattle.format.specs.Plain.{first_not_plain};
ghost use Rattle.format.specs.Lists.{lists};
ghost use Rattle.format.specs.Rows.{region_rows, style_rows, stored_cues};
ghost use Rattle.format.specs.Reading.{reading, after_reading};
ghost use Rattle.reader.specs.Counting.{plain_reading_is};

use super::{counting, filling};
use format::rows::{CueRow, RegionRow, StyleRow};
use format::{Counts, ListsError};

// The lists of a text within its limit that is plain, as rows at the start of each table.
pub fn read_plain(
    text: &[u8],
    cues: &mut [CueRow],
    regions: &mut [RegionRow],
    styles: &mut [StyleRow],
) -> Result<Counts, ListsError>
    requires { (length text.now ≤ max_text) × (length text.now ≤ first_not_plain text.now) }
    ensures answer { plain_reading_is result ≡ reading text.now (length cues.old) (length regions.old) (length styles.old) }
    ensures cues { cues.new ≡ after_reading (plain_reading_is result) (stored_cues text.now) cues.old }
    ensures regions { regions.new ≡ after_reading (plain_reading_is result) (region_rows (lists text.now).regions) regions.old }
    ensures styles { styles.new ≡ after_reading (plain_reading_is result) (style_rows (lists text.now).styles) styles.old }
{
    let from = blocks::past_header(text);
    let need = counting::measure(text, from)?;
    if cues.len() < need.cues || regions.len() < need.regions || styles.len() < need.styles {
        return Err(ListsError::TablesTooShort(need));
    }
    filling::fill(text, from, cues, regions, styles);
    Ok(need)
}
