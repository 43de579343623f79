// Rewriting a raw file in the one written form: it is converted, read and written again, or refused by the first of these that refuses.
#![tactic(auto)]

ghost use Rattle.std.specs.Prelude.{◌≡◌};
ghost use Rattle.format.specs.Plain.{plain_text};
ghost use Rattle.format.specs.Lists.{lists};
ghost use Rattle.format.specs.Rows.{region_rows, style_rows, stored_cues};
ghost use Rattle.format.specs.Converting.{converted_room};
ghost use Rattle.format.specs.Reading.{after_reading};
ghost use Rattle.format.specs.Rewriting.{rewriting_is, lengths, reading_in, rewriting, rewritten_room};

use format::RewriteError;
use format::rows::{CueRow, RegionRow, StyleRow};

// Rewrites a raw file. Its plain text goes to `text`, its lists to the tables, and the written form to `out`. Text room and tables are scratch
// for this call: where a later step refuses, they hold what the steps before it made.
#[tactic(auto, using(crate::proofs::RewriteLaws::not_rewritten), unfolding(format::specs::Rewriting::reading_in, format::specs::Rewriting::lengths))]
pub fn rewrite(
    raw: &[u8],
    text: &mut [u8],
    cues: &mut [CueRow],
    regions: &mut [RegionRow],
    styles: &mut [StyleRow],
    out: &mut [u8],
) -> Result<usize, RewriteError>
    ensures answer { rewriting_is result ≡ rewriting raw.now (lengths text.old cues.old regions.old styles.old out.old) }
    ensures text { text.new ≡ converted_room raw.now text.old }
    ensures cues { cues.new ≡ after_reading (reading_in raw.now (lengths text.old cues.old regions.old styles.old out.old)) (stored_cues (plain_text raw.now)) cues.old }
    ensures regions { regions.new ≡ after_reading (reading_in raw.now (lengths text.old cues.old regions.old styles.old out.old)) (region_rows (lists (plain_text raw.now)).regions) regions.old }
    ensures styles { styles.new ≡ after_reading (reading_in raw.now (lengths text.old cues.old regions.old styles.old out.old)) (style_rows (lists (plain_text raw.now)).styles) styles.old }
    ensures out { out.new ≡ rewritten_room raw.now (lengths text.old cues.old regions.old styles.old out.old) out.old }
{
    let lists = reader::read_file(raw, text, cues, regions, styles)?;
    let counts = lists.counts;
    Ok(writer::write(
        &text[..lists.text],
        &styles[..counts.styles],
        &regions[..counts.regions],
        &cues[..counts.cues],
        out,
    )?)
}
