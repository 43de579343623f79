// The library's functions for callers in C and other languages: over numbers and slices alone. Each hands back document 01's number, 0 where it
// accepts, and puts the values that go with the answer at the start of `values`, whose other words stay. What is promised is what the
// library's own function promises.
#![tactic(auto)]

ghost use Rattle.std.specs.Prelude.{◌≡◌, ℕ, [], ◌∷◌, length, take};
ghost use Rattle.format.specs.Plain.{plain_text};
ghost use Rattle.format.specs.Lists.{lists};
ghost use Rattle.format.specs.Rows.{region_rows, style_rows, stored_cues, cue_entry};
ghost use Rattle.format.specs.Answers.{accepted, refusal_number, returned, with_values};
ghost use Rattle.format.specs.TellingTimes.{time_told, tag_time_told, timing_line_told};
ghost use Rattle.format.specs.Converting.{converting, converted_room, testing};
ghost use Rattle.format.specs.Reading.{reading, reading_raw, file_reading, after_reading};
ghost use Rattle.format.specs.Trees.{treeing, tree_room, tree_table, TreeStands};
ghost use Rattle.format.specs.Contents.{contents_of_rows};
ghost use Rattle.format.specs.Writing.{writing, written_room, ReadBack};
ghost use Rattle.format.specs.Rewriting.{lengths, reading_in, rewriting, rewritten_room};
ghost use Rattle.format.specs.Replacing.{replacing, replaced_room, Replaced};
ghost use Rattle.format.specs.LookingUp.{looking_up};
ghost use Rattle.format.specs.Parts.{part_answer_is, asking};
ghost use Rattle.c_api.specs.Lent.{lent_words, place_told, entry_at};

use answers::Told;
use format::PartError;
use format::rows::{CUE_WORDS, CueRow, NEW_CUE_WORDS, NewCueRow, NodeRow, RegionRow, StyleRow};
use format::settings::Span;

// The plain text of a raw file goes to `room`. Values: its length; for 2 the length needed.
#[unsafe(no_mangle)]
pub extern "C" fn spatz_convert(raw: &[u8], room: &mut [u8], values: &mut [u64; 8]) -> u64
    ensures number { result ≡ refusal_number (converting raw.now (length room.old)) }
    ensures room { room.new ≡ converted_room raw.now room.old }
    ensures values { values.new ≡ with_values 0 (returned (converting raw.now (length room.old))) values.old }
{
    plain::convert(raw, room).tell(values)
}

// Is a text plain. Values: for 3 the first place that is not.
#[unsafe(no_mangle)]
pub extern "C" fn spatz_first_not_plain(text: &[u8], values: &mut [u64; 8]) -> u64
    ensures number { result ≡ refusal_number (testing text.now) }
    ensures values { values.new ≡ with_values 0 (returned (testing text.now)) values.old }
{
    plain::first_not_plain(text).tell(values)
}

// The lists of a plain text go to the tables. Values: the counts of cues, regions and styles, for 6 too; for 3 the first place that is not plain.
#[unsafe(no_mangle)]
pub extern "C" fn spatz_read(
    text: &[u8],
    cues: &mut [CueRow],
    regions: &mut [RegionRow],
    styles: &mut [StyleRow],
    values: &mut [u64; 8],
) -> u64
    ensures number { result ≡ refusal_number (reading text.now (length cues.old) (length regions.old) (length styles.old)) }
    ensures cues { cues.new ≡ after_reading (reading text.now (length cues.old) (length regions.old) (length styles.old)) (stored_cues text.now) cues.old }
    ensures regions { regions.new ≡ after_reading (reading text.now (length cues.old) (length regions.old) (length styles.old)) (region_rows (lists text.now).regions) regions.old }
    ensures styles { styles.new ≡ after_reading (reading text.now (length cues.old) (length regions.old) (length styles.old)) (style_rows (lists text.now).styles) styles.old }
    ensures values { values.new ≡ with_values 0 (returned (reading text.now (length cues.old) (length regions.old) (length styles.old))) values.old }
{
    reader::read(text, cues, regions, styles).tell(values)
}

// A raw file's plain text goes to `text`, its lists to the tables. Values: the counts of cues, regions and styles, and then the text's length;
// for 2 the length needed, for 6 the counts. The text is left in its room after the refusals 4, 5 and 6.
#[unsafe(no_mangle)]
pub extern "C" fn spatz_read_file(
    raw: &[u8],
    text: &mut [u8],
    cues: &mut [CueRow],
    regions: &mut [RegionRow],
    styles: &mut [StyleRow],
    values: &mut [u64; 8],
) -> u64
    ensures number { result ≡ refusal_number (file_reading raw.now (length text.old) (length cues.old) (length regions.old) (length styles.old)) }
    ensures text { text.new ≡ converted_room raw.now text.old }
    ensures cues { cues.new ≡ after_reading (reading_raw raw.now (length text.old) (length cues.old) (length regions.old) (length styles.old)) (stored_cues (plain_text raw.now)) cues.old }
    ensures regions { regions.new ≡ after_reading (reading_raw raw.now (length text.old) (length cues.old) (length regions.old) (length styles.old)) (region_rows (lists (plain_text raw.now)).regions) regions.old }
    ensures styles { styles.new ≡ after_reading (reading_raw raw.now (length text.old) (length cues.old) (length regions.old) (length styles.old)) (style_rows (lists (plain_text raw.now)).styles) styles.old }
    ensures values { values.new ≡ with_values 0 (returned (file_reading raw.now (length text.old) (length cues.old) (length regions.old) (length styles.old))) values.old }
{
    reader::read_file(raw, text, cues, regions, styles).tell(values)
}

// The region of this name among rows over a text, looked for from the last to the first; the name may stand in another text. Nothing is refused.
// Values: 1 and the region's index, or 0 and 0 where none has the name; and how many rows were looked at.
#[unsafe(no_mangle)]
pub extern "C" fn spatz_find_region(
    text: &[u8],
    regions: &[RegionRow],
    name: &[u8],
    values: &mut [u64; 8],
) -> u64
    ensures number { result ≡ refusal_number (looking_up text.now regions.now name.now) }
    ensures values { values.new ≡ with_values 0 (returned (looking_up text.now regions.now name.now)) values.old }
{
    lookup::find_region(text, regions, name).tell(values)
}

// The timestamp that a text begins with. Values: 0, where it ends, and its milliseconds; or, where it cannot be read, the number of the step that
// failed, from 1, and where the reading then stands. The hours alone are refused, by 5.
#[unsafe(no_mangle)]
pub extern "C" fn spatz_time(text: &[u8], values: &mut [u64; 8]) -> u64
    ensures number { result ≡ refusal_number (time_told text.now) }
    ensures values { values.new ≡ with_values 0 (returned (time_told text.now)) values.old }
{
    values::read_time(text).tell(values)
}

// A text that has to be a time and nothing else, as what stands in a timestamp tag. Values as above.
#[unsafe(no_mangle)]
pub extern "C" fn spatz_tag_time(text: &[u8], values: &mut [u64; 8]) -> u64
    ensures number { result ≡ refusal_number (tag_time_told text.now) }
    ensures values { values.new ≡ with_values 0 (returned (tag_time_told text.now)) values.old }
{
    values::read_only_time(text).tell(values)
}

// A line as a cue's timing line. Values: 0, where the end time ends, start and end in milliseconds; or the number of the step that failed, and where
// the reading then stands. Refused by 5 where the times or a setting have a number above its limit.
#[unsafe(no_mangle)]
pub extern "C" fn spatz_timing_line(line: &[u8], values: &mut [u64; 8]) -> u64
    ensures number { result ≡ refusal_number (timing_line_told (record { place = 0; bytes = line.now })) }
    ensures values { values.new ≡ with_values 0 (returned (timing_line_told (record { place = 0; bytes = line.now }))) values.old }
{
    timing::line_of(line, 0, line.len()).tell(values)
}

// The nodes of one cue's text go to the table, their strings to `room`. Values: rows and bytes used; for 2 the bytes, for 6 the rows needed.
#[unsafe(no_mangle)]
pub extern "C" fn spatz_tree(
    text: &[u8],
    room: &mut [u8],
    nodes: &mut [NodeRow],
    values: &mut [u64; 8],
) -> u64
    ensures number { result ≡ refusal_number (treeing text.now (length room.old) (length nodes.old)) }
    ensures room { room.new ≡ tree_room text.now room.old (length nodes.old) }
    ensures nodes { nodes.new ≡ tree_table text.now (length room.old) nodes.old }
    ensures values { values.new ≡ with_values 0 (returned (treeing text.now (length room.old) (length nodes.old))) values.old }
    ensures stands { (count used : ℕ) → treeing text.now (length room.old) (length nodes.old) ≡ accepted (count ∷ used ∷ []) → TreeStands text.now (take used room.new) (take count nodes.new) }
{
    markup::tree(text, room, nodes).tell(values)
}

// The file that has the lists of these rows over a text goes to `out`. Values: its length; for 8 list, index, test; for 10 the length needed.
#[unsafe(no_mangle)]
pub extern "C" fn spatz_write(
    text: &[u8],
    styles: &[StyleRow],
    regions: &[RegionRow],
    cues: &[CueRow],
    out: &mut [u8],
    values: &mut [u64; 8],
) -> u64
    ensures number { result ≡ refusal_number (writing text.now styles.now regions.now cues.now (length out.old)) }
    ensures out { out.new ≡ written_room text.now styles.now regions.now cues.now out.old }
    ensures values { values.new ≡ with_values 0 (returned (writing text.now styles.now regions.now cues.now (length out.old))) values.old }
    ensures back { (n : ℕ) → writing text.now styles.now regions.now cues.now (length out.old) ≡ accepted (n ∷ []) → ReadBack (contents_of_rows text.now styles.now regions.now cues.now) (take n out.new) }
{
    writer::write(text, styles, regions, cues, out).tell(values)
}

// A raw file converted, read and written again to `out`, text room and tables being scratch. Values: its length; for 2, 6, 8, 10 as above.
#[unsafe(no_mangle)]
pub extern "C" fn spatz_rewrite(
    raw: &[u8],
    text: &mut [u8],
    cues: &mut [CueRow],
    regions: &mut [RegionRow],
    styles: &mut [StyleRow],
    out: &mut [u8],
    values: &mut [u64; 8],
) -> u64
    ensures number { result ≡ refusal_number (rewriting raw.now (lengths text.old cues.old regions.old styles.old out.old)) }
    ensures text { text.new ≡ converted_room raw.now text.old }
    ensures cues { cues.new ≡ after_reading (reading_in raw.now (lengths text.old cues.old regions.old styles.old out.old)) (stored_cues (plain_text raw.now)) cues.old }
    ensures regions { regions.new ≡ after_reading (reading_in raw.now (lengths text.old cues.old regions.old styles.old out.old)) (region_rows (lists (plain_text raw.now)).regions) regions.old }
    ensures styles { styles.new ≡ after_reading (reading_in raw.now (lengths text.old cues.old regions.old styles.old out.old)) (style_rows (lists (plain_text raw.now)).styles) styles.old }
    ensures out { out.new ≡ rewritten_room raw.now (lengths text.old cues.old regions.old styles.old out.old) out.old }
    ensures values { values.new ≡ with_values 0 (returned (rewriting raw.now (lengths text.old cues.old regions.old styles.old out.old))) values.old }
{
    rewriting::rewrite(raw, text, cues, regions, styles, out).tell(values)
}

// The row of a new cue that is lent as words. Words of another count are taken for a row that fails test 1.
fn lent_row(row: &[u64]) -> NewCueRow
    ensures { result ≡ lent_words row.now }
{
    if row.len() != NEW_CUE_WORDS {
        return [u64::MAX; NEW_CUE_WORDS];
    }
    let mut lent = [0; NEW_CUE_WORDS];
    lent.copy_from_slice(row);
    lent
}

// The raw file with one cue replaced goes to `out`, the old file's plain text to `scratch`. The new cue is a row of 20 words over a text; another
// count of words fails test 1. Values: the new file's length; for 2 and 10 the length needed; for 7 the count; for 8 list, cue number, test.
#[unsafe(no_mangle)]
pub extern "C" fn spatz_replace(
    raw: &[u8],
    number: usize,
    row: &[u64],
    text: &[u8],
    scratch: &mut [u8],
    out: &mut [u8],
    values: &mut [u64; 8],
) -> u64
    ensures number { result ≡ refusal_number (replacing raw.now number text.now (lent_words row.now) (length scratch.old) (length out.old)) }
    ensures scratch { scratch.new ≡ converted_room raw.now scratch.old }
    ensures out { out.new ≡ replaced_room raw.now number text.now (lent_words row.now) (length scratch.old) out.old }
    ensures values { values.new ≡ with_values 0 (returned (replacing raw.now number text.now (lent_words row.now) (length scratch.old) (length out.old))) values.old }
    ensures replaced { (n : ℕ) → replacing raw.now number text.now (lent_words row.now) (length scratch.old) (length out.old) ≡ accepted (n ∷ []) → Replaced raw.now number text.now (lent_words row.now) (take n out.new) }
{
    let lent = lent_row(row);
    replace::replace_cue(raw, number, lent, text, scratch, out).tell(values)
}

// The row with this number; where there is none, one that says what no row says.
fn row_at(cues: &[CueRow], number: usize) -> CueRow
    ensures { cue_entry result ≡ entry_at cues.now number }
{
    cues.get(number).copied().unwrap_or([0; CUE_WORDS])
}

// What asking for a part answers, the part standing at this place.
fn tell_place(answer: Result<(), PartError>, place: Span, values: &mut [u64; 8]) -> u64
    ensures number { result ≡ refusal_number (part_answer_is answer) }
    ensures values { values.new ≡ with_values 0 (place_told (part_answer_is answer) place) values.old }
{
    match answer {
        Ok(()) => place.tell(values),
        Err(error) => error.tell(values),
    }
}

// Where the identifier of a cue stands. Values: from, to; for 7 the count; for 8 list, cue number, test.
#[unsafe(no_mangle)]
pub extern "C" fn spatz_identifier(
    text: &[u8],
    cues: &[CueRow],
    number: usize,
    values: &mut [u64; 8],
) -> u64
    ensures number { result ≡ refusal_number (asking text.now cues.now number) }
    ensures values { values.new ≡ with_values 0 (place_told (asking text.now cues.now number) (entry_at cues.now number).id) values.old }
{
    let place = rows::cues::id(row_at(cues, number));
    tell_place(parts::ask(text, cues, number), place, values)
}

// Where the text of a cue stands. Values as for the identifier.
#[unsafe(no_mangle)]
pub extern "C" fn spatz_text(
    text: &[u8],
    cues: &[CueRow],
    number: usize,
    values: &mut [u64; 8],
) -> u64
    ensures number { result ≡ refusal_number (asking text.now cues.now number) }
    ensures values { values.new ≡ with_values 0 (place_told (asking text.now cues.now number) (entry_at cues.now number).text) values.old }
{
    let place = rows::cues::text(row_at(cues, number));
    tell_place(parts::ask(text, cues, number), place, values)
}
