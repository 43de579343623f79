// Writing lists to a file: what is writable is tested, the file is measured, and then it is written. Any rows are taken, over any text, and
// nothing is asked of the caller.
#![tactic(auto)]

mod checking;

ghost use Rattle.std.specs.Prelude.{◌≡◌, List, map, ℕ, length, take, Ok};
ghost use Rattle.format.specs.Lines.{join};
ghost use Rattle.format.specs.Contents.{cue_of_row, region_of_entry, region_of_row, style_of_row, contents_of_rows};
ghost use Rattle.format.specs.Rows.{region_entry};
ghost use Rattle.format.specs.Written.{style_lines, region_lines, cue_lines};
ghost use Rattle.format.specs.Writing.{writing_is, file_of, writing, written_room, ReadBack};
ghost use Rattle.output.specs.Puts.{Puts, EachPuts};
ghost use Rattle.writer.specs.Blocks.{blocks};

use format::WriteError;
use format::rows::{CueRow, RegionRow, StyleRow};
use output::Output;

// The file that rows over a text give, at the start of the output room.
pub fn write(
    text: &[u8],
    styles: &[StyleRow],
    regions: &[RegionRow],
    cues: &[CueRow],
    out: &mut [u8],
) -> Result<usize, WriteError>
    ensures answer { writing_is result ≡ writing text.now styles.now regions.now cues.now (length out.old) }
    ensures out { out.new ≡ written_room text.now styles.now regions.now cues.now out.old }
    ensures back { (n : ℕ) → result ≡ Ok n → ReadBack (contents_of_rows text.now styles.now regions.now cues.now) (take n out.new) }
{
    checking::check(text, styles, regions, cues)?;
    let put = |out: &mut Output|
        ensures { Puts (file_of text.entry.now styles.entry.now regions.entry.now cues.entry.now) out.old out.new }
    {
        put_file(text, styles, regions, cues, out);
    };
    Ok(output::inner::make_file(put, out)?)
}

fn put_file(
    text: &[u8],
    styles: &[StyleRow],
    regions: &[RegionRow],
    cues: &[CueRow],
    out: &mut Output,
)
    ensures { Puts (file_of text.now styles.now regions.now cues.now) out.old out.new }
{
    out.bytes(b"WEBVTT\n");
    let style = |row: StyleRow, out: &mut Output|
        ensures { Puts (join (style_lines (style_of_row text.entry.now row))) out.old out.new }
    {
        forms::style(text, row, out);
    };
    put_blocks(styles, style, out);
    let region = |row: RegionRow, out: &mut Output|
        ensures { Puts (join (region_lines (region_of_row text.entry.now row))) out.old out.new }
    {
        forms::region(text, rows::regions::entry(row), out);
    };
    put_blocks(regions, region, out);
    let cue = |row: CueRow, out: &mut Output|
        ensures { Puts (join (cue_lines (map (region_of_row text.entry.now) regions.entry.now) (cue_of_row text.entry.now row))) out.old out.new }
    {
        forms::cue(text, regions, row, out);
    };
    put_blocks(cues, cue, out);
}

// The blocks of a list, each after an empty line and with its last line ended, where `put` puts what a row says.
fn put_blocks<R: Copy, F: Fn(R, &mut Output)>(rows: &[R], put: F, out: &mut Output)
    requires { F.IsAlwaysCallable put }
    ensures { (form : R → List ℕ) → ((row : R) → EachPuts (F.post put row) (form row)) → Puts (blocks (map form rows.now)) out.old out.new }
{
    for &row in rows {
        out.byte(b'\n');
        put(row, out);
        out.byte(b'\n');
    }
}
