// Replacing one cue of a raw file: the cue's own bytes are changed and nothing else. Any bytes and any numbers are taken, and nothing is
// asked of the caller.
#![tactic(auto)]

ghost use Rattle.std.specs.Prelude.{ℕ, ◌-◌, ◌≤◌, ◌<◌, ◌≡◌, false, not, ◌&&◌, [], length, get_or, take};
ghost use Rattle.std.specs.Prelude.{None, Ok};
ghost use Rattle.std.specs.Option.{option_copied};
ghost use Rattle.format.specs.Texts.{is_empty};
ghost use Rattle.format.specs.Lines.{split};
ghost use Rattle.format.specs.Plain.{plain_text};
ghost use Rattle.format.specs.Converting.{converted_room};
ghost use Rattle.format.specs.Replacing.{new_cue_fails, region_names, new_file, replacing_is, replacing_text, replacing, replaced_room, Replaced};
ghost use Rattle.output.specs.Puts.{Puts, Made};
ghost use Rattle.blocks.specs.Collecting.{line_ends};
ghost use Rattle.places.specs.Places.{OwnLines};
ghost use Rattle.replace.specs.NewCue.{asked, in_place, Outcome};

use format::rows::NewCueRow;
use format::settings::Span;
use format::{ListKind, NotWritable, OutError, ReplaceError};
use output::Output;
use places::inner::{finding, testing};
use places::lines;
use values::bytes::part;

// The name of the region that a cue asks for; none where it is empty.
fn region_asked<'a>(name: &'a [u8]) -> Option<&'a [u8]>
    ensures { option_copied result ≡ asked name.now }
{
    if name.len() == 0 {
        return None;
    }
    Some(name)
}

// The file with the new cue's written form in place of the bytes from one place up to another.
fn put_file(raw: &[u8], start: usize, end: usize, text: &[u8], row: NewCueRow, out: &mut Output)
    ensures { Puts (in_place raw.now start end text.now row) out.old out.new }
{
    let place = rows::new_cue_name(row);
    let name = part(text, place.from, place.to);
    out.bytes(part(raw, 0, start));
    forms::cue_named(text, rows::inner::cue_of_new(row), region_asked(name), out);
    out.bytes(part(raw, end, raw.len()));
}

// The checks 1 (output) and 10, and the new file, in a file whose plain text has the cue's lines in this part.
fn make_file(
    raw: &[u8],
    s: &[u8],
    own: Span,
    text: &[u8],
    row: NewCueRow,
    out: &mut [u8],
) -> Result<usize, OutError>
    requires { (s.now ≡ plain_text raw.now) × (new_cue_fails text.now row (region_names s.now) ≡ None) }
    ensures { (number : ℕ) → OwnLines s.now number own.from own.to → Made (new_file raw.now number text.now row) out.old result out.new }
{
    let first = blocks::line_ends(part(s, 0, own.from));
    let more = blocks::line_ends(part(s, own.from, own.to));
    let start = lines::raw_start(raw, 0, first);
    let end = lines::raw_end(raw, start, more);
    let put = |out: &mut Output|
        ensures { Puts (in_place raw.entry.now start end text.entry.now row) out.old out.new }
    {
        put_file(raw, start, end, text, row, out);
    };
    output::inner::make_file(put, out)
}

// Is the line of a plain text before the one that has this place empty. Its end is sought back from the place: a cue's lines begin right
// after it, so that two bytes decide.
fn gap_before(s: &[u8], place: usize) -> bool
    requires { (place ≤ length s.now) × (0 < line_ends (take place s.now)) }
    ensures { result ≡ is_empty (get_or (split s.now) (line_ends (take place s.now) - 1) []) }
{
    let mut i = place - 1;
    while s[i] != b'\n' {
        i -= 1;
    }
    i == 0 || s[i - 1] == b'\n'
}

// Does an identifier lack the empty line that it needs before the line that has this place.
fn lacks_gap(s: &[u8], place: usize, id: &[u8]) -> bool
    requires { (place ≤ length s.now) × (0 < line_ends (take place s.now)) }
    ensures { result ≡ not (is_empty id.now) && not (is_empty (get_or (split s.now) (line_ends (take place s.now) - 1) [])) }
{
    if id.len() == 0 {
        return false;
    }
    !gap_before(s, place)
}

// The checks after converting, in the file's plain text.
fn replace_in(
    raw: &[u8],
    s: &[u8],
    number: usize,
    text: &[u8],
    row: NewCueRow,
    out: &mut [u8],
) -> Result<usize, ReplaceError>
    requires { s.now ≡ plain_text raw.now }
    ensures { Outcome (new_file raw.now number text.now row) out.old (replacing_text raw.now number text.now row (length out.old)) result out.new }
{
    let place = rows::new_cue_name(row);
    let found = finding::survey(s, number, part(text, place.from, place.to))?;
    let Some(own) = found.own else {
        return Err(ReplaceError::NoSuchCue(found.cues));
    };
    if let Some(test) = testing::new_cue_test(text, row, found.named) {
        return Err(ReplaceError::NotWritable(NotWritable {
            list: ListKind::Cues,
            index: number,
            test,
        }));
    }
    let place = rows::new_cue_id(row);
    if lacks_gap(s, own.from, part(text, place.from, place.to)) {
        return Err(ReplaceError::NoGap);
    }
    Ok(make_file(raw, s, own, text, row, out)?)
}

// Replaces the cue with this number by the new cue, a row over a text lent with it. The new file stands at the start of the output room;
// the scratch room holds the old file's plain text.
pub fn replace_cue(
    raw: &[u8],
    number: usize,
    row: NewCueRow,
    text: &[u8],
    scratch: &mut [u8],
    out: &mut [u8],
) -> Result<usize, ReplaceError>
    ensures answer { replacing_is result ≡ replacing raw.now number text.now row (length scratch.old) (length out.old) }
    ensures scratch { scratch.new ≡ converted_room raw.now scratch.old }
    ensures out { out.new ≡ replaced_room raw.now number text.now row (length scratch.old) out.old }
    ensures replaced { (n : ℕ) → result ≡ Ok n → Replaced raw.now number text.now row (take n out.new) }
{
    let n = plain::convert(raw, scratch)?;
    replace_in(raw, &scratch[..n], number, text, row, out)
}
