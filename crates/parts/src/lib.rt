// A cue's identifier and its text, handed back as parts of the text itself. Any text, any rows and any number are taken.
#![tactic(auto)]

ghost use Rattle.std.specs.Prelude.{◌≡◌, true, not, ltb, length};
ghost use Rattle.format.specs.Writable.{part_plain, cue_test1};
ghost use Rattle.format.specs.Plain.{first_not_plain};
ghost use Rattle.parts.specs.Parts.{place_of, handed_back};
ghost use Rattle.format.specs.Parts.{part_answer_is, asking, identifier_of, text_of};

use format::PartError;
use format::rows::CueRow;
use format::settings::Span;

fn is_plain(part: &[u8]) -> bool
    ensures { result ≡ not (ltb (first_not_plain part.now) (length part.now)) }
{
    plain::first_not_plain(part).is_none()
}

// Is the part from one place up to another inside the text, and plain.
pub fn part_plain(text: &[u8], from: usize, to: usize) -> bool
    ensures { result ≡ part_plain text.now from to }
{
    if to < from {
        return false;
    }
    if text.len() < to {
        return false;
    }
    is_plain(&text[from..to])
}

// A cue's test 1, of its row.
pub fn test_1(text: &[u8], row: CueRow) -> bool
    ensures { result ≡ cue_test1 text.now row }
{
    let id = rows::cues::id(row);
    if !part_plain(text, id.from, id.to) {
        return false;
    }
    let part = rows::cues::text(row);
    if !part_plain(text, part.from, part.to) {
        return false;
    }
    rows::cues::are_named(row)
}

// What asking for a part of the cue with this number answers.
pub fn ask(text: &[u8], cues: &[CueRow], number: usize) -> Result<(), PartError>
    ensures { part_answer_is result ≡ asking text.now cues.now number }
{
    if cues.len() <= number {
        return Err(PartError::NoSuchCue(cues.len()));
    }
    if !test_1(text, cues[number]) {
        return Err(PartError::NotWritable(number));
    }
    Ok(())
}

// Which part of a cue is asked for.
#[derive(Clone, Copy)]
enum Part {
    Identifier,
    Text,
}

// Where that part of a cue stands.
fn place_of(row: CueRow, wanted: Part) -> Span
    ensures { result ≡ place_of row wanted }
{
    match wanted {
        Part::Identifier => rows::cues::id(row),
        Part::Text => rows::cues::text(row),
    }
}

// The text or the identifier of the cue with this number; empty where the call is refused.
fn hand_back<'a>(text: &'a [u8], cues: &[CueRow], number: usize, wanted: Part) -> &'a [u8]
    ensures { result.now ≡ handed_back text.now cues.now number wanted }
{
    if cues.len() <= number {
        return &text[..0];
    }
    let row = cues[number];
    if !test_1(text, row) {
        return &text[..0];
    }
    let place = place_of(row, wanted);
    let from = place.from;
    let to = place.to;
    &text[from..to]
}

// The identifier of the cue with this number; empty where the call is refused.
pub fn identifier_of<'a>(text: &'a [u8], cues: &[CueRow], number: usize) -> &'a [u8]
    ensures { result.now ≡ identifier_of text.now cues.now number }
{
    hand_back(text, cues, number, Part::Identifier)
}

// The text of the cue with this number; empty where the call is refused.
pub fn text_of<'a>(text: &'a [u8], cues: &[CueRow], number: usize) -> &'a [u8]
    ensures { result.now ≡ text_of text.now cues.now number }
{
    hand_back(text, cues, number, Part::Text)
}
