// A request line read: `mend`, the cue's number, its start, end, identifier, settings and text, parted by tabs. Any line is taken. What is
// answered is what the definition of a request says of the line, and the room holds the new cue's parts, or is as it was where the line is no
// request.
#![tactic(auto)]

ghost use Rattle.std.specs.Prelude.{◌+◌, ◌<◌, ◌^◌, ◌≡◌, [], ◌++◌, length, option_map};
ghost use Rattle.std.specs.Option.{option_map_or};
ghost use Rattle.format.specs.Fields.{fields, field_number, unescaped};
ghost use Rattle.format.specs.Requests.{settings_field, request, request_of, lent_text};
ghost use Rattle.format.specs.Rows.{new_cue_words};
ghost use Rattle.std.proofs.Math.ListN as Lists;
ghost use Rattle.output.specs.Puts.{room_with};
ghost use Rattle.cue_settings.specs.Steps.{taken_is};
ghost use Rattle.fields.specs.Fields.{text_of};
ghost use Rattle.requests.specs.Asked.{field_of, numbers_in, lengths_in, rest_of, asking_is, asking_for, name_of};

use cue_settings::steps::CueTaken;
use fields::nth;
use format::rows::{CueEntry, NewCueRow};
use format::settings::{Settings, Span};
use output::Output;
use values::bytes::{part, same_bytes};

// What is asked for: the cue's number, the new cue, whose parts stand in a lent room, and the part there that is its region's name.
#[derive(Clone, Copy)]
pub struct Asking {
    pub number: usize,
    pub cue: CueEntry,
    pub region: Span,
}

#[derive(Clone, Copy)]
struct Numbers {
    number: u64,
    start: u64,
    end: u64,
}

fn number_in(line: &[u8], k: usize) -> Option<u64>
    ensures { result ≡ field_number (field_of line.now k) }
{
    fields::read_number(nth(line, k))
}

fn numbers_of(line: &[u8]) -> Option<Numbers>
    ensures { result ≡ numbers_in (fields line.now) }
{
    let number = number_in(line, 1)?;
    let start = number_in(line, 2)?;
    let end = number_in(line, 3)?;
    Some(Numbers { number, start, end })
}

// How long the identifier and the text are that the fields stand for.
#[derive(Clone, Copy)]
struct Lengths {
    id: usize,
    text: usize,
}

fn length_in(line: &[u8], k: usize) -> Option<usize>
    ensures { result ≡ option_map Lists.length (unescaped (field_of line.now k)) }
{
    fields::length(nth(line, k))
}

fn lengths_of(line: &[u8]) -> Option<Lengths>
    ensures { result ≡ lengths_in (fields line.now) }
{
    let id = length_in(line, 4)?;
    let text = length_in(line, 6)?;
    Some(Lengths { id, text })
}

fn settings_of(line: &[u8]) -> CueTaken
    ensures { result ≡ taken_is (settings_field (field_of line.now 5)) }
{
    let field = nth(line, 5);
    cue_settings::all_settings(field, 0, field.len())
}

// The name of the region that the settings ask for.
fn name_of<'a>(line: &'a [u8]) -> &'a [u8]
    ensures { result.now ≡ name_of (field_of line.now 5) }
{
    let taken = settings_of(line);
    let region = taken.region;
    part(nth(line, 5), region.from, region.to)
}

// Puts identifier, text and the region's name one after the other.
fn put_parts(line: &[u8], room: &mut [u8])
    ensures { room.new ≡ room_with 0 (text_of (unescaped (field_of line.now 4)) ++ text_of (unescaped (field_of line.now 6)) ++ name_of (field_of line.now 5)) room.old }
{
    let mut out = Output { room, at: 0 };
    fields::put(nth(line, 4), &mut out);
    fields::put(nth(line, 6), &mut out);
    out.bytes(name_of(line));
}

// The new cue over what was put, its name of so many bytes after the text. The region is asked for by its name, so the entry has none.
fn asking_of(numbers: Numbers, settings: Settings, lengths: Lengths, name: usize) -> Asking
    requires { lengths.id + lengths.text + name < 2 ^ 64 }
    ensures { result ≡ asking_is numbers settings lengths name }
{
    let id_end = lengths.id;
    let text_end = id_end + lengths.text;
    let id = Span {
        from: 0,
        to: id_end,
    };
    let text = Span {
        from: id_end,
        to: text_end,
    };
    let region = Span {
        from: text_end,
        to: text_end + name,
    };
    let cue = CueEntry {
        id,
        start: numbers.start,
        end: numbers.end,
        text,
        settings,
        region: None,
    };
    Asking {
        number: numbers.number as usize,
        cue,
        region,
    }
}

// What the fields after the numbers ask for.
fn read_rest(line: &[u8], numbers: Numbers, room: &mut [u8]) -> Option<Asking>
    ensures answer { result ≡ option_map asking_for (rest_of numbers (fields line.now)) }
    ensures room { room.new ≡ room_with 0 (option_map_or lent_text (rest_of numbers (fields line.now)) []) room.old }
{
    let lengths = lengths_of(line)?;
    let taken = settings_of(line);
    if taken.over {
        return None;
    }
    put_parts(line, room);
    let name = name_of(line);
    Some(asking_of(numbers, taken.settings, lengths, name.len()))
}

fn read_fields(line: &[u8], room: &mut [u8]) -> Option<Asking>
    ensures answer { result ≡ option_map asking_for (request_of (fields line.now)) }
    ensures room { room.new ≡ room_with 0 (option_map_or lent_text (request_of (fields line.now)) []) room.old }
{
    let numbers = numbers_of(line)?;
    read_rest(line, numbers, room)
}

// What a line asks for. The new cue's parts are put into the room.
pub fn read(line: &[u8], room: &mut [u8]) -> Option<Asking>
    ensures answer { result ≡ option_map asking_for (request line.now) }
    ensures room { room.new ≡ room_with 0 (option_map_or lent_text (request line.now) []) room.old }
{
    if fields::count(line) != 7 {
        return None;
    }
    if !same_bytes(nth(line, 0), b"mend") {
        return None;
    }
    read_fields(line, room)
}

// The new cue as it is lent for replacing.
pub fn row(asking: Asking) -> NewCueRow
    ensures { result ≡ new_cue_words asking.cue asking.region }
{
    rows::new_cue_row(asking.cue, asking.region)
}
