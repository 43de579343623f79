// Rows of the lent tables, coded here and decoded in `cues`, `regions` and `styles`: all other code knows them by these functions alone. Any row is
// taken.
#![tactic(auto)]

mod choices;
pub mod cues;
pub mod inner;
pub mod regions;
mod spans;
pub mod styles;
mod words;

ghost use Rattle.std.specs.Prelude.{◌≡◌};
ghost use Rattle.format.specs.Rows.{cue_words, new_cue_words, region_words, style_words, new_cue_entry, new_cue_name};

use format::regions::Region;
use format::rows::*;
use format::settings::Span;

// The row of a cue that has these lines.
pub fn cue_row(entry: CueEntry, lines: LineSpan) -> CueRow
    ensures { result ≡ cue_words entry lines }
{
    let settings = entry.settings;
    let line = settings.line.line;
    let position = settings.position.position;
    [
        entry.id.from as u64,
        entry.id.to as u64,
        entry.start,
        entry.end,
        entry.text.from as u64,
        entry.text.to as u64,
        u64::from(settings.vertical),
        words::line(line),
        words::line_number(line),
        words::snap(settings.line.snap),
        u64::from(settings.line.align),
        words::position(position),
        words::position_number(position),
        u64::from(settings.position.align),
        settings.size,
        u64::from(settings.align),
        words::region(entry.region),
        lines.first,
        lines.count,
    ]
}

// The row of a region.
pub fn region_row(region: Region) -> RegionRow
    ensures { result ≡ region_words region }
{
    let settings = region.settings;
    [
        region.id.from as u64,
        region.id.to as u64,
        settings.width,
        settings.lines,
        settings.anchor.x,
        settings.anchor.y,
        settings.viewport.x,
        settings.viewport.y,
        u64::from(settings.scroll),
    ]
}

// The row of a style text.
pub fn style_row(text: Span) -> StyleRow
    ensures { result ≡ style_words text }
{
    [text.from as u64, text.to as u64]
}

// The row of a new cue that is lent for a replacement, with the name of its region. Nobody looks at its last two words.
pub fn new_cue_row(entry: CueEntry, name: Span) -> NewCueRow
    ensures { result ≡ new_cue_words entry name }
{
    let row = cue_row(entry, LineSpan::NONE);
    let mut new = [0; NEW_CUE_WORDS];
    new[..CUE_REGION].copy_from_slice(&row[..CUE_REGION]);
    new[NEW_CUE_NAME_FROM] = name.from as u64;
    new[NEW_CUE_NAME_TO] = name.to as u64;
    new
}

pub fn new_cue_name(row: NewCueRow) -> Span
    ensures { result ≡ new_cue_name row }
{
    spans::span(row[NEW_CUE_NAME_FROM], row[NEW_CUE_NAME_TO])
}

pub fn new_cue_id(row: NewCueRow) -> Span
    ensures { result ≡ (new_cue_entry row).id }
{
    spans::span(row[CUE_ID_FROM], row[CUE_ID_TO])
}
