// What a cue's row says, one function for each field of its entry; one for the whole row takes long to prove.
ghost use Rattle.std.specs.Prelude.{◌≡◌};
ghost use Rattle.format.specs.Rows.{cue_entry, cue_span, cue_codes_named};

use super::{choices, spans};
use format::rows::*;
use format::settings::{
    Align, Direction, LineAlign, LinePlace, PositionAlign, PositionPlace, Span,
};

pub fn id(row: CueRow) -> Span
    ensures { result ≡ (cue_entry row).id }
{
    spans::span(row[CUE_ID_FROM], row[CUE_ID_TO])
}

// In milliseconds.
pub fn start(row: CueRow) -> u64
    ensures { result ≡ (cue_entry row).start }
{
    row[CUE_START]
}

pub fn end(row: CueRow) -> u64
    ensures { result ≡ (cue_entry row).end }
{
    row[CUE_END]
}

pub fn text(row: CueRow) -> Span
    ensures { result ≡ (cue_entry row).text }
{
    spans::span(row[CUE_TEXT_FROM], row[CUE_TEXT_TO])
}

pub fn vertical(row: CueRow) -> Direction
    ensures { result ≡ (cue_entry row).settings.vertical }
{
    Direction::try_from(row[CUE_VERTICAL]).unwrap_or(Direction::Lr)
}

pub fn line(row: CueRow) -> LinePlace
    ensures { result ≡ (cue_entry row).settings.line }
{
    LinePlace {
        line: choices::line(row[CUE_LINE], row[CUE_LINE_NUMBER]),
        snap: row[CUE_SNAP] == 0,
        align: LineAlign::try_from(row[CUE_LINE_ALIGN]).unwrap_or(LineAlign::End),
    }
}

pub fn position(row: CueRow) -> PositionPlace
    ensures { result ≡ (cue_entry row).settings.position }
{
    PositionPlace {
        position: choices::position(row[CUE_POSITION], row[CUE_POSITION_NUMBER]),
        align: PositionAlign::try_from(row[CUE_POSITION_ALIGN]).unwrap_or(PositionAlign::LineRight),
    }
}

// A percentage, in millionths.
pub fn size(row: CueRow) -> u64
    ensures { result ≡ (cue_entry row).settings.size }
{
    row[CUE_SIZE]
}

pub fn align(row: CueRow) -> Align
    ensures { result ≡ (cue_entry row).settings.align }
{
    Align::try_from(row[CUE_ALIGN]).unwrap_or(Align::Right)
}

pub fn region(row: CueRow) -> Option<u64>
    ensures { result ≡ (cue_entry row).region }
{
    choices::region(row[CUE_REGION])
}

// The cue's lines in its file.
pub fn lines(row: CueRow) -> LineSpan
    ensures { result ≡ cue_span row }
{
    LineSpan {
        first: row[CUE_FIRST_LINE],
        count: row[CUE_LINES],
    }
}

// Does each code of the row name a choice.
#[tactic(auto, unfolding(format::specs::Rows::cue_codes_named))]
pub fn are_named(row: CueRow) -> bool
    ensures { result ≡ cue_codes_named row }
{
    Direction::try_from(row[CUE_VERTICAL]).is_ok()
        && row[CUE_LINE] < 3
        && row[CUE_SNAP] < 2
        && LineAlign::try_from(row[CUE_LINE_ALIGN]).is_ok()
        && row[CUE_POSITION] < 2
        && PositionAlign::try_from(row[CUE_POSITION_ALIGN]).is_ok()
        && Align::try_from(row[CUE_ALIGN]).is_ok()
}
