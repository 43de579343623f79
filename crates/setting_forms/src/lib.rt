// A cue's settings as they are written: each after a space, those at their opening value left out. Any row is taken.
#![tactic(auto)]

ghost use Rattle.std.specs.Prelude.{cond, [], ◌∷◌, option_copied};
ghost use Rattle.format.specs.Bytes.{hyphen};
ghost use Rattle.format.specs.Rows.{cue_entry};
ghost use Rattle.format.specs.Written.{after_spaces, written_vertical, written_line_align, written_line_number, written_line, written_position_align, written_position, written_size, written_align};
ghost use Rattle.output.specs.Puts.{Puts};
ghost use Rattle.setting_forms.specs.Settings.{named_region, settings_form};

use format::rows::CueRow;
use format::settings::{
    Align, Direction, Line, LineAlign, LinePlace, Position, PositionAlign, PositionPlace,
};
use output::Output;

fn vertical(direction: Direction, out: &mut Output)
    ensures { Puts (after_spaces (written_vertical direction)) out.old out.new }
{
    match direction {
        Direction::Horizontal => {}
        Direction::Rl => out.bytes(b" vertical:rl"),
        Direction::Lr => out.bytes(b" vertical:lr"),
    }
}

fn line_align(align: LineAlign, out: &mut Output)
    ensures { Puts (written_line_align align) out.old out.new }
{
    match align {
        LineAlign::Start => {}
        LineAlign::Center => out.bytes(b",center"),
        LineAlign::End => out.bytes(b",end"),
    }
}

fn sign(negative: bool, out: &mut Output)
    ensures { Puts (cond negative (hyphen ∷ []) []) out.old out.new }
{
    if negative {
        out.byte(b'-');
    }
}

// A percentage where the line does not snap to lines.
fn line_number(snap: bool, negative: bool, n: u64, out: &mut Output)
    ensures { Puts (written_line_number snap negative n) out.old out.new }
{
    if !snap {
        return out.percentage(n);
    }
    sign(negative, out);
    out.decimal(n);
}

fn line(place: LinePlace, out: &mut Output)
    ensures { Puts (after_spaces (written_line place)) out.old out.new }
{
    if let Line::At {
        negative,
        millionths,
    } = place.line
    {
        out.bytes(b" line:");
        line_number(place.snap, negative, millionths, out);
        line_align(place.align, out);
    }
}

fn position_align(align: PositionAlign, out: &mut Output)
    ensures { Puts (written_position_align align) out.old out.new }
{
    match align {
        PositionAlign::Auto => {}
        PositionAlign::LineLeft => out.bytes(b",line-left"),
        PositionAlign::Center => out.bytes(b",center"),
        PositionAlign::LineRight => out.bytes(b",line-right"),
    }
}

fn position(place: PositionPlace, out: &mut Output)
    ensures { Puts (after_spaces (written_position place)) out.old out.new }
{
    if let Position::At(n) = place.position {
        out.bytes(b" position:");
        out.percentage(n);
        position_align(place.align, out);
    }
}

fn size(millionths: u64, out: &mut Output)
    ensures { Puts (after_spaces (written_size millionths)) out.old out.new }
{
    if millionths != 100_000_000 {
        out.bytes(b" size:");
        out.percentage(millionths);
    }
}

fn align(a: Align, out: &mut Output)
    ensures { Puts (after_spaces (written_align a)) out.old out.new }
{
    match a {
        Align::Start => out.bytes(b" align:start"),
        Align::Center => {}
        Align::End => out.bytes(b" align:end"),
        Align::Left => out.bytes(b" align:left"),
        Align::Right => out.bytes(b" align:right"),
    }
}

fn region(name: Option<&[u8]>, out: &mut Output)
    ensures { Puts (after_spaces (named_region (option_copied name.entry))) out.old out.new }
{
    if let Some(name) = name {
        out.bytes(b" region:");
        out.bytes(name);
    }
}

// All settings of a cue's row, with the name of the region it asks for, if it asks for one.
pub fn settings(row: CueRow, name: Option<&[u8]>, out: &mut Output)
    ensures { Puts (after_spaces (settings_form (cue_entry row) (option_copied name.entry))) out.old out.new }
{
    vertical(rows::cues::vertical(row), out);
    line(rows::cues::line(row), out);
    position(rows::cues::position(row), out);
    size(rows::cues::size(row), out);
    align(rows::cues::align(row), out);
    region(name, out);
}
