// The choices that a number goes with, and the two that are no enum, as words. `format::codes` has the others.
ghost use Rattle.std.specs.Prelude.{◌≡◌, ◌<◌};
ghost use Rattle.format.specs.Rows.{line_word, line_number_word, snap_word, position_word, position_number_word, region_word};

use format::settings::{Line, Position};

pub(crate) fn line(l: Line) -> u64
    ensures { result ≡ line_word l }
{
    match l {
        Line::Auto => 0,
        Line::At {
            negative: false,
            ..
        } => 1,
        Line::At { negative: true, .. } => 2,
    }
}

pub(crate) fn line_number(l: Line) -> u64
    ensures { result ≡ line_number_word l }
{
    match l {
        Line::Auto => 0,
        Line::At { millionths, .. } => millionths,
    }
}

pub(crate) fn snap(snaps: bool) -> u64
    ensures { result ≡ snap_word snaps }
{
    if snaps { 0 } else { 1 }
}

pub(crate) fn position(p: Position) -> u64
    ensures { result ≡ position_word p }
{
    match p {
        Position::Auto => 0,
        Position::At(_) => 1,
    }
}

pub(crate) fn position_number(p: Position) -> u64
    ensures { result ≡ position_number_word p }
{
    match p {
        Position::Auto => 0,
        Position::At(n) => n,
    }
}

// The greatest index has no word of its own, and no list of regions has that index.
pub(crate) fn region(index: Option<u64>) -> u64
    ensures { result ≡ region_word index }
{
    match index {
        None => 0,
        Some(i) => i.saturating_add(1),
    }
}
