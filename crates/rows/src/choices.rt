// The choices that a number goes with, by their words. A word that names none is not asked for. `format::codes` has the others.
ghost use Rattle.std.specs.Prelude.{◌≡◌};
ghost use Rattle.format.specs.Rows.{line_of, position_of, region_index_of};

use format::settings::{Line, Position};

// Minus zero is 0.
pub(crate) fn line(n: u64, number: u64) -> Line
    ensures { result ≡ line_of n number }
{
    if n == 0 {
        return Line::Auto;
    }
    Line::At {
        negative: n == 2 && 0 < number,
        millionths: number,
    }
}

pub(crate) fn position(n: u64, number: u64) -> Position
    ensures { result ≡ position_of n number }
{
    if n == 0 {
        return Position::Auto;
    }
    Position::At(number)
}

pub(crate) fn region(n: u64) -> Option<u64>
    ensures { result ≡ region_index_of n }
{
    n.checked_sub(1)
}
