// The choices of a cue's and a region's settings as words of a row: the word of each choice, and the choice that a word names.
use super::regions::Scroll;
use super::settings::{Align, Direction, LineAlign, PositionAlign};

// A word that names no choice.
#[derive(Clone, Copy, PartialEq, Eq, Debug)]
pub struct Unnamed;

impl From<Direction> for u64 {
    ghost use Rattle.std.specs.Prelude.{◌≡◌};
    ghost use Rattle.format.specs.Rows.{direction_word};

    ghost from_gives = { λ choice word. word ≡ direction_word choice };

    fn from(direction: Direction) -> u64 {
        match direction {
            Direction::Horizontal => 0,
            Direction::Rl => 1,
            Direction::Lr => 2,
        }
    }
}

impl TryFrom<u64> for Direction {
    type Error = Unnamed;

    ghost use Rattle.std.specs.Prelude.{◌≡◌};
    ghost use Rattle.format.specs.Rows.{named, direction_of};

    ghost try_from_gives = { λ word choice. choice ≡ named 3 direction_of word };

    fn try_from(word: u64) -> Result<Direction, Unnamed> {
        match word {
            0 => Ok(Direction::Horizontal),
            1 => Ok(Direction::Rl),
            2 => Ok(Direction::Lr),
            _ => Err(Unnamed),
        }
    }
}

impl From<LineAlign> for u64 {
    ghost use Rattle.std.specs.Prelude.{◌≡◌};
    ghost use Rattle.format.specs.Rows.{line_align_word};

    ghost from_gives = { λ choice word. word ≡ line_align_word choice };

    fn from(align: LineAlign) -> u64 {
        match align {
            LineAlign::Start => 0,
            LineAlign::Center => 1,
            LineAlign::End => 2,
        }
    }
}

impl TryFrom<u64> for LineAlign {
    type Error = Unnamed;

    ghost use Rattle.std.specs.Prelude.{◌≡◌};
    ghost use Rattle.format.specs.Rows.{named, line_align_of};

    ghost try_from_gives = { λ word choice. choice ≡ named 3 line_align_of word };

    fn try_from(word: u64) -> Result<LineAlign, Unnamed> {
        match word {
            0 => Ok(LineAlign::Start),
            1 => Ok(LineAlign::Center),
            2 => Ok(LineAlign::End),
            _ => Err(Unnamed),
        }
    }
}

impl From<PositionAlign> for u64 {
    ghost use Rattle.std.specs.Prelude.{◌≡◌};
    ghost use Rattle.format.specs.Rows.{position_align_word};

    ghost from_gives = { λ choice word. word ≡ position_align_word choice };

    fn from(align: PositionAlign) -> u64 {
        match align {
            PositionAlign::Auto => 0,
            PositionAlign::LineLeft => 1,
            PositionAlign::Center => 2,
            PositionAlign::LineRight => 3,
        }
    }
}

impl TryFrom<u64> for PositionAlign {
    type Error = Unnamed;

    ghost use Rattle.std.specs.Prelude.{◌≡◌};
    ghost use Rattle.format.specs.Rows.{named, position_align_of};

    ghost try_from_gives = { λ word choice. choice ≡ named 4 position_align_of word };

    fn try_from(word: u64) -> Result<PositionAlign, Unnamed> {
        match word {
            0 => Ok(PositionAlign::Auto),
            1 => Ok(PositionAlign::LineLeft),
            2 => Ok(PositionAlign::Center),
            3 => Ok(PositionAlign::LineRight),
            _ => Err(Unnamed),
        }
    }
}

impl From<Align> for u64 {
    ghost use Rattle.std.specs.Prelude.{◌≡◌};
    ghost use Rattle.format.specs.Rows.{align_word};

    ghost from_gives = { λ choice word. word ≡ align_word choice };

    fn from(align: Align) -> u64 {
        match align {
            Align::Start => 0,
            Align::Center => 1,
            Align::End => 2,
            Align::Left => 3,
            Align::Right => 4,
        }
    }
}

impl TryFrom<u64> for Align {
    type Error = Unnamed;

    ghost use Rattle.std.specs.Prelude.{◌≡◌};
    ghost use Rattle.format.specs.Rows.{named, align_of};

    ghost try_from_gives = { λ word choice. choice ≡ named 5 align_of word };

    fn try_from(word: u64) -> Result<Align, Unnamed> {
        match word {
            0 => Ok(Align::Start),
            1 => Ok(Align::Center),
            2 => Ok(Align::End),
            3 => Ok(Align::Left),
            4 => Ok(Align::Right),
            _ => Err(Unnamed),
        }
    }
}

impl From<Scroll> for u64 {
    ghost use Rattle.std.specs.Prelude.{◌≡◌};
    ghost use Rattle.format.specs.Rows.{scroll_word};

    ghost from_gives = { λ choice word. word ≡ scroll_word choice };

    fn from(scroll: Scroll) -> u64 {
        match scroll {
            Scroll::None => 0,
            Scroll::Up => 1,
        }
    }
}

impl TryFrom<u64> for Scroll {
    type Error = Unnamed;

    ghost use Rattle.std.specs.Prelude.{◌≡◌};
    ghost use Rattle.format.specs.Rows.{named, scroll_of};

    ghost try_from_gives = { λ word choice. choice ≡ named 2 scroll_of word };

    fn try_from(word: u64) -> Result<Scroll, Unnamed> {
        match word {
            0 => Ok(Scroll::None),
            1 => Ok(Scroll::Up),
            _ => Err(Unnamed),
        }
    }
}
