// The words of a cue's settings: which setting a name means, and which choice a value. Any bytes are taken.
#![tactic(auto)]

ghost use Rattle.std.specs.Prelude.{◌≡◌, MatchOption, true, false};
ghost use Rattle.format.specs.Bytes.{comma};
ghost use Rattle.format.specs.Texts.{has, after_first};
ghost use Rattle.format.specs.CueSettings.{direction, alignment, line_align, position_align};
ghost use Rattle.setting_words.specs.Words.{cue_name_is, line_word, position_word};

use format::settings::{Align, Direction, LineAlign, PositionAlign};
use values::bytes::{ByteKind, past};

// A setting by its name.
#[derive(Clone, Copy)]
pub enum CueName {
    Region,
    Vertical,
    Line,
    Position,
    Size,
    Align,
    Other,
}

// The setting that has this name.
#[tactic(auto, using(laws::proofs::NotNames::not_named, crate::proofs::WordLaws::name_other), unfolding(format::specs::Texts::same))]
pub fn cue_name(name: &[u8]) -> CueName
    ensures { result ≡ cue_name_is name.now }
{
    match name {
        b"region" => CueName::Region,
        b"vertical" => CueName::Vertical,
        b"line" => CueName::Line,
        b"position" => CueName::Position,
        b"size" => CueName::Size,
        b"align" => CueName::Align,
        _ => CueName::Other,
    }
}

#[tactic(auto, using(laws::proofs::NotNames::not_named, crate::proofs::WordLaws::direction_none), unfolding(format::specs::CueSettings::direction, format::specs::Texts::same))]
pub fn direction_of(value: &[u8], current: Direction) -> Direction
    ensures { result ≡ direction value.now current }
{
    match value {
        b"rl" => Direction::Rl,
        b"lr" => Direction::Lr,
        _ => current,
    }
}

#[tactic(auto, using(laws::proofs::NotNames::not_named, crate::proofs::WordLaws::alignment_none), unfolding(format::specs::CueSettings::alignment, format::specs::Texts::same))]
pub fn align_of(value: &[u8], current: Align) -> Align
    ensures { result ≡ alignment value.now current }
{
    match value {
        b"start" => Align::Start,
        b"center" => Align::Center,
        b"end" => Align::End,
        b"left" => Align::Left,
        b"right" => Align::Right,
        _ => current,
    }
}

// What stands after a value's first comma, if it has one.
fn after_comma(value: &[u8]) -> Option<&[u8]>
    ensures { MatchOption result (has comma value.now ≡ false) (λ name. (has comma value.now ≡ true) × (name.now ≡ after_first comma value.now)) }
{
    let comma = past(value, 0, ByteKind::Until(b','));
    if comma == value.len() {
        return None;
    }
    Some(&value[comma + 1..])
}

#[tactic(auto, using(laws::proofs::NotNames::not_named, crate::proofs::WordLaws::line_none), unfolding(format::specs::Texts::same))]
fn line_word(name: &[u8]) -> Option<LineAlign>
    ensures { result ≡ line_word name.now }
{
    match name {
        b"start" => Some(LineAlign::Start),
        b"center" => Some(LineAlign::Center),
        b"end" => Some(LineAlign::End),
        _ => None,
    }
}

pub fn line_align(value: &[u8], current: LineAlign) -> Option<LineAlign>
    ensures { result ≡ line_align value.now current }
{
    match after_comma(value) {
        Some(name) => line_word(name),
        None => Some(current),
    }
}

#[tactic(auto, using(laws::proofs::NotNames::not_named, crate::proofs::WordLaws::position_none), unfolding(format::specs::Texts::same))]
fn position_word(name: &[u8]) -> Option<PositionAlign>
    ensures { result ≡ position_word name.now }
{
    match name {
        b"line-left" => Some(PositionAlign::LineLeft),
        b"center" => Some(PositionAlign::Center),
        b"line-right" => Some(PositionAlign::LineRight),
        _ => None,
    }
}

pub fn position_align(value: &[u8], current: PositionAlign) -> Option<PositionAlign>
    ensures { result ≡ position_align value.now current }
{
    match after_comma(value) {
        Some(name) => position_word(name),
        None => Some(current),
    }
}
