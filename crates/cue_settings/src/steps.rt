// A cue's settings: one token at a time, each as what it changes.
ghost use Rattle.std.specs.Prelude.{◌≡◌, ◌≤◌, length, drop};
ghost use Rattle.std.specs.Option.{option_map_or};
ghost use Rattle.format.specs.CueSettings.{line_at_percentage, line_counted, line_change, position_change, named, cue_settings, span_is};
ghost use Rattle.format.specs.Bytes.{percent};
ghost use Rattle.format.specs.Texts.{ends_with};
ghost use Rattle.format.specs.Numbers.{percentage, line_number};
ghost use Rattle.format.specs.declared.settings.Change.TheVariants as Cases;
ghost use Rattle.cue_settings.specs.Steps.{step_with, taken_is};

use format::settings::{
    Change, Line, LineAlign, LinePlace, Position, PositionAlign, PositionPlace, Settings, Span,
};
use setting_words::{align_of, direction_of, line_align, position_align};
use values::bytes::{ByteKind, past};
use values::inner::tokens::{name_end, next_token};
use values::numbers::{NumberError, read_line_number, read_percentage};

fn ends_with_percent(s: &[u8]) -> bool
    ensures { result ≡ ends_with percent s.now }
{
    matches!(s, [.., b'%'])
}

fn line_percentage(place: &[u8], align: LineAlign) -> Change
    ensures { result ≡ option_map_or (line_at_percentage align) (percentage place.now) Cases.Nothing }
{
    match read_percentage(place) {
        Some(millionths) => Change::Line(LinePlace {
            line: Line::At {
                negative: false,
                millionths,
            },
            snap: false,
            align,
        }),
        None => Change::Nothing,
    }
}

fn line_number(place: &[u8], align: LineAlign) -> Change
    ensures { result ≡ line_counted (line_number place.now) align }
{
    match read_line_number(place) {
        Ok(n) => Change::Line(LinePlace {
            line: Line::At {
                negative: n.negative,
                millionths: n.millionths,
            },
            snap: true,
            align,
        }),
        Err(NumberError::Bad) => Change::Nothing,
        Err(NumberError::Over) => Change::Over,
    }
}

pub(crate) fn line_change(value: &[u8], current: LineAlign) -> Change
    ensures { result ≡ line_change value.now current }
{
    let comma = past(value, 0, ByteKind::Until(b','));
    let place = &value[..comma];
    let Some(align) = line_align(value, current) else {
        return Change::Nothing;
    };
    if ends_with_percent(place) {
        return line_percentage(place, align);
    }
    line_number(place, align)
}

fn position_change(value: &[u8], current: PositionAlign) -> Change
    ensures { result ≡ position_change value.now current }
{
    let comma = past(value, 0, ByteKind::Until(b','));
    let Some(millionths) = read_percentage(&value[..comma]) else {
        return Change::Nothing;
    };
    let Some(align) = position_align(value, current) else {
        return Change::Nothing;
    };
    Change::Position(PositionPlace {
        position: Position::At(millionths),
        align,
    })
}

// What the setting of this name changes, by its value.
#[tactic(auto, using(laws::proofs::NotNames::not_named, crate::proofs::SettingLaws::named_none), unfolding(format::specs::CueSettings::named, format::specs::Texts::same))]
fn named_change(name: &[u8], value: &[u8], settings: Settings) -> Change
    ensures { result ≡ named name.now value.now settings }
{
    match name {
        b"region" => Change::Region,
        b"vertical" => Change::Vertical(direction_of(value, settings.vertical)),
        b"line" => line_change(value, settings.line.align),
        b"position" => position_change(value, settings.position.align),
        b"size" => read_percentage(value).map_or(Change::Nothing, Change::Size),
        b"align" => Change::Align(align_of(value, settings.align)),
        _ => Change::Nothing,
    }
}

// Settings, and whether a number was above its limit.
#[derive(Clone, Copy)]
pub struct CueTaken {
    pub settings: Settings,
    // The name of the region that was asked for; empty where there is none.
    pub region: Span,
    pub over: bool,
}

// The settings that stand from `from` on.
pub(crate) fn read_settings(s: &[u8], from: usize) -> CueTaken
    requires { from ≤ length s.now }
    ensures { result ≡ taken_is (cue_settings (record { place = from; bytes = drop from s.now })) }
{
    let mut i = from;
    let mut taken = CueTaken {
        settings: Settings::opening(),
        region: Span::NONE,
        over: false,
    };
    while let Some(Span { from: at, to }) = next_token(s, i) {
        i = to;
        // A token without a name or a value changes nothing, and the settings are not copied for it.
        let token = &s[..to];
        let Some(colon) = name_end(token, at) else {
            continue;
        };
        taken = named_step(&token[at..colon], token, colon + 1, taken);
    }
    taken
}

// The setting of this name, whose value stands from `from` up to the end of `s`, taken into account.
fn named_step(name: &[u8], s: &[u8], from: usize, taken: CueTaken) -> CueTaken
    requires { from ≤ length s.now }
    ensures { result ≡ step_with (named name.now (drop from s.now) taken.settings) (span_is (record { place = from; bytes = drop from s.now })) taken }
{
    let change = named_change(name, &s[from..], taken.settings);
    CueTaken {
        settings: taken.settings.changed(change),
        region: change.name_after(values::tokens::span(from, s.len()), taken.region),
        over: taken.over || change.is_over(),
    }
}
