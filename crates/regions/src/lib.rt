// A region's settings, read from a block's text: one token at a time, each as what it changes. Any bytes are taken.
#![tactic(auto)]

ghost use Rattle.std.specs.Prelude.{◌≡◌, ◌≤◌, length};
ghost use Rattle.format.specs.Numbers.{line_count};
ghost use Rattle.format.specs.RegionSettings.{lines_change, point, region_named, region_settings};
ghost use Rattle.values.specs.Tokens.{Named, token_from, part_of};
ghost use Rattle.regions.specs.Changes.{step_is, taken_is};

use format::regions::{Point, Region, RegionChange, RegionSettings};
use format::settings::Span;
use values::bytes::{ByteKind, past, same_bytes};
use values::inner::tokens::{name_end, next_token};
use values::numbers::{NumberError, read_line_count, read_percentage};
use values::tokens::span;

// Two percentages, parted by the first comma.
fn read_point(value: &[u8]) -> Option<Point>
    ensures { result ≡ point value.now }
{
    let comma = past(value, 0, ByteKind::Until(b','));
    if comma == value.len() {
        return None;
    }
    let x = read_percentage(&value[..comma])?;
    let y = read_percentage(&value[comma + 1..])?;
    Some(Point { x, y })
}

fn lines_change(value: &[u8]) -> RegionChange
    ensures { result ≡ lines_change (line_count value.now) }
{
    match read_line_count(value) {
        Ok(n) => RegionChange::Lines(n),
        Err(NumberError::Bad) => RegionChange::Nothing,
        Err(NumberError::Over) => RegionChange::Over,
    }
}

// What the setting of this name changes by its value.
#[tactic(auto, using(laws::proofs::NotNames::not_named, crate::proofs::ChangeLaws::not_long, crate::proofs::ChangeLaws::named_none), unfolding(format::specs::RegionSettings::region_named, format::specs::Texts::same))]
fn named_change(name: &[u8], value: &[u8]) -> RegionChange
    ensures { result ≡ region_named name.now value.now }
{
    match name {
        b"id" => RegionChange::Id,
        b"width" => read_percentage(value).map_or(RegionChange::Nothing, RegionChange::Width),
        b"lines" => lines_change(value),
        b"regionanchor" => read_point(value).map_or(RegionChange::Nothing, RegionChange::Anchor),
        b"viewportanchor" => {
            read_point(value).map_or(RegionChange::Nothing, RegionChange::Viewport)
        }
        b"scroll" => {
            if same_bytes(value, b"up") {
                RegionChange::Scroll
            } else {
                RegionChange::Nothing
            }
        }
        _ => RegionChange::Nothing,
    }
}

// A region, and whether a number was above its limit.
#[derive(Clone, Copy)]
pub struct RegionTaken {
    pub region: Region,
    pub over: bool,
}

// The setting whose name ends at the colon at `colon`, and whose value ends with `s`, taken into account.
fn take_setting(s: &[u8], from: usize, colon: usize, taken: RegionTaken) -> RegionTaken
    requires { Named s.now from colon }
    ensures { result ≡ step_is (token_from s.now from) taken }
{
    let change = named_change(&s[from..colon], &s[colon + 1..]);
    RegionTaken {
        region: Region {
            id: change.id_after(span(colon + 1, s.len()), taken.region.id),
            settings: taken.region.settings.changed(change),
        },
        over: taken.over || change.is_over(),
    }
}

// The token from `from` up to the end of `s`, taken into account.
fn step(s: &[u8], from: usize, taken: RegionTaken) -> RegionTaken
    requires { from ≤ length s.now }
    ensures { result ≡ step_is (token_from s.now from) taken }
{
    match name_end(s, from) {
        Some(colon) => take_setting(s, from, colon, taken),
        None => taken,
    }
}

// The region whose settings stand from `from` on.
fn read_region(s: &[u8], from: usize) -> RegionTaken
    requires { from ≤ length s.now }
    ensures { result ≡ taken_is (region_settings (token_from s.now from)) }
{
    let mut i = from;
    let mut taken = RegionTaken {
        region: Region {
            id: Span::NONE,
            settings: RegionSettings::opening(),
        },
        over: false,
    };
    while let Some(Span { from: at, to }) = next_token(s, i) {
        taken = step(&s[..to], at, taken);
        i = to;
    }
    taken
}

// The region that the text from `from` up to `to` gives.
pub fn all_settings(text: &[u8], from: usize, to: usize) -> RegionTaken
    ensures { result ≡ taken_is (region_settings (part_of text.now from to)) }
{
    let end = to.min(text.len());
    let start = from.min(end);
    read_region(&text[..end], start)
}
