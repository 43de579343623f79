// A region's identifier and settings, with the opening ones, and what one setting changes.
ghost use Rattle.std.specs.Prelude.{◌≡◌};
ghost use Rattle.format.specs.RegionSettings.{opening_region, region_after, id_after, over_region};

use super::settings::Span;

#[derive(Clone, Copy)]
pub enum Scroll {
    None,
    Up,
}

// A point of a region or of the viewport: two percentages, in millionths.
#[derive(Clone, Copy)]
pub struct Point {
    pub x: u64,
    pub y: u64,
}

#[derive(Clone, Copy)]
pub struct RegionSettings {
    // A percentage, in millionths.
    pub width: u64,
    pub lines: u64,
    pub anchor: Point,
    pub viewport: Point,
    pub scroll: Scroll,
}

#[derive(Clone, Copy)]
pub struct Region {
    pub id: Span,
    pub settings: RegionSettings,
}

// What one setting changes: its value is the identifier, or it sets something.
#[derive(Clone, Copy)]
pub enum RegionChange {
    Nothing,
    // A number above its limit, which is not kept.
    Over,
    Id,
    Width(u64),
    Lines(u64),
    Anchor(Point),
    Viewport(Point),
    Scroll,
}

impl Point {
    // The opening anchor, of a region and of the viewport.
    pub const OPENING: Point = Point {
        x: 0,
        y: 100_000_000,
    };
}

impl RegionSettings {
    pub const OPENING_WIDTH: u64 = 100_000_000;

    pub const OPENING_LINES: u64 = 3;

    pub fn opening() -> RegionSettings
        ensures { result ≡ opening_region }
    {
        RegionSettings {
            width: RegionSettings::OPENING_WIDTH,
            lines: RegionSettings::OPENING_LINES,
            anchor: Point::OPENING,
            viewport: Point::OPENING,
            scroll: Scroll::None,
        }
    }

    // The settings after a change.
    pub fn changed(self, change: RegionChange) -> RegionSettings
        ensures { result ≡ region_after change self }
    {
        match change {
            RegionChange::Nothing => self,
            RegionChange::Over => self,
            RegionChange::Id => self,
            RegionChange::Width(width) => RegionSettings { width, ..self },
            RegionChange::Lines(lines) => RegionSettings { lines, ..self },
            RegionChange::Anchor(anchor) => RegionSettings { anchor, ..self },
            RegionChange::Viewport(viewport) => RegionSettings { viewport, ..self },
            RegionChange::Scroll => RegionSettings {
                scroll: Scroll::Up,
                ..self
            },
        }
    }
}

impl RegionChange {
    pub fn is_over(self) -> bool
        ensures { result ≡ over_region self }
    {
        matches!(self, RegionChange::Over)
    }

    // The identifier after the change, `value` being where the setting's value stands.
    pub fn id_after(self, value: Span, id: Span) -> Span
        ensures { result ≡ id_after self value id }
    {
        match self {
            RegionChange::Id => value,
            _ => id,
        }
    }
}
