// What a region's row says.
ghost use Rattle.std.specs.Prelude.{◌≡◌};
ghost use Rattle.format.specs.Rows.{region_entry, region_codes_named};

use super::spans;
use format::regions::{Point, Region, RegionSettings, Scroll};
use format::rows::*;
use format::settings::Span;

pub fn id(row: RegionRow) -> Span
    ensures { result ≡ (region_entry row).id }
{
    spans::span(row[REGION_ID_FROM], row[REGION_ID_TO])
}

// The region; a code that names no choice is not asked for.
pub fn entry(row: RegionRow) -> Region
    ensures { result ≡ region_entry row }
{
    Region {
        id: id(row),
        settings: RegionSettings {
            width: row[REGION_WIDTH],
            lines: row[REGION_LINES],
            anchor: Point {
                x: row[REGION_ANCHOR_X],
                y: row[REGION_ANCHOR_Y],
            },
            viewport: Point {
                x: row[REGION_VIEWPORT_X],
                y: row[REGION_VIEWPORT_Y],
            },
            scroll: Scroll::try_from(row[REGION_SCROLL]).unwrap_or(Scroll::Up),
        },
    }
}

// Does each code of the row name a choice.
#[tactic(auto, unfolding(format::specs::Rows::region_codes_named))]
pub fn are_named(row: RegionRow) -> bool
    ensures { result ≡ region_codes_named row }
{
    Scroll::try_from(row[REGION_SCROLL]).is_ok()
}
