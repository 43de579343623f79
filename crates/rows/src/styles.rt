// What a style's row says.
ghost use Rattle.std.specs.Prelude.{◌≡◌};
ghost use Rattle.format.specs.Rows.{style_entry};

use super::spans;
use format::rows::*;
use format::settings::Span;

// The place of its text.
pub fn text(row: StyleRow) -> Span
    ensures { result ≡ style_entry row }
{
    spans::span(row[STYLE_FROM], row[STYLE_TO])
}
