// What a block gives: a cue, a style text, a region, or nothing.
ghost use Rattle.std.specs.Prelude.{◌≡◌};
ghost use Rattle.blocks.specs.Items.{kind_is};

use format::regions::Region;
use format::settings::{Settings, Span};

#[derive(Clone, Copy)]
pub struct CueRead {
    pub id: Span,
    // In milliseconds.
    pub start: u64,
    pub end: u64,
    pub settings: Settings,
    // The name of the region that was asked for.
    pub region: Span,
    pub text: Span,
}

#[derive(Clone, Copy)]
pub enum Item {
    Nothing,
    // A cue or a region with a number above its limit.
    Over,
    Cue(CueRead),
    Style(Span),
    Region(Region),
}

// What a block gives, without what that says.
#[derive(Clone, Copy, PartialEq, Eq)]
pub enum ItemKind {
    Nothing,
    Over,
    Cue,
    Style,
    Region,
}

pub fn kind(item: Item) -> ItemKind
    ensures { result ≡ kind_is item }
{
    match item {
        Item::Nothing => ItemKind::Nothing,
        Item::Over => ItemKind::Over,
        Item::Cue(_) => ItemKind::Cue,
        Item::Style(_) => ItemKind::Style,
        Item::Region(_) => ItemKind::Region,
    }
}
