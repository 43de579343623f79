// The rows of the lent tables: how many words a row of each table has, the name of each word, and the entries that rows are decoded to. What
// the words mean is in specs/Rows.antt; the crate `rows` alone reads and makes rows word by word.
use super::settings::{Settings, Span};

pub const CUE_WORDS: usize = 19;

pub type CueRow = [u64; CUE_WORDS];

pub const CUE_ID_FROM: usize = 0;

pub const CUE_ID_TO: usize = 1;

// In milliseconds, as the end.
pub const CUE_START: usize = 2;

pub const CUE_END: usize = 3;

pub const CUE_TEXT_FROM: usize = 4;

pub const CUE_TEXT_TO: usize = 5;

pub const CUE_VERTICAL: usize = 6;

// Auto, from 0 on, or below 0; and the number in millionths.
pub const CUE_LINE: usize = 7;

pub const CUE_LINE_NUMBER: usize = 8;

pub const CUE_SNAP: usize = 9;

pub const CUE_LINE_ALIGN: usize = 10;

// Auto or not; and the percentage in millionths.
pub const CUE_POSITION: usize = 11;

pub const CUE_POSITION_NUMBER: usize = 12;

pub const CUE_POSITION_ALIGN: usize = 13;

pub const CUE_SIZE: usize = 14;

pub const CUE_ALIGN: usize = 15;

// 0 for none, else the region's index and one.
pub const CUE_REGION: usize = 16;

// The number of the cue's first line in the file, from 1, and its count of lines. Reading stores them, and no other call depends on them.
pub const CUE_FIRST_LINE: usize = 17;

pub const CUE_LINES: usize = 18;

// The new cue of a replacement: the words of a cue's row before its region, then the region's name, a part of the text lent with it, and two
// words that nobody looks at.
pub const NEW_CUE_WORDS: usize = 20;

pub type NewCueRow = [u64; NEW_CUE_WORDS];

pub const NEW_CUE_NAME_FROM: usize = 16;

pub const NEW_CUE_NAME_TO: usize = 17;

pub const REGION_WORDS: usize = 9;

pub type RegionRow = [u64; REGION_WORDS];

pub const REGION_ID_FROM: usize = 0;

pub const REGION_ID_TO: usize = 1;

pub const REGION_WIDTH: usize = 2;

pub const REGION_LINES: usize = 3;

pub const REGION_ANCHOR_X: usize = 4;

pub const REGION_ANCHOR_Y: usize = 5;

pub const REGION_VIEWPORT_X: usize = 6;

pub const REGION_VIEWPORT_Y: usize = 7;

pub const REGION_SCROLL: usize = 8;

pub const STYLE_WORDS: usize = 2;

pub type StyleRow = [u64; STYLE_WORDS];

pub const STYLE_FROM: usize = 0;

pub const STYLE_TO: usize = 1;

#[derive(Clone, Copy)]
pub struct CueEntry {
    pub id: Span,
    // In milliseconds.
    pub start: u64,
    pub end: u64,
    pub text: Span,
    pub settings: Settings,
    // The region's index in the list of regions.
    pub region: Option<u64>,
}

// The lines of a cue in its file: its first line's number, counted from 1, and how many there are.
#[derive(Clone, Copy)]
pub struct LineSpan {
    pub first: u64,
    pub count: u64,
}

impl LineSpan {
    // Of a cue that was read from no file.
    pub const NONE: LineSpan = LineSpan { first: 0, count: 0 };
}

// The row of a node of a cue text. An empty string is 0, 0.
pub const NODE_WORDS: usize = 7;

pub type NodeRow = [u64; NODE_WORDS];

// 0 where the parent is the root, else the parent's index and one.
pub const NODE_PARENT: usize = 0;

pub const NODE_KIND: usize = 1;

// The classes in the room, from a place up to another.
pub const NODE_CLASSES_FROM: usize = 2;

pub const NODE_CLASSES_TO: usize = 3;

// The value in the room, from a place up to another.
pub const NODE_VALUE_FROM: usize = 4;

pub const NODE_VALUE_TO: usize = 5;

// A timestamp's milliseconds, else 0.
pub const NODE_TIME: usize = 6;
