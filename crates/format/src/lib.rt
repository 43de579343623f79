// What the definitions speak of: the limits, and why the public functions refuse.
// The definitions themselves are in specs/; there is no algorithm here.
#![tactic(auto)]

pub mod codes;
pub mod errors;
pub mod kinds;
pub mod regions;
pub mod rows;
pub mod settings;
pub mod times;

pub use errors::{
    ConvertError, ListKind, ListsError, MendError, NotWritable, OutError, OverLimit, PartError,
    ReadError, ReadFileError, ReplaceError, RewriteError, TextError, TreeError, WriteError,
};

// The greatest length in bytes of a raw file, read or made (refusal 1).
pub const MAX_FILE: usize = 16_777_216;

// The greatest length in bytes of a plain text or a cue text to be read (refusal 1).
pub const MAX_TEXT: usize = 50_331_648;

// How many entries each list has.
#[derive(Clone, Copy)]
pub struct Counts {
    pub cues: usize,
    pub regions: usize,
    pub styles: usize,
}

impl Counts {
    pub const NONE: Counts = Counts {
        cues: 0,
        regions: 0,
        styles: 0,
    };
}

// What a raw file has that was converted and read: its lists' entries, which stand at the tables' starts, and the bytes of its plain text,
// which stand at its room's start.
#[derive(Clone, Copy)]
pub struct FileLists {
    pub counts: Counts,
    pub text: usize,
}

// What looking up a region by its name finds.
#[derive(Clone, Copy)]
pub struct RegionFound {
    // The last region of that name.
    pub index: Option<u64>,
    // How many records were looked at, from the last on.
    pub seen: usize,
}

// What the nodes of a cue text take: rows at the start of the table, and bytes of strings at the start of the room.
#[derive(Clone, Copy)]
pub struct TreeSize {
    pub count: usize,
    pub used: usize,
}
