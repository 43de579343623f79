// Why a call is refused, an enum for each function, and what becomes of the errors of the steps that a function takes. Document 01's number of
// each case and the values told with it are in specs/, one definition for each enum.
ghost use Rattle.std.specs.Prelude.{◌≡◌};
ghost use Rattle.format.specs.declared.errors.TextError.TheVariants as TextError;
ghost use Rattle.format.specs.declared.errors.ListsError.TheVariants as ListsError;
ghost use Rattle.format.specs.declared.errors.ReadError.TheVariants as ReadError;
ghost use Rattle.format.specs.declared.errors.ReadFileError.TheVariants as ReadFileError;
ghost use Rattle.format.specs.declared.errors.WriteError.TheVariants as WriteError;
ghost use Rattle.format.specs.declared.errors.RewriteError.TheVariants as RewriteError;
ghost use Rattle.format.specs.declared.errors.ReplaceError.TheVariants as ReplaceError;
ghost use Rattle.format.specs.declared.errors.MendError.TheVariants as MendError;
ghost use Rattle.format.specs.declared.errors.TreeError.TheVariants as TreeError;

use super::Counts;

// Refusal 5: a number is above its limit.
#[derive(Clone, Copy)]
pub struct OverLimit;

// Converting a raw file to plain text.
#[derive(Clone, Copy)]
pub enum ConvertError {
    // Refusal 1: the raw file is over MAX_FILE bytes.
    TooLong,
    // Refusal 2: the room is shorter than the text, which needs this many bytes.
    RoomTooShort(usize),
}

// Reading a plain text.
#[derive(Clone, Copy)]
pub enum TextError {
    // Refusal 4.
    NoSignature,
    // Refusal 5: a number is above its limit.
    OverLimit,
}

impl From<OverLimit> for TextError {
    ghost from_gives = { λ _ e. e ≡ TextError.OverLimit };

    fn from(_over: OverLimit) -> TextError {
        TextError::OverLimit
    }
}

// Reading a plain text into the lent tables.
#[derive(Clone, Copy)]
pub enum ListsError {
    Text(TextError),
    // Refusal 6: a list has more entries than its table; all counts.
    TablesTooShort(Counts),
}

impl From<TextError> for ListsError {
    ghost from_gives = { λ why e. e ≡ ListsError.Text why };

    fn from(why: TextError) -> ListsError {
        ListsError::Text(why)
    }
}

// Reading a text that may be not plain into the lent tables.
#[derive(Clone, Copy)]
pub enum ReadError {
    // Refusal 1: the text is over MAX_TEXT bytes.
    TooLong,
    // Refusal 3: the first place that is not plain.
    NotPlainAt(usize),
    Lists(ListsError),
}

impl From<ListsError> for ReadError {
    ghost from_gives = { λ why e. e ≡ ReadError.Lists why };

    fn from(why: ListsError) -> ReadError {
        ReadError::Lists(why)
    }
}

// Converting a raw file and reading its text in one call.
#[derive(Clone, Copy)]
pub enum ReadFileError {
    Convert(ConvertError),
    Lists(ListsError),
}

impl From<ConvertError> for ReadFileError {
    ghost from_gives = { λ why e. e ≡ ReadFileError.Convert why };

    fn from(why: ConvertError) -> ReadFileError {
        ReadFileError::Convert(why)
    }
}

impl From<ListsError> for ReadFileError {
    ghost from_gives = { λ why e. e ≡ ReadFileError.Lists why };

    fn from(why: ListsError) -> ReadFileError {
        ReadFileError::Lists(why)
    }
}

// Asking for a part of a cue.
#[derive(Clone, Copy)]
pub enum PartError {
    // Refusal 7: the cue number is not below this count.
    NoSuchCue(usize),
    // Refusal 8: the cue with this number fails test 1.
    NotWritable(usize),
}

// The lists of a file, in the order in which they are tested and written.
#[derive(Clone, Copy)]
pub enum ListKind {
    Styles,
    Regions,
    Cues,
}

// Refusal 8: which list, the index in it, and the number of the first test that fails.
#[derive(Clone, Copy)]
pub struct NotWritable {
    pub list: ListKind,
    pub index: usize,
    pub test: usize,
}

// Making a file in the output room.
#[derive(Clone, Copy)]
pub enum OutError {
    // Refusal 1: the file to be made is over MAX_FILE bytes.
    FileTooLong,
    // Refusal 10: the output room is shorter than the file, which needs this many bytes.
    OutTooShort(usize),
}

// Writing lists to a file.
#[derive(Clone, Copy)]
pub enum WriteError {
    NotWritable(NotWritable),
    Out(OutError),
}

impl From<NotWritable> for WriteError {
    ghost from_gives = { λ why e. e ≡ WriteError.NotWritable why };

    fn from(why: NotWritable) -> WriteError {
        WriteError::NotWritable(why)
    }
}

impl From<OutError> for WriteError {
    ghost from_gives = { λ why e. e ≡ WriteError.Out why };

    fn from(why: OutError) -> WriteError {
        WriteError::Out(why)
    }
}

// Rewriting a raw file: reading it, and writing what it reads as.
#[derive(Clone, Copy)]
pub enum RewriteError {
    Read(ReadFileError),
    Write(WriteError),
}

impl From<ReadFileError> for RewriteError {
    ghost from_gives = { λ why e. e ≡ RewriteError.Read why };

    fn from(why: ReadFileError) -> RewriteError {
        RewriteError::Read(why)
    }
}

impl From<WriteError> for RewriteError {
    ghost from_gives = { λ why e. e ≡ RewriteError.Write why };

    fn from(why: WriteError) -> RewriteError {
        RewriteError::Write(why)
    }
}

// Replacing one cue of a raw file. The scratch room is the room that its text is converted to.
#[derive(Clone, Copy)]
pub enum ReplaceError {
    Convert(ConvertError),
    Text(TextError),
    // Refusal 7: the cue number is not below this count.
    NoSuchCue(usize),
    // Refusal 8: of the new cue, which has the cue number as its index.
    NotWritable(NotWritable),
    // Refusal 9: the new identifier is not empty, and neither is the line before the cue's first line.
    NoGap,
    Out(OutError),
}

impl From<ConvertError> for ReplaceError {
    ghost from_gives = { λ why e. e ≡ ReplaceError.Convert why };

    fn from(why: ConvertError) -> ReplaceError {
        ReplaceError::Convert(why)
    }
}

impl From<TextError> for ReplaceError {
    ghost from_gives = { λ why e. e ≡ ReplaceError.Text why };

    fn from(why: TextError) -> ReplaceError {
        ReplaceError::Text(why)
    }
}

impl From<NotWritable> for ReplaceError {
    ghost from_gives = { λ why e. e ≡ ReplaceError.NotWritable why };

    fn from(why: NotWritable) -> ReplaceError {
        ReplaceError::NotWritable(why)
    }
}

impl From<OutError> for ReplaceError {
    ghost from_gives = { λ why e. e ≡ ReplaceError.Out why };

    fn from(why: OutError) -> ReplaceError {
        ReplaceError::Out(why)
    }
}

// Mending a raw file by a request line.
#[derive(Clone, Copy)]
pub enum MendError {
    // The line is no request, or its settings hold a number above its limit.
    BadRequest,
    // What replacing the cue that the line has refuses; refusal 1 too where the raw file is over 16,384 bytes.
    Replace(ReplaceError),
}

impl From<ReplaceError> for MendError {
    ghost from_gives = { λ why e. e ≡ MendError.Replace why };

    fn from(why: ReplaceError) -> MendError {
        MendError::Replace(why)
    }
}

// Reading one cue's text into nodes.
#[derive(Clone, Copy)]
pub enum TreeError {
    // Refusal 1: the text is over MAX_TEXT bytes.
    TooLong,
    // Refusal 3: the first place that is not plain.
    NotPlainAt(usize),
    // Refusal 5: the hours of a timestamp tag are above their limit.
    OverLimit,
    // Refusal 2: the room is shorter than the strings, which need this many bytes.
    RoomTooShort(usize),
    // Refusal 6: there are more nodes than the table has rows; their count.
    TableTooShort(usize),
}

impl From<OverLimit> for TreeError {
    ghost from_gives = { λ _ e. e ≡ TreeError.OverLimit };

    fn from(_over: OverLimit) -> TreeError {
        TreeError::OverLimit
    }
}
