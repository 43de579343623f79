// What a refusal tells: document 01's number, and the values that go with it.
#![tactic(auto, unfolding(format::specs::Answers::refusal_number, format::specs::Answers::returned, format::specs::Answers::with_values, format::specs::Converting::convert_error, format::specs::Reading::text_error, format::specs::Reading::lists_error, format::specs::Reading::read_error, format::specs::Reading::read_file_error, format::specs::Reading::count_values, format::specs::Parts::part_error, format::specs::Writing::list_number, format::specs::Writing::not_writable, format::specs::Writing::out_error, format::specs::Writing::write_error, format::specs::Rewriting::rewrite_error, format::specs::Replacing::replace_error, format::specs::Trees::tree_error))]

ghost use Rattle.std.specs.Prelude.{◌≡◌};
ghost use Rattle.format.specs.Converting.{convert_error};
ghost use Rattle.format.specs.Parts.{part_error};
ghost use Rattle.format.specs.Reading.{text_error, lists_error, read_error, read_file_error};
ghost use Rattle.format.specs.Replacing.{replace_error};
ghost use Rattle.format.specs.Rewriting.{rewrite_error};
ghost use Rattle.format.specs.Trees.{tree_error};
ghost use Rattle.format.specs.Writing.{list_number, not_writable, out_error, write_error};

use crate::{Told, put};
use format::{
    ConvertError, ListKind, ListsError, NotWritable, OutError, PartError, ReadError, ReadFileError,
    ReplaceError, RewriteError, TextError, TreeError, WriteError,
};

impl Told for ConvertError {
    ghost told = { convert_error };

    fn tell(self, values: &mut [u64; 8]) -> u64 {
        match self {
            ConvertError::TooLong => 1,
            ConvertError::RoomTooShort(needed) => {
                put(&[needed as u64], values);
                2
            }
        }
    }
}

impl Told for TextError {
    ghost told = { text_error };

    fn tell(self, _values: &mut [u64; 8]) -> u64 {
        match self {
            TextError::NoSignature => 4,
            TextError::OverLimit => 5,
        }
    }
}

impl Told for ListsError {
    ghost told = { lists_error };

    fn tell(self, values: &mut [u64; 8]) -> u64 {
        match self {
            ListsError::Text(error) => error.tell(values),
            ListsError::TablesTooShort(needed) => {
                needed.tell(values);
                6
            }
        }
    }
}

impl Told for ReadError {
    ghost told = { read_error };

    fn tell(self, values: &mut [u64; 8]) -> u64 {
        match self {
            ReadError::TooLong => 1,
            ReadError::NotPlainAt(place) => {
                put(&[place as u64], values);
                3
            }
            ReadError::Lists(error) => error.tell(values),
        }
    }
}

impl Told for ReadFileError {
    ghost told = { read_file_error };

    fn tell(self, values: &mut [u64; 8]) -> u64 {
        match self {
            ReadFileError::Convert(error) => error.tell(values),
            ReadFileError::Lists(error) => error.tell(values),
        }
    }
}

impl Told for PartError {
    ghost told = { part_error };

    fn tell(self, values: &mut [u64; 8]) -> u64 {
        match self {
            PartError::NoSuchCue(count) => {
                put(&[count as u64], values);
                7
            }
            PartError::NotWritable(number) => {
                put(&[2, number as u64, 1], values);
                8
            }
        }
    }
}

// Document 01's number of a list.
fn number_of(list: ListKind) -> u64
    ensures { result ≡ list_number list }
{
    match list {
        ListKind::Styles => 0,
        ListKind::Regions => 1,
        ListKind::Cues => 2,
    }
}

impl Told for NotWritable {
    ghost told = { not_writable };

    fn tell(self, values: &mut [u64; 8]) -> u64 {
        let list = number_of(self.list);
        put(&[list, self.index as u64, self.test as u64], values);
        8
    }
}

impl Told for OutError {
    ghost told = { out_error };

    fn tell(self, values: &mut [u64; 8]) -> u64 {
        match self {
            OutError::FileTooLong => 1,
            OutError::OutTooShort(needed) => {
                put(&[needed as u64], values);
                10
            }
        }
    }
}

impl Told for WriteError {
    ghost told = { write_error };

    fn tell(self, values: &mut [u64; 8]) -> u64 {
        match self {
            WriteError::NotWritable(error) => error.tell(values),
            WriteError::Out(error) => error.tell(values),
        }
    }
}

impl Told for RewriteError {
    ghost told = { rewrite_error };

    fn tell(self, values: &mut [u64; 8]) -> u64 {
        match self {
            RewriteError::Read(error) => error.tell(values),
            RewriteError::Write(error) => error.tell(values),
        }
    }
}

impl Told for ReplaceError {
    ghost told = { replace_error };

    fn tell(self, values: &mut [u64; 8]) -> u64 {
        match self {
            ReplaceError::Convert(error) => error.tell(values),
            ReplaceError::Text(error) => error.tell(values),
            ReplaceError::NoSuchCue(count) => {
                put(&[count as u64], values);
                7
            }
            ReplaceError::NotWritable(error) => error.tell(values),
            ReplaceError::NoGap => 9,
            ReplaceError::Out(error) => error.tell(values),
        }
    }
}

impl Told for TreeError {
    ghost told = { tree_error };

    fn tell(self, values: &mut [u64; 8]) -> u64 {
        match self {
            TreeError::TooLong => 1,
            TreeError::NotPlainAt(place) => {
                put(&[place as u64], values);
                3
            }
            TreeError::OverLimit => 5,
            TreeError::RoomTooShort(needed) => {
                put(&[needed as u64], values);
                2
            }
            TreeError::TableTooShort(needed) => {
                put(&[needed as u64], values);
                6
            }
        }
    }
}
