// What the value of an accepted answer tells: document 01's values, and the number 0. The first place that is not plain is told here too, by 3.
#![tactic(auto, unfolding(format::specs::Answers::refusal_number, format::specs::Answers::returned, format::specs::Answers::with_values, format::specs::Converting::plainness_is, format::specs::LookingUp::found_is, format::specs::Parts::span_told, format::specs::Reading::counts_told, format::specs::Reading::file_lists_told, format::specs::Reading::count_values, format::specs::Trees::tree_size_told))]

ghost use Rattle.std.specs.Prelude.{[]};
ghost use Rattle.format.specs.Answers.{accepted, length_told};
ghost use Rattle.format.specs.Converting.{plainness_is};
ghost use Rattle.format.specs.LookingUp.{found_is};
ghost use Rattle.format.specs.Parts.{span_told};
ghost use Rattle.format.specs.Reading.{counts_told, file_lists_told};
ghost use Rattle.format.specs.Trees.{tree_size_told};

use crate::{Told, put};
use format::settings::Span;
use format::{Counts, FileLists, RegionFound, TreeSize};

// What is accepted without a value, as a part that may be handed back.
impl Told for () {
    ghost told = { λ _. accepted [] };

    fn tell(self, _values: &mut [u64; 8]) -> u64 {
        0
    }
}

// The first place of a text that is not plain, which refuses it; none where it is plain.
impl Told for Option<usize> {
    ghost told = { plainness_is };

    fn tell(self, values: &mut [u64; 8]) -> u64 {
        match self {
            None => 0,
            Some(place) => {
                put(&[place as u64], values);
                3
            }
        }
    }
}

// The length of a text or a file that was made.
impl Told for usize {
    ghost told = { length_told };

    fn tell(self, values: &mut [u64; 8]) -> u64 {
        put(&[self as u64], values);
        0
    }
}

impl Told for Counts {
    ghost told = { counts_told };

    fn tell(self, values: &mut [u64; 8]) -> u64 {
        put(
            &[self.cues as u64, self.regions as u64, self.styles as u64],
            values,
        );
        0
    }
}

// The counts, and the text's length.
impl Told for FileLists {
    ghost told = { file_lists_told };

    fn tell(self, values: &mut [u64; 8]) -> u64 {
        let counts = self.counts;
        put(
            &[
                counts.cues as u64,
                counts.regions as u64,
                counts.styles as u64,
                self.text as u64,
            ],
            values,
        );
        0
    }
}

impl Told for TreeSize {
    ghost told = { tree_size_told };

    fn tell(self, values: &mut [u64; 8]) -> u64 {
        put(&[self.count as u64, self.used as u64], values);
        0
    }
}

// 1 and the region's index, or 0 and 0 where none has the name; and how many records were looked at.
impl Told for RegionFound {
    ghost told = { found_is };

    fn tell(self, values: &mut [u64; 8]) -> u64 {
        let seen = self.seen as u64;
        match self.index {
            None => put(&[0, 0, seen], values),
            Some(index) => put(&[1, index, seen], values),
        }
        0
    }
}

// The place of a part of a text.
impl Told for Span {
    ghost told = { span_told };

    fn tell(self, values: &mut [u64; 8]) -> u64 {
        put(&[self.from as u64, self.to as u64], values);
        0
    }
}
