// A cue's timing line, read from a part of a text. Any bytes and any places are taken; every function ends in linear time.
#![tactic(auto)]

ghost use Rattle.std.specs.Prelude.{◌≡◌};
ghost use Rattle.format.specs.TellingTimes.{timing_line_answer, timing_line_told};
ghost use Rattle.values.specs.Tokens.{part_of};
ghost use Rattle.timing.specs.TimingLines.{timed_line_is, line_kind};

use format::times::TimingLine;
use timing_line::LineKind;

pub mod timing_line;
mod usual;

// The text from `from` up to `to` as a timing line.
pub fn line_of(text: &[u8], from: usize, to: usize) -> TimingLine
    ensures is { result ≡ timed_line_is (part_of text.now from to) }
    ensures answer { timing_line_answer result ≡ timing_line_told (part_of text.now from to) }
{
    let end = to.min(text.len());
    let start = from.min(end);
    timing_line::read_timing_line(&text[..end], start)
}

// What the text from `from` up to `to` is as a timing line, without what it says: the first pass over a file asks no more.
pub fn kind_of(text: &[u8], from: usize, to: usize) -> LineKind
    ensures { result ≡ line_kind (timed_line_is (part_of text.now from to)) }
{
    let end = to.min(text.len());
    let start = from.min(end);
    timing_line::read_kind(&text[..end], start)
}
