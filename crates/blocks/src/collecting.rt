// Collecting one block: line by line, up to an empty line, the text's end, or a line with an arrow that cannot be its timing line.
ghost use Rattle.std.specs.Prelude.{◌≡◌, ◌+◌, ◌≤◌, ◌<◌, false, [], length, drop};
ghost use Rattle.format.specs.Bytes.{ascii};
ghost use Rattle.format.specs.Texts.{starts_with};
ghost use Rattle.blocks.specs.Collecting.{head_after, lines_from, collect_from, line_at, ArrowOrEnd};

use values::bytes::{ByteKind, past};

// Why collecting stopped.
#[derive(Clone, Copy)]
pub enum Why {
    EmptyLine,
    End,
    Arrow,
}

// What is known of a block's first lines. Its timing line is its first line, or the second where the first has no arrow.
#[derive(Clone, Copy)]
pub struct Head {
    // How many of the next lines can be the timing line, taken one after the other.
    pub left: usize,
    // Where the first line ends.
    pub first: usize,
    // Where the timing line ends; the first line where there is none.
    pub end: usize,
    pub timed: bool,
}

// Where collecting stopped.
#[derive(Clone, Copy)]
pub struct Stop {
    pub why: Why,
    // Where the line begins that was not taken; the text's end where there was none.
    pub at: usize,
    // Where the last line ends that was taken.
    pub to: usize,
    // How many lines were taken.
    pub lines: usize,
    pub head: Head,
}

// A block: where it begins, and where collecting it stopped.
#[derive(Clone, Copy)]
pub struct Block {
    pub from: usize,
    pub stop: Stop,
}

impl Head {
    // No line yet.
    pub const OPENING: Head = Head {
        left: 2,
        first: 0,
        end: 0,
        timed: false,
    };

    // No line can be a timing line.
    pub const NONE: Head = Head {
        left: 0,
        first: 0,
        end: 0,
        timed: false,
    };

    // One line more, which ends here, with an arrow or without.
    fn after(self, end: usize, arrow: bool) -> Head
        ensures { result ≡ head_after self end arrow }
    {
        if self.left == 0 {
            return self;
        }
        let first = if self.left == 2 { end } else { self.first };
        if arrow {
            return Head {
                left: 0,
                first,
                end,
                timed: true,
            };
        }
        Head {
            left: self.left - 1,
            first,
            end: first,
            timed: false,
        }
    }
}

// Does `-->` stand here.
#[tactic(auto, using(std::proofs::lemmas::Grind::common_steps, crate::proofs::LineLaws::starts_is))]
#[inline(always)]
fn arrow_at(s: &[u8], i: usize) -> bool
    requires { i ≤ length s.now }
    ensures { result ≡ starts_with (ascii "-->") (drop i s.now) }
{
    s[i..].starts_with(b"-->")
}

// Does `-->` stand at a byte. Hardly any byte is a hyphen, so that is tried first: every byte of a text is asked.
#[inline(always)]
fn arrow_here(s: &[u8], i: usize) -> bool
    requires { i < length s.now }
    ensures { result ≡ starts_with (ascii "-->") (drop i s.now) }
{
    s[i] == b'-' && arrow_at(s, i)
}

// Does `-->` stand at a byte, or at the text's end, where none does.
#[inline(always)]
fn has_arrow(s: &[u8], i: usize) -> bool
    requires { i ≤ length s.now }
    ensures { result ≡ starts_with (ascii "-->") (drop i s.now) }
{
    i < s.len() && arrow_here(s, i)
}

// Where the first arrow stands of the line that begins here; where the line ends, if it has none.
#[tactic(auto, using(crate::proofs::LineLaws::sought_first, crate::proofs::LineLaws::sought_next, crate::proofs::LineLaws::sought_arrow, crate::proofs::LineLaws::sought_lf, crate::proofs::LineLaws::sought_end))]
#[inline(always)]
fn arrow_or_end(s: &[u8], line: usize) -> usize
    requires { line ≤ length s.now }
    ensures { ArrowOrEnd s.now line result }
{
    for i in line..s.len() {
        if s[i] == b'\n' || arrow_here(s, i) {
            return i;
        }
    }
    s.len()
}

// Where a line ends of which an arrow stands here, or which ends here.
#[inline(always)]
fn line_end(s: &[u8], mark: usize, arrow: bool) -> usize
    requires { arrow ≡ false → line_at s.now mark ≡ [] }
    ensures { result ≡ mark + length (line_at s.now mark) }
{
    if arrow {
        past(s, mark, ByteKind::Until(b'\n'))
    } else {
        mark
    }
}

// The lines from `from` on that a block takes whose first lines are known so far. No byte is passed twice. Looked at again are only the byte at
// which the search in a line stops and, at a hyphen up to there, that hyphen and at most the two bytes after it.
pub(crate) fn collect(s: &[u8], from: usize, known: Head) -> Stop
    requires { from ≤ length s.now }
    ensures { result ≡ collect_from known from (lines_from s.now from) }
{
    let mut stop = Stop {
        why: Why::End,
        at: from,
        to: from,
        lines: 0,
        head: known,
    };
    loop {
        let mark = arrow_or_end(s, stop.at);
        let arrow = has_arrow(s, mark);
        if arrow && stop.head.left == 0 {
            return Stop {
                why: Why::Arrow,
                ..stop
            };
        }
        let end = line_end(s, mark, arrow);
        if end == stop.at {
            return Stop {
                why: Why::EmptyLine,
                ..stop
            };
        }
        stop.to = end;
        stop.lines += 1;
        stop.head = stop.head.after(end, arrow);
        if end == s.len() {
            return Stop {
                why: Why::End,
                at: end,
                ..stop
            };
        }
        stop.at = end + 1;
    }
}
