// The signature and the blocks of a plain text, one after the other, and what each of them gives. Every function ends in linear time.
#![tactic(auto)]

ghost use Rattle.std.specs.Prelude.{◌≡◌};
ghost use Rattle.format.specs.Blocks.{has_signature};
ghost use Rattle.blocks.specs.Collecting.{line_ends, header_end, next_is};

use collecting::{Block, Head};
use values::bytes::ByteKind;

pub mod collecting;
pub mod inner;
pub mod items;

// How many line ends a plain text or a part of it has.
pub fn line_ends(s: &[u8]) -> usize
    ensures { result ≡ line_ends s.now }
{
    let mut n = 0;
    // By hand: `filter` and `count` go byte by byte, and this loop many bytes at a time, when it is compiled.
    for i in 0..s.len() {
        if s[i] == b'\n' {
            n += 1;
        }
    }
    n
}

#[tactic(auto, using(crate::proofs::LineLaws::starts_prefix), unfolding(format::specs::Blocks::has_signature, format::specs::Blocks::seventh))]
pub fn has_signature(s: &[u8]) -> bool
    ensures { result ≡ has_signature s.now }
{
    let Some(rest) = s.strip_prefix(b"WEBVTT") else {
        return false;
    };
    matches!(rest, [] | [b' ' | b'\t' | b'\n', ..])
}

// Where the lines begin that stand after the first line of a text and a header.
pub fn past_header(s: &[u8]) -> usize
    ensures { result ≡ header_end s.now }
{
    let end = values::bytes::past(s, 0, ByteKind::Until(b'\n'));
    if end == s.len() {
        return end;
    }
    let stop = collecting::collect(s, end + 1, Head::NONE);
    stop.at
}

// The next block that begins at `at` or after it; none where that is after the text.
#[tactic(auto, unfolding(crate::specs::Collecting::next_is))]
pub fn next_block(s: &[u8], at: usize) -> Option<Block>
    ensures { result ≡ next_is s.now at }
{
    let from = values::bytes::past(s, at, ByteKind::Only(b'\n'));
    if s.len() <= from {
        return None;
    }
    Some(Block {
        from,
        stop: collecting::collect(s, from, Head::OPENING),
    })
}
