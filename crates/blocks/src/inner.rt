// What a block gives that was collected. The functions are for the crates above: they ask for a block that was found in the text.
ghost use Rattle.std.specs.Prelude.{◌≡◌, true, ◌+◌, ◌≤◌, ◌<◌, length};
ghost use Rattle.std.specs.Prelude.{None};
ghost use Rattle.format.specs.Lists.{is_word};
ghost use Rattle.format.specs.TimingLines.{timing_line};
ghost use Rattle.values.specs.Tokens.{part_of};
ghost use Rattle.timing.specs.TimingLines.{timed_line_is, line_kind};
ghost use Rattle.blocks.specs.Items.{part, after_span, timed_is, region_item, definition_is, meaning_at, item_is, kind_is, timed_kind, NoWord, GivesNothing, PlacesIn};

use crate::collecting::Block;
use crate::items::{CueRead, Item, ItemKind, kind};
use format::settings::Span;
use format::times::TimingLine;
use regions::RegionTaken;
use timing::timing_line::LineKind;
use values::bytes::ByteKind;

// The lines after one that ends at `end`, up to the block's end.
fn after_line(end: usize, to: usize) -> Span
    requires { end ≤ to }
    ensures { result ≡ after_span end to }
{
    if end == to {
        return Span::NONE;
    }
    values::tokens::span(end + 1, to)
}

// The cue whose timing line stands from one place up to another.
fn timed_item(s: &[u8], from: usize, to: usize, id: Span, text: Span) -> Item
    ensures { result ≡ timed_is id text (timed_line_is (part_of s.now from to)) }
{
    match timing::line_of(s, from, to) {
        TimingLine::Bad { fault: _, at: _ } => Item::Nothing,
        TimingLine::Over => Item::Over,
        TimingLine::Good(read) => Item::Cue(CueRead {
            id,
            start: read.start,
            end: read.end,
            settings: read.settings,
            region: read.region,
            text,
        }),
    }
}

// Is the line this word, with only whitespace after it.
#[tactic(auto, using(crate::proofs::LineLaws::starts_prefix), unfolding(format::specs::Lists::is_word))]
fn is_word(line: &[u8], word: &[u8]) -> bool
    ensures { result ≡ is_word word.now line.now }
{
    let Some(rest) = line.strip_prefix(word) else {
        return false;
    };
    values::bytes::past(rest, 0, ByteKind::White) == rest.len()
}

fn region_item(taken: RegionTaken) -> Item
    ensures { result ≡ region_item taken }
{
    if taken.over {
        return Item::Over;
    }
    Item::Region(taken.region)
}

// A block without a timing line: its first line ends at `first`, and others follow it.
fn definition(s: &[u8], from: usize, first: usize, to: usize, seen: bool) -> Item
    requires { (from ≤ first) × (first < to) × (to ≤ length s.now) }
    ensures { result ≡ definition_is seen (part s.now from first).bytes (part s.now (first + 1) to) }
{
    if seen {
        return Item::Nothing;
    }
    let line = &s[from..first];
    if is_word(line, b"STYLE") {
        return Item::Style(values::tokens::span(first + 1, to));
    }
    if is_word(line, b"REGION") {
        return region_item(regions::all_settings(s, first + 1, to));
    }
    Item::Nothing
}

// Does no timing line stand from one place up to another, as its first byte tells: neither a time begins with it nor whitespace before one.
#[tactic(auto, using(crate::proofs::NothingLaws::empty_line_lem, crate::proofs::NothingLaws::other_line))]
fn no_time(s: &[u8], from: usize, to: usize) -> bool
    requires { (from ≤ to) × (to ≤ length s.now) }
    ensures { result ≡ true → timing_line (part s.now from to) ≡ None }
{
    if from == to {
        return true;
    }
    let b = s[from];
    !values::bytes::is_digit(b) && !values::bytes::is_white(b)
}

// Is the first line neither STYLE nor REGION, as its first byte tells.
fn no_word(s: &[u8], from: usize, first: usize) -> bool
    requires { (from < first) × (first ≤ length s.now) }
    ensures { result ≡ true → NoWord (part s.now from first).bytes }
{
    s[from] != b'S' && s[from] != b'R'
}

// Does a block give nothing, as one byte tells. Where it tells nothing, the block has to be read.
pub fn gives_nothing(s: &[u8], block: Block) -> bool
    requires { PlacesIn s.now block }
    ensures { result ≡ true → GivesNothing s.now block }
{
    let Block { from, stop } = block;
    let head = stop.head;
    let first = head.first;
    let end = head.end;
    if !head.timed {
        if first == stop.to {
            return true;
        }
        return no_word(s, from, first);
    }
    if first == end {
        return no_time(s, from, end);
    }
    no_time(s, first + 1, end)
}

// What a block gives, `seen` telling whether a cue has succeeded before it.
pub fn item_at(s: &[u8], block: Block, seen: bool) -> Item
    requires { PlacesIn s.now block }
    ensures { result ≡ item_is (meaning_at seen s.now block) }
{
    let Block { from, stop } = block;
    let head = stop.head;
    let first = head.first;
    let end = head.end;
    let to = stop.to;
    if !head.timed {
        if first == to {
            return Item::Nothing;
        }
        return definition(s, from, first, to, seen);
    }
    let text = after_line(end, to);
    if first == end {
        return timed_item(s, from, end, Span::NONE, text);
    }
    timed_item(s, first + 1, end, values::tokens::span(from, first), text)
}

// Is it a cue whose timing line stands from one place up to another.
fn timed_kind(s: &[u8], from: usize, to: usize) -> ItemKind
    ensures { result ≡ timed_kind (line_kind (timed_line_is (part_of s.now from to))) }
{
    match timing::kind_of(s, from, to) {
        LineKind::Bad => ItemKind::Nothing,
        LineKind::Over => ItemKind::Over,
        LineKind::Good => ItemKind::Cue,
    }
}

// What a block gives, without what that says: no cue is made.
pub fn kind_at(s: &[u8], block: Block, seen: bool) -> ItemKind
    requires { PlacesIn s.now block }
    ensures { result ≡ kind_is (item_is (meaning_at seen s.now block)) }
{
    if gives_nothing(s, block) {
        return ItemKind::Nothing;
    }
    let Block { from, stop } = block;
    let head = stop.head;
    let first = head.first;
    let end = head.end;
    let to = stop.to;
    if !head.timed {
        if first == to {
            return ItemKind::Nothing;
        }
        return kind(definition(s, from, first, to, seen));
    }
    if first == end {
        return timed_kind(s, from, end);
    }
    timed_kind(s, first + 1, end)
}
