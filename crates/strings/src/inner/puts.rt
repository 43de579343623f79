// The strings of a cue text's nodes put into a room: text with its escapes decoded, classes and annotations with their separators
// collapsed. A room that is too short stores what fits; the place that each function hands back goes on all the same.
ghost use Rattle.std.specs.Prelude.{◌≡◌, [], ◌∷◌, ◌++◌, ◌*◌, ◌<◌, ◌≤◌, MatchOption, length};
ghost use Rattle.format.specs.Bytes.{semicolon};
ghost use Rattle.format.specs.Limits.{max_text};
ghost use Rattle.format.specs.CueText.{escaped, collapsed};
ghost use Rattle.tokenizer.specs.Decoding.{decoded};
ghost use Rattle.strings.specs.Stores.{Stores, separates, one};
ghost use Rattle.strings.specs.Turns.{piece_end, escapes, word};

use output::store_text;
use values::bytes::{ByteKind, is_at, is_white, past};

// One byte.
fn put(b: u8, room: &mut [u8], at: usize) -> usize
    requires { at ≤ 4 * max_text }
    ensures { Stores (b ∷ []) at room.old result room.new }
{
    if at < room.len() {
        room[at] = b;
    }
    at + 1
}

// A text as it is. What of it lies outside the room costs no time.
fn put_part(s: &[u8], room: &mut [u8], at: usize) -> usize
    requires { (length s.now ≤ max_text) × (at ≤ 3 * max_text) }
    ensures { Stores s.now at room.old result room.new }
{
    store_text(s, room, at);
    at + s.len()
}

// What held bytes with a semicolon after them stand for, where they are an escape.
#[tactic(auto, unfolding(format::specs::CueText::escaped, format::specs::Texts::same))]
fn meaning(held: &[u8]) -> Option<&'static [u8]>
    ensures { MatchOption result (escaped held.now ≡ held.now ++ semicolon ∷ []) (λ text. (escaped held.now ≡ text.now) × (length text.now ≤ 3)) }
{
    match held {
        b"&amp" => Some(b"&"),
        b"&lt" => Some(b"<"),
        b"&gt" => Some(b">"),
        b"&lrm" => Some(b"\xE2\x80\x8E"),
        b"&rlm" => Some(b"\xE2\x80\x8F"),
        b"&nbsp" => Some(b"\xC2\xA0"),
        _ => None,
    }
}

// What held bytes with a semicolon after them stand for.
fn put_escaped(held: &[u8], room: &mut [u8], at: usize) -> usize
    requires { (length held.now ≤ max_text) × (at ≤ 2 * max_text) }
    ensures { Stores (escaped held.now) at room.old result room.new }
{
    if let Some(text) = meaning(held) {
        return put_part(text, room, at);
    }
    let n = put_part(held, room, at);
    put(b';', room, n)
}

// Where the piece ends that stands at `i`: an ampersand with its name, or what stands before the next ampersand.
#[tactic(auto, unfolding(crate::specs::Turns::piece_end, format::specs::Texts::before_first))]
fn piece_end(s: &[u8], i: usize) -> usize
    requires { i < length s.now }
    ensures { result ≡ piece_end s.now i }
{
    if s[i] == b'&' {
        past(s, i + 1, ByteKind::Alphanumeric)
    } else {
        past(s, i, ByteKind::Until(b'&'))
    }
}

// Is the piece an escape: a semicolon follows the ampersand and its name.
fn is_escape(s: &[u8], i: usize, end: usize) -> bool
    requires { i < length s.now }
    ensures { result ≡ escapes s.now i end }
{
    s[i] == b'&' && is_at(s, end, b';')
}

// A text with its escapes decoded, piece by piece: each turn goes on by a piece's length, so a `while` counts the place.
pub fn put_decoded(s: &[u8], room: &mut [u8], at: usize) -> usize
    requires { (length s.now ≤ max_text) × (at ≤ max_text) }
    ensures { Stores (decoded s.now) at room.old result room.new }
{
    let mut i = 0;
    let mut n = at;
    while i < s.len() {
        let end = piece_end(s, i);
        if is_escape(s, i, end) {
            n = put_escaped(&s[i..end], room, n);
            i = end + 1;
        } else {
            n = put_part(&s[i..end], room, n);
            i = end;
        }
    }
    n
}

// Is a byte one of the separators: full stops between classes, else whitespace.
fn is_separator(stops: bool, b: u8) -> bool
    ensures { result ≡ separates stops b }
{
    if stops { b == b'.' } else { is_white(b) }
}

// The one separator that is left of a run.
fn separator(stops: bool) -> u8
    ensures { result ≡ one stops }
{
    if stops { b'.' } else { b' ' }
}

// A byte that is no separator, after the separator of the gap before it.
fn put_word(stops: bool, gap: bool, c: u8, room: &mut [u8], at: usize) -> usize
    requires { at ≤ 2 * max_text }
    ensures { Stores (word gap (one stops) c) at room.old result room.new }
{
    let n = if gap {
        put(separator(stops), room, at)
    } else {
        at
    };
    put(c, room, n)
}

// A text with its separators collapsed. A gap is a run of separators after a word: its separator is put when another word follows.
pub fn put_collapsed(s: &[u8], stops: bool, room: &mut [u8], at: usize) -> usize
    requires { (length s.now ≤ max_text) × (at ≤ max_text) }
    ensures { Stores (collapsed (separates stops) (one stops) s.now) at room.old result room.new }
{
    let mut n = at;
    let mut gap = false;
    for &c in s {
        if is_separator(stops, c) {
            gap = at < n;
        } else {
            n = put_word(stops, gap, c, room, n);
            gap = false;
        }
    }
    n
}
