// The tokens of a cue text, each as parts of the text. Any text and any place in it are taken.
#![tactic(auto)]

pub mod reader;

ghost use Rattle.std.specs.Prelude.{◌≡◌, ◌+◌, ◌≤◌, length, drop};
ghost use Rattle.format.specs.Texts.{run};
ghost use Rattle.format.specs.CueText.{blank};
ghost use Rattle.tokenizer.specs.Tags.{in_name, start_told, tag_is, step_is};
ghost use Rattle.tokenizer.specs.Reader.{moved_to};

use format::settings::Span;
pub use reader::{Tokenizer, token_at};
use values::bytes::{ByteKind, is_digit, past};

#[derive(Clone, Copy)]
pub enum Token {
    // Text with its escapes.
    String(Span),
    // A start tag: its name, what stands between the name and the annotation, and the annotation, each as it is written.
    Start {
        name: Span,
        classes: Span,
        annotation: Span,
    },
    End(Span),
    Timestamp(Span),
}

// A token, and where the next one begins.
#[derive(Clone, Copy)]
pub struct Stepped {
    pub token: Token,
    pub next: usize,
}

#[tactic(auto, unfolding(format::specs::CueText::blank))]
fn is_blank(b: u8) -> bool
    ensures { result ≡ blank b }
{
    matches!(b, b'\t' | b'\n' | 0x0C | b' ')
}

// Does a tag's name go on with this byte; where no full stop ends it, its name and its classes.
#[tactic(auto, unfolding(crate::specs::Tags::in_name))]
fn goes_on(stops: bool, b: u8) -> bool
    ensures { result ≡ in_name stops b }
{
    !is_blank(b) && !(stops && b == b'.')
}

// How long the name, or the name and the classes, at the text's start is.
fn name_length(s: &[u8], stops: bool) -> usize
    ensures is { result ≡ length (run (in_name stops) s.now) }
    ensures within { result ≤ length s.now }
{
    for (i, &b) in s.iter().enumerate() {
        if !goes_on(stops, b) {
            return i;
        }
    }
    s.len()
}

// The start tag of what stands from one place up to another.
fn start_tag(text: &[u8], from: usize, to: usize) -> Token
    requires { (from ≤ to) × (to ≤ length text.now) }
    ensures { result ≡ start_told text.now from to }
{
    let classes = from + name_length(&text[from..to], true);
    let annotation = classes + name_length(&text[classes..to], false);
    Token::Start {
        name: Span { from, to: classes },
        classes: Span {
            from: classes,
            to: annotation,
        },
        annotation: Span {
            from: annotation,
            to,
        },
    }
}

// The tag of what stands between `<` and `>`.
fn tag(text: &[u8], from: usize, to: usize) -> Token
    requires { (from ≤ to) × (to ≤ length text.now) }
    ensures { result ≡ tag_is text.now from to }
{
    if to <= from {
        return start_tag(text, from, to);
    }
    let b = text[from];
    if b == b'/' {
        return Token::End(Span { from: from + 1, to });
    }
    if is_digit(b) {
        return Token::Timestamp(Span { from, to });
    }
    start_tag(text, from, to)
}

// The token that begins at a place; none at the text's end. A tag ends at the first `>`, text at the next `<`.
fn step(text: &[u8], at: usize) -> Option<Stepped>
    ensures { result ≡ step_is text.now at }
{
    if text.len() <= at {
        return None;
    }
    if text[at] != b'<' {
        let to = past(text, at, ByteKind::Until(b'<'));
        let token = Token::String(Span { from: at, to });
        return Some(Stepped { token, next: to });
    }
    let from = at + 1;
    let to = past(text, from, ByteKind::Until(b'>'));
    let token = tag(text, from, to);
    let next = if to < text.len() { to + 1 } else { to };
    Some(Stepped { token, next })
}

// Where the next token begins after a step; where there is none, the same place.
fn place_after(stepped: Option<Stepped>, at: usize) -> usize
    ensures { result ≡ moved_to stepped at }
{
    match stepped {
        Some(found) => found.next,
        None => at,
    }
}
