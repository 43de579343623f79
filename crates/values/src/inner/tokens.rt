// Tokens of a text from a place on, and their names.
ghost use Rattle.std.specs.Prelude.{◌≤◌, length};
ghost use Rattle.values.specs.Tokens.{TokenAt, NameAt};

use crate::bytes::{ByteKind, past};
use format::settings::Span;

// The first token that stands at `i` or after it.
pub fn next_token(s: &[u8], i: usize) -> Option<Span>
    requires { i ≤ length s.now }
    ensures { TokenAt s.now i result }
{
    let from = past(s, i, ByteKind::White);
    if from == s.len() {
        return None;
    }
    let to = past(s, from, ByteKind::Token);
    Some(Span { from, to })
}

// Where the first colon of the token from `from` up to the end of `s` stands; none where it is missing, first or last.
pub fn name_end(s: &[u8], from: usize) -> Option<usize>
    requires { from ≤ length s.now }
    ensures { NameAt s.now from result }
{
    let token = &s[from..];
    let colon = past(token, 0, ByteKind::Until(b':'));
    if colon == 0 {
        return None;
    }
    if token.len() <= colon + 1 {
        return None;
    }
    Some(from + colon)
}
