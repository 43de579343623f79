// Has a cue's setting a number above its limit: all that the first pass over a file asks of the settings. Of these only a line number can be.
ghost use Rattle.std.specs.Prelude.{◌≡◌, ◌≤◌, length, drop};
ghost use Rattle.format.specs.Tokens.{tokens};
ghost use Rattle.format.specs.CueSettings.{opening_settings, is_over, named};
ghost use Rattle.cue_settings.specs.Overs.{token_over, any_token_over};

use super::steps::line_change;
use format::settings::{LineAlign, Span};
use values::bytes::same_bytes;
use values::inner::tokens::{name_end, next_token};

// The setting of this name, whose value stands from `from` up to the end of `s`.
fn setting_over(name: &[u8], s: &[u8], from: usize) -> bool
    requires { from ≤ length s.now }
    ensures { result ≡ is_over (named name.now (drop from s.now) opening_settings) }
{
    if !same_bytes(name, b"line") {
        return false;
    }
    line_change(&s[from..], LineAlign::Start).is_over()
}

// The token from `from` up to the end of `s`.
fn token_over(s: &[u8], from: usize) -> bool
    requires { from ≤ length s.now }
    ensures { result ≡ token_over (record { place = from; bytes = drop from s.now }) }
{
    match name_end(s, from) {
        Some(colon) => setting_over(&s[from..colon], s, colon + 1),
        None => false,
    }
}

// The tokens from `from` on.
pub(crate) fn any_token_over(s: &[u8], from: usize) -> bool
    requires { from ≤ length s.now }
    ensures { result ≡ any_token_over (tokens from (drop from s.now)) }
{
    let mut i = from;
    while let Some(Span { from: at, to }) = next_token(s, i) {
        if token_over(&s[..to], at) {
            return true;
        }
        i = to;
    }
    false
}
