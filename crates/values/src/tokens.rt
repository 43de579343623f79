// Tokens, parted by whitespace.
ghost use Rattle.std.specs.Prelude.{◌≡◌};
ghost use Rattle.values.specs.Tokens.{span_to};

use format::settings::Span;

// The bytes from one place up to another.
pub fn span(from: usize, to: usize) -> Span
    ensures { result ≡ span_to from to }
{
    if from == to {
        return Span::NONE;
    }
    Span { from, to }
}
