// A part of a text from the two words of its row.
ghost use Rattle.std.specs.Prelude.{◌≡◌};

use format::settings::Span;

pub(crate) fn span(from: u64, to: u64) -> Span
    ensures { result ≡ record { from = from; to = to } }
{
    Span {
        from: from as usize,
        to: to as usize,
    }
}
