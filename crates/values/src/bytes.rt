// Bytes, runs of bytes, parts of a text, and texts compared.
ghost use Rattle.std.specs.Prelude.{◌≡◌, [], ◌∷◌, ◌+◌, length, drop};
ghost use Rattle.format.specs.Bytes.{digit, white};
ghost use Rattle.format.specs.Texts.{same, starts_with, run, bytes_at};
ghost use Rattle.values.specs.Runs.{passes};

#[tactic(auto, unfolding(format::specs::Bytes::digit))]
pub fn is_digit(b: u8) -> bool
    ensures { result ≡ digit b }
{
    b.is_ascii_digit()
}

#[tactic(auto, unfolding(format::specs::Bytes::white))]
pub fn is_white(b: u8) -> bool
    ensures { result ≡ white b }
{
    matches!(b, b' ' | b'\t' | b'\n' | 0x0C | b'\r')
}

// Does this byte stand at `at`.
pub fn is_at(s: &[u8], at: usize, b: u8) -> bool
    ensures { result ≡ starts_with (b ∷ []) (drop at s.now) }
{
    s.get(at) == Some(&b)
}

// What a run is made of.
#[derive(Clone, Copy)]
pub enum ByteKind {
    White,
    // All but whitespace.
    Token,
    Digits,
    // ASCII letters and digits.
    Alphanumeric,
    // All but this byte.
    Until(u8),
    Only(u8),
}

#[tactic(auto, unfolding(format::specs::Bytes::alphanumeric, format::specs::Bytes::digit))]
fn goes_on(kind: ByteKind, b: u8) -> bool
    ensures { result ≡ passes kind b }
{
    match kind {
        ByteKind::White => is_white(b),
        ByteKind::Token => !is_white(b),
        ByteKind::Digits => is_digit(b),
        ByteKind::Alphanumeric => b.is_ascii_alphanumeric(),
        ByteKind::Until(c) => b != c,
        ByteKind::Only(c) => b == c,
    }
}

// Where the run that stands at `at` ends; after the text that is `at` itself.
pub fn past(s: &[u8], at: usize, kind: ByteKind) -> usize
    ensures { result ≡ at + length (run (passes kind) (drop at s.now)) }
{
    // With a `for`, over places or over what is left, the lines of a file are read a fifth slower or more.
    let mut i = at;
    while i < s.len() {
        if !goes_on(kind, s[i]) {
            return i;
        }
        i += 1;
    }
    i
}

// The bytes of a text from one place up to another, as far as the text has them.
pub fn part<'a>(text: &'a [u8], from: usize, to: usize) -> &'a [u8]
    ensures { result.now ≡ bytes_at text.now from to }
{
    let end = to.min(text.len());
    &text[from.min(end)..end]
}

// Are these the same bytes.
pub fn same_bytes(a: &[u8], b: &[u8]) -> bool
    ensures { result ≡ same a.now b.now }
{
    a == b
}
