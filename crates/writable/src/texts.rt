// What document 01 asks of the bytes of an identifier and of a text that is to be written.
ghost use Rattle.std.specs.Prelude.{◌≡◌, not, ◌&&◌};
ghost use Rattle.format.specs.Bytes.{lf, white};
ghost use Rattle.format.specs.Texts.{has, all};
ghost use Rattle.format.specs.Lines.{split};
ghost use Rattle.format.specs.Blocks.{holds_arrow};
ghost use Rattle.format.specs.Writable.{none_empty, unbroken};

use values::bytes::is_white;

// Does the text hold `-->`.
fn holds_arrow(s: &[u8]) -> bool
    ensures { result ≡ holds_arrow s.now }
{
    // How many hyphens stand before this place, two at most.
    let mut hyphens: usize = 0;
    for &b in s {
        if b == b'-' {
            if hyphens < 2 {
                hyphens += 1;
            }
        } else {
            if b == b'>' {
                if hyphens == 2 {
                    return true;
                }
            }
            hyphens = 0;
        }
    }
    false
}

// Is no line of the text empty.
fn none_empty(s: &[u8]) -> bool
    ensures { result ≡ none_empty (split s.now) }
{
    let mut fresh = true;
    for &b in s {
        if b == b'\n' {
            if fresh {
                return false;
            }
            fresh = true;
        } else {
            fresh = false;
        }
    }
    !fresh
}

// Has the text no empty line and no `-->`.
#[tactic(auto, unfolding(format::specs::Writable::unbroken))]
pub(crate) fn is_unbroken(s: &[u8]) -> bool
    ensures { result ≡ unbroken s.now }
{
    none_empty(s) && !holds_arrow(s)
}

// Has the text no LF.
fn no_line_end(s: &[u8]) -> bool
    ensures { result ≡ not (has lf s.now) }
{
    for &b in s {
        if b == b'\n' {
            return false;
        }
    }
    true
}

// Has the text no LF and no `-->`.
pub(crate) fn is_identifier(s: &[u8]) -> bool
    ensures { result ≡ not (has lf s.now) && not (holds_arrow s.now) }
{
    no_line_end(s) && !holds_arrow(s)
}

// Has the text no ASCII whitespace.
fn no_white(s: &[u8]) -> bool
    ensures { result ≡ all (λ b. not (white b)) s.now }
{
    for &b in s {
        if is_white(b) {
            return false;
        }
    }
    true
}

// Has the text no ASCII whitespace and no `-->`.
pub(crate) fn is_region_identifier(s: &[u8]) -> bool
    ensures { result ≡ all (λ b. not (white b)) s.now && not (holds_arrow s.now) }
{
    no_white(s) && !holds_arrow(s)
}
