// Lines by their numbers: where a line of a raw file starts and ends. A line is sought from one before it, so that the bytes of a long file
// are gone over once.
ghost use Rattle.std.specs.Prelude.{◌≡◌, ◌+◌, ◌<◌, length, get_or, drop};
ghost use Rattle.format.specs.Replacing.{raw_start, raw_end};
ghost use Rattle.places.specs.Places.{ends_line};

// Where the line of a raw file starts that is `n` lines after the one that starts at `from`; the file's end where it has fewer lines.
pub fn raw_start(raw: &[u8], from: usize, n: usize) -> usize
    ensures { result ≡ from + raw_start (drop from raw.now) n }
{
    let mut left = n;
    for i in from..raw.len() {
        if left == 0 {
            return i;
        }
        if ends_line(raw, i) {
            left -= 1;
        }
    }
    raw.len().max(from)
}

// Does a line end after the byte at a place: at LF, or at CR that is not before LF.
#[tactic(auto, unfolding(crate::specs::Places::ends_line))]
fn ends_line(raw: &[u8], at: usize) -> bool
    requires { at < length raw.now }
    ensures { result ≡ ends_line (get_or raw.now at 0) (drop (at + 1) raw.now) }
{
    match raw[at] {
        b'\n' => true,
        b'\r' => !values::bytes::is_at(raw, at + 1, b'\n'),
        _ => false,
    }
}

// Where the line of a raw file ends that is `n` lines after the one that starts at `from`, its terminator excluded.
pub fn raw_end(raw: &[u8], from: usize, n: usize) -> usize
    ensures { result ≡ from + raw_end (drop from raw.now) n }
{
    let start = raw_start(raw, from, n);
    for i in start..raw.len() {
        if raw[i] == b'\n' || raw[i] == b'\r' {
            return i;
        }
    }
    raw.len().max(start)
}
