// Raw bytes to plain text, and the test that a text is plain. Any bytes are taken, of any length, and nothing is asked of the caller.
#![tactic(auto)]

ghost use Rattle.std.specs.Prelude.{◌≡◌, true, ◌+◌, ◌<◌, ◌≤◌, length, drop};
ghost use Rattle.format.specs.Limits.{max_file};
ghost use Rattle.format.specs.Plain.{drop_bom, to_plain, first_not_plain};
ghost use Rattle.format.specs.Answers.{placed};
ghost use Rattle.format.specs.Converting.{converted_is, converting, converted_room, plainness_is, testing};

use format::ConvertError;
use pieces::Piece;

mod pieces;
mod sequences;

// The plain text of a raw file, at the start of the room.
pub fn convert(raw: &[u8], room: &mut [u8]) -> Result<usize, ConvertError>
    ensures answer { converted_is result ≡ converting raw.now (length room.old) }
    ensures room { room.new ≡ converted_room raw.now room.old }
{
    if raw.len() > format::MAX_FILE {
        return Err(ConvertError::TooLong);
    }
    let bytes = without_mark(raw);
    // A room of three times the length is always enough, and then the bytes are gone over once.
    if room.len() < 3 * raw.len() {
        let need = measure(bytes);
        if room.len() < need {
            return Err(ConvertError::RoomTooShort(need));
        }
    }
    Ok(write(bytes, room))
}

// The first place of a text that holds CR, NUL or a byte of no well-formed sequence; none where the text is plain.
pub fn first_not_plain(text: &[u8]) -> Option<usize>
    ensures { plainness_is result ≡ testing text.now }
{
    let at = plain_len(text);
    if at < text.len() { Some(at) } else { None }
}

// The file's bytes after the byte order mark that it may start with.
fn without_mark(raw: &[u8]) -> &[u8]
    ensures { result.now ≡ drop_bom raw.now }
{
    raw.strip_prefix(b"\xEF\xBB\xBF").unwrap_or(raw)
}

// The length of the text that the bytes give.
fn measure(s: &[u8]) -> usize
    requires { length s.now ≤ max_file }
    ensures { result ≡ length (to_plain s.now) }
{
    let mut i = 0;
    let mut n: usize = 0;
    // A `while`: a turn passes one piece, of one byte or more.
    while i < s.len() {
        if pieces::stays(s[i]) {
            i += 1;
            n += 1;
        } else {
            let p = pieces::piece_at(s, i);
            i += p.taken();
            n += p.size();
        }
    }
    n
}

// Writes that text at the start of the room, which is long enough, and hands back its length.
fn write(s: &[u8], room: &mut [u8]) -> usize
    requires { length (to_plain s.now) ≤ length room.old }
    ensures { (result ≡ length (to_plain s.now)) × (room.new ≡ placed (to_plain s.now) room.old) }
{
    let mut i = 0;
    let mut n: usize = 0;
    // A `while`, as in `measure`.
    while i < s.len() {
        let b = s[i];
        if pieces::stays(b) {
            room[n] = b;
            i += 1;
            n += 1;
        } else {
            let p = pieces::piece_at(s, i);
            pieces::put(s, i, p, room, n);
            i += p.taken();
            n += p.size();
        }
    }
    n
}

// How many bytes stand before the first that is not plain.
fn plain_len(s: &[u8]) -> usize
    ensures { result ≡ first_not_plain s.now }
{
    let mut i = 0;
    // A `while`, as in `measure`.
    while i < s.len() {
        if pieces::stays(s[i]) {
            i += 1;
        } else {
            match pieces::piece_at(s, i) {
                Piece::Keep(n) => i += n,
                _ => return i,
            }
        }
    }
    i
}
