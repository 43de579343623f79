// The fields of a line, parted by tabs: where they stand, how many there are, and the numbers and escaped texts that they hold. Any bytes are
// taken, and each answer is exactly what the definitions in `format` say of them.
#![tactic(auto)]

ghost use Rattle.std.specs.Prelude.{◌≤◌, ◌≡◌, [], get_or, drop, option_map};
ghost use Rattle.std.proofs.Math.ListN as Lists;
ghost use Rattle.format.specs.Fields.{fields, field_number, escapes, unescaped};
ghost use Rattle.output.specs.Puts.{Puts};
ghost use Rattle.fields.specs.Fields.{begins_well, digits_from, step_is, text_of, IsGood};

use output::Output;
use values::bytes::{ByteKind, is_digit, past};

// The field with this number, counted from 0; an empty one after the last.
pub fn nth<'a>(line: &'a [u8], k: usize) -> &'a [u8]
    ensures { result.now ≡ get_or (fields line.now) k [] }
{
    let mut at = 0;
    for _ in 0..k {
        at = past(line, at, ByteKind::Until(b'\t')) + 1;
        if line.len() < at {
            return &line[..0];
        }
    }
    let end = past(line, at, ByteKind::Until(b'\t'));
    &line[at..end]
}

// How many fields a line has.
pub fn count(line: &[u8]) -> usize
    ensures { result ≡ Lists.length (fields line.now) }
{
    line.iter().filter(|&&b| b == b'\t').count() + 1
}

// Are there 1 to 12 bytes, and is the first a zero only where it is alone.
fn begins_well(field: &[u8]) -> bool
    ensures { result ≡ begins_well field.now }
{
    match field {
        [] => false,
        [_] => true,
        [first, ..] => *first != b'0' && field.len() <= 12,
    }
}

// The value of at most 12 digits; none where another byte is among them.
fn digits(field: &[u8]) -> Option<u64>
    requires { Lists.length field.now ≤ 12 }
    ensures { result ≡ digits_from 0 field.now }
{
    let mut n = 0;
    for &b in field {
        if !is_digit(b) {
            return None;
        }
        n = n * 10 + (b - b'0') as u64;
    }
    Some(n)
}

// The number that a field holds: 1 to 12 digits, no zero first that could be left out.
pub fn read_number(field: &[u8]) -> Option<u64>
    ensures { result ≡ field_number field.now }
{
    if !begins_well(field) {
        return None;
    }
    digits(field)
}

// What a byte stands for after a backslash.
fn escaped_byte(b: u8) -> Option<u8>
    ensures { result ≡ escapes b }
{
    match b {
        b'\\' => Some(b'\\'),
        b't' => Some(b'\t'),
        b'n' => Some(b'\n'),
        _ => None,
    }
}

// A backslash without one of the letters after it that make an escape.
#[derive(Clone, Copy)]
pub struct BadEscape;

// One byte of the text that a field stands for, and the place after what gives it.
#[derive(Clone, Copy)]
pub struct FieldByte {
    pub value: u8,
    pub next: usize,
}

// The byte that stands at a place of a field; none at its end.
pub fn step(field: &[u8], at: usize) -> Result<Option<FieldByte>, BadEscape>
    ensures { result ≡ step_is at (drop at field.now) }
{
    if field.len() <= at {
        return Ok(None);
    }
    if field[at] != b'\\' {
        return Ok(Some(FieldByte {
            value: field[at],
            next: at + 1,
        }));
    }
    if field.len() <= at + 1 {
        return Err(BadEscape);
    }
    match escaped_byte(field[at + 1]) {
        None => Err(BadEscape),
        Some(value) => Ok(Some(FieldByte {
            value,
            next: at + 2,
        })),
    }
}

// How long the text is that a field stands for; none where it stands for none.
pub fn length(field: &[u8]) -> Option<usize>
    ensures { result ≡ option_map Lists.length (unescaped field.now) }
{
    let mut at = 0;
    let mut n = 0;
    while let Some(byte) = step(field, at).ok()? {
        at = byte.next;
        n += 1;
    }
    Some(n)
}

// Puts the text that a good field stands for.
fn put_steps(field: &[u8], out: &mut Output)
    requires { IsGood (unescaped field.now) }
    ensures { Puts (text_of (unescaped field.now)) out.old out.new }
{
    let mut at = 0;
    while let Ok(Some(byte)) = step(field, at) {
        out.byte(byte.value);
        at = byte.next;
    }
}

// Puts the text that a field stands for; nothing where the field is bad.
pub fn put(field: &[u8], out: &mut Output)
    ensures { Puts (text_of (unescaped field.now)) out.old out.new }
{
    if length(field).is_some() {
        put_steps(field, out);
    }
}
