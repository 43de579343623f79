// An open file rewritten, and the answer printed. It is proved that any input is taken, and that it ends inside its memory; what is printed
// is run and compared.
#![tactic(auto)]

use format::rows::{CueRow, RegionRow, StyleRow};
use listing::input;
use std::io;
use std::io::{Read, Write};
use values::bytes::part;

// Prints the written form of what an open file reads as, or the line of the refusal. More input than `raw` holds is refusal 1. The written
// form goes to `room`.
pub fn rewrite_file<R: Read, W: Write>(
    file: &mut R,
    out: &mut W,
    raw: &mut [u8],
    text: &mut [u8],
    cues: &mut [CueRow],
    regions: &mut [RegionRow],
    styles: &mut [StyleRow],
    room: &mut [u8],
) -> io::Result<()> {
    let n = input::fill(file, raw)?;
    if listing::refuse_more(file, out)? {
        return Ok(());
    }
    match rewriting::rewrite(&raw[..n], text, cues, regions, styles, room) {
        Ok(length) => out.write_all(part(room, 0, length)),
        Err(why) => listing::refuse(out, answers::number(why)),
    }
}
