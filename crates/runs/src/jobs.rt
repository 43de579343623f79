// What the programs do, each with an open file and arrays of its own, as long as the program's.
use format::rows::*;
use std::io;
use std::io::{Read, Write};

// As `inspect`.
fn list<R: Read, W: Write>(file: &mut R, out: &mut W) -> io::Result<()> {
    let mut raw = [0u8; 16384];
    let mut text = [0u8; 49152];
    let mut cues = [[0u64; CUE_WORDS]; 1024];
    let mut regions = [[0u64; REGION_WORDS]; 1024];
    let mut styles = [[0u64; STYLE_WORDS]; 1024];
    listing::show_file(
        file,
        out,
        &mut raw,
        &mut text,
        &mut cues,
        &mut regions,
        &mut styles,
    )
}

// As `rewrite`.
fn rewrite<R: Read, W: Write>(file: &mut R, out: &mut W) -> io::Result<()> {
    let mut raw = [0u8; 16384];
    let mut text = [0u8; 49152];
    let mut room = [0u8; 65536];
    let mut cues = [[0u64; CUE_WORDS]; 1024];
    let mut regions = [[0u64; REGION_WORDS]; 1024];
    let mut styles = [[0u64; STYLE_WORDS]; 1024];
    file_rewriting::rewrite_file(
        file,
        out,
        &mut raw,
        &mut text,
        &mut cues,
        &mut regions,
        &mut styles,
        &mut room,
    )
}

// As `mend`.
fn mend<R: Read, W: Write>(file: &mut R, out: &mut W) -> io::Result<()> {
    // A request line of 4,096 bytes, its LF, and a file of 16,384.
    let mut input = [0u8; 20481];
    let mut text = [0u8; 49152];
    let mut room = [0u8; 65536];
    file_mending::mend_file(file, out, &mut input, &mut text, &mut room)
}

// As `outline`.
fn outline<R: Read, W: Write>(file: &mut R, out: &mut W) -> io::Result<()> {
    let mut raw = [0u8; 16384];
    let mut room = [0u8; 16384];
    let mut nodes = [[0u64; NODE_WORDS]; 4096];
    listing::trees::show_file(file, out, &mut raw, &mut room, &mut nodes)
}

// Nothing where the path's first letter begins the name of no folder: lists, rewritten, mended, outlined.
pub(crate) fn run<R: Read, W: Write>(path: &[u8], file: &mut R, out: &mut W) -> io::Result<()> {
    if path.len() == 0 {
        return Ok(());
    }
    match path[0] {
        b'l' => list(file, out),
        b'r' => rewrite(file, out),
        b'm' => mend(file, out),
        b'o' => outline(file, out),
        _ => Ok(()),
    }
}
