// Prints the written form of what a player would read of the standard input, or the refusal.
#![tactic(auto)]

use format::rows::*;
use std::io;

fn main(rt: HostRuntime) -> io::Result<()> {
    let mut raw = [0u8; 16384];
    let mut text = [0u8; 49152];
    let mut room = [0u8; 65536];
    let mut cues = [[0u64; CUE_WORDS]; 1024];
    let mut regions = [[0u64; REGION_WORDS]; 1024];
    let mut styles = [[0u64; STYLE_WORDS]; 1024];
    file_rewriting::rewrite_file(
        &mut rt.stdin(),
        &mut rt.stdout(),
        &mut raw,
        &mut text,
        &mut cues,
        &mut regions,
        &mut styles,
        &mut room,
    )
}
