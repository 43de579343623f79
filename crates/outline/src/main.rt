// Prints the nodes of the cue text on the standard input, or the refusal.
#![tactic(auto)]

use format::rows::NODE_WORDS;
use std::io;

fn main(rt: HostRuntime) -> io::Result<()> {
    let mut raw = [0u8; 16384];
    let mut room = [0u8; 16384];
    let mut nodes = [[0u64; NODE_WORDS]; 4096];
    listing::trees::show_file(
        &mut rt.stdin(),
        &mut rt.stdout(),
        &mut raw,
        &mut room,
        &mut nodes,
    )
}
