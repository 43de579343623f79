// Replaces one cue of the file on the standard input, as the request line before it asks, and prints the new file or the refusal.
#![tactic(auto)]

use std::io;

fn main(rt: HostRuntime) -> io::Result<()> {
    // A request line of 4,096 bytes, its LF, and a file of 16,384.
    let mut input = [0u8; 20481];
    let mut text = [0u8; 49152];
    let mut room = [0u8; 65536];
    file_mending::mend_file(
        &mut rt.stdin(),
        &mut rt.stdout(),
        &mut input,
        &mut text,
        &mut room,
    )
}
