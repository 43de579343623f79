// Runs the test vectors in the files that the arguments name, line by line: `plain` has bytes to be converted, `timing` texts to be read.
#![tactic(auto)]

use listing::{files, input};
use std::env::Env;
use std::fs::Files;
use std::io;
use std::io::Write;

mod plain_lines;
mod timing_lines;

fn run_line<W: Write>(out: &mut W, kind: u8, line: &[u8]) -> io::Result<()> {
    match kind {
        b'p' => plain_lines::run(out, line),
        _ => timing_lines::run(out, line),
    }
}

fn run<W: Write>(out: &mut W, kind: u8, input: &[u8]) -> io::Result<()> {
    let mut start = 0;
    for i in 0..input.len() {
        if input[i] == b'\n' {
            run_line(out, kind, &input[start..i])?;
            start = i + 1;
        }
    }
    Ok(())
}

// The name's first letter tells the kind of its lines.
fn run_file<R: Files, W: Write, E: Write>(
    rt: &R,
    out: &mut W,
    err: &mut E,
    kind: u8,
    name: &[u8],
) -> io::Result<()> {
    match files::open(rt, name) {
        Ok(mut file) => {
            let mut input = [0u8; 65536];
            let n = input::fill(&mut file, &mut input)?;
            run(out, kind, &input[..n])
        }
        Err(why) => files::fail(err, name, why),
    }
}

// One that is missing is as one that names no file.
fn run_argument<R: Files + Env, W: Write, E: Write>(
    rt: &R,
    out: &mut W,
    err: &mut E,
    i: usize,
) -> io::Result<()> {
    let mut name = [0u8; 256];
    let n = files::argument(rt, i, &mut name).unwrap_or(0);
    run_file(rt, out, err, name[0], &name[..n])
}

// The first argument is the program's own name.
fn main(rt: HostRuntime) -> io::Result<()> {
    let mut out = rt.stdout();
    let mut err = rt.stderr();
    run_argument(&rt, &mut out, &mut err, 1)?;
    run_argument(&rt, &mut out, &mut err, 2)
}
