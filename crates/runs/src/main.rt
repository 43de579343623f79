// Prints, for each file that an argument names with its folder, its name and what the program that the folder stands for prints of it.
#![tactic(auto)]

mod jobs;

ghost use Rattle.std.specs.Prelude.{◌≤◌, length};

use listing::files;
use std::env::Env;
use std::fs::Files;
use std::io;
use std::io::Write;

// Where the name begins, after the folder and its slash.
fn name_start(path: &[u8]) -> usize
    ensures { result ≤ length path.now }
{
    for i in 0..path.len() {
        if path[i] == b'/' {
            return i + 1;
        }
    }
    path.len()
}

fn print_name<W: Write>(out: &mut W, path: &[u8]) -> io::Result<()> {
    let start = name_start(path);
    out.write_all(b"file\t")?;
    out.write_all(&path[start..])?;
    out.write_all(b"\n")
}

fn run_path<R: Files, W: Write, E: Write>(
    rt: &R,
    out: &mut W,
    err: &mut E,
    path: &[u8],
) -> io::Result<()> {
    print_name(out, path)?;
    match files::open(rt, path) {
        Ok(mut file) => jobs::run(path, &mut file, out),
        Err(why) => files::fail(err, path, why),
    }
}

// Is there an argument of this number. What it names is run.
fn run_argument<R: Files + Env, W: Write, E: Write>(
    rt: &R,
    out: &mut W,
    err: &mut E,
    i: usize,
) -> io::Result<bool> {
    let mut path = [0u8; 256];
    let Some(n) = files::argument(rt, i, &mut path) else {
        return Ok(false);
    };
    run_path(rt, out, err, &path[..n])?;
    Ok(true)
}

// The first argument is the program's own name.
fn main(rt: HostRuntime) -> io::Result<()> {
    let mut out = rt.stdout();
    let mut err = rt.stderr();
    for i in 1..usize::MAX {
        if !run_argument(&rt, &mut out, &mut err, i)? {
            break;
        }
    }
    Ok(())
}
