// Prints the nodes of a cue text, a line each, or the refusal.
ghost use Rattle.std.specs.Prelude.{◌≡◌, [], IfOk, OnErr, length};
ghost use Rattle.format.specs.Answers.{accepted, answered, refusal_number};
ghost use Rattle.format.specs.Trees.{tree_error, treeing, tree_room, tree_table};

use super::{input, node_lines};
use format::TreeError;
use format::rows::NodeRow;
use std::io;
use std::io::{Read, Write};

// Prints the lines of a cue text. The strings of its nodes go to `room`, and their rows to the table. Where reading refuses, nothing is printed,
// and why is handed back.
#[tactic(auto, unfolding(format::specs::Answers::refusal_number, format::specs::Trees::tree_is))]
pub(crate) fn show<W: Write>(
    out: &mut W,
    text: &[u8],
    room: &mut [u8],
    nodes: &mut [NodeRow],
) -> io::Result<Result<(), TreeError>>
    ensures number { IfOk result (λ shown. refusal_number (answered (λ _. accepted []) tree_error shown) ≡ refusal_number (treeing text.now (length room.old) (length nodes.old))) }
    ensures err { OnErr result (refusal_number (treeing text.now (length room.old) (length nodes.old)) ≡ 0) }
    ensures room { room.new ≡ tree_room text.now room.old (length nodes.old) }
    ensures nodes { nodes.new ≡ tree_table text.now (length room.old) nodes.old }
{
    match markup::tree(text, room, nodes) {
        Ok(size) => {
            node_lines::print_all(out, room, nodes, size.count)?;
            Ok(Ok(()))
        }
        Err(why) => Ok(Err(why)),
    }
}

// Prints the lines of an open file, read into `raw` and taken as it is, or the line of the refusal. More input than `raw` holds is refusal 1.
pub fn show_file<R: Read, W: Write>(
    file: &mut R,
    out: &mut W,
    raw: &mut [u8],
    room: &mut [u8],
    nodes: &mut [NodeRow],
) -> io::Result<()> {
    let n = input::fill(file, raw)?;
    if super::refuse_more(file, out)? {
        return Ok(());
    }
    match show(out, &raw[..n], room, nodes)? {
        Ok(()) => Ok(()),
        Err(why) => super::refuse(out, answers::number(why)),
    }
}
