// The lines of the nodes.
use super::printing;
use format::rows::{
    NODE_CLASSES_FROM, NODE_CLASSES_TO, NODE_KIND, NODE_PARENT, NODE_TIME, NODE_VALUE_FROM,
    NODE_VALUE_TO, NodeRow,
};
use std::io;
use std::io::Write;

// The word of a timestamp, the one kind whose value is a number.
const TIMESTAMP: u64 = 9;

fn print_value<W: Write>(out: &mut W, room: &[u8], row: NodeRow) -> io::Result<()> {
    if row[NODE_KIND] == TIMESTAMP {
        return printing::number(out, row[NODE_TIME]);
    }
    printing::part(out, room, row[NODE_VALUE_FROM], row[NODE_VALUE_TO])
}

fn print_row<W: Write>(out: &mut W, room: &[u8], number: usize, row: NodeRow) -> io::Result<()> {
    printing::digits(out, number as u64)?;
    printing::choice(
        out,
        &[
            b"class",
            b"italic",
            b"bold",
            b"underline",
            b"ruby",
            b"ruby-text",
            b"voice",
            b"language",
            b"string",
            b"timestamp",
        ],
        row[NODE_KIND],
    )?;
    printing::index(out, row[NODE_PARENT], b"\t-")?;
    printing::part(out, room, row[NODE_CLASSES_FROM], row[NODE_CLASSES_TO])?;
    print_value(out, room, row)?;
    printing::print(out, b"\n")
}

// The first `count` rows, a line each; all where there are fewer.
pub(crate) fn print_all<W: Write>(
    out: &mut W,
    room: &[u8],
    nodes: &[NodeRow],
    count: usize,
) -> io::Result<()> {
    printing::rows(
        out,
        nodes,
        count,
        |out, number, row| print_row(out, room, number, row),
    )
}
