// One cue's text read into a flat list of nodes. Any bytes and any room and table are taken, and nothing is asked of the caller.
#![tactic(auto)]

ghost use Rattle.std.specs.Prelude.{◌≡◌, ◌≤◌, length, take};
ghost use Rattle.format.specs.Limits.{max_text};
ghost use Rattle.format.specs.Trees.{tree_is, treeing, tree_room, tree_table, TreeStands};
ghost use Rattle.format.specs.declared.TreeSize.{TreeSize};
ghost use Rattle.node_sizes.specs.Needs.{Sized};
ghost use Rattle.markup.specs.Answering.{sized_answer, timed_answer, Answers};

use format::rows::NodeRow;
use format::{TreeError, TreeSize};

// The checks 2 and 6, and the nodes, of a text that has so many nodes and so many bytes in their strings.
fn read_sized(
    text: &[u8],
    size: TreeSize,
    room: &mut [u8],
    nodes: &mut [NodeRow],
) -> Result<TreeSize, TreeError>
    requires { (length text.now ≤ max_text) × (Sized text.now size) }
    ensures { Answers (sized_answer text.now (length room.old) (length nodes.old)) text.now result room.old room.new nodes.old nodes.new }
{
    if room.len() < size.used {
        return Err(TreeError::RoomTooShort(size.used));
    }
    if nodes.len() < size.count {
        return Err(TreeError::TableTooShort(size.count));
    }
    node_rows::inner::filling::fill(text, room, nodes);
    Ok(size)
}

// Check 5 and those after it.
fn read_plain(text: &[u8], room: &mut [u8], nodes: &mut [NodeRow]) -> Result<TreeSize, TreeError>
    requires { length text.now ≤ max_text }
    ensures { Answers (timed_answer text.now (length room.old) (length nodes.old)) text.now result room.old room.new nodes.old nodes.new }
{
    let size = node_sizes::inner::measuring::need_of(text)?;
    read_sized(text, size, room, nodes)
}

// Reads one cue's text into nodes: their strings stand in the room one after the other from its start, and their rows in the table.
pub fn tree(text: &[u8], room: &mut [u8], nodes: &mut [NodeRow]) -> Result<TreeSize, TreeError>
    ensures answer { tree_is result ≡ treeing text.now (length room.old) (length nodes.old) }
    ensures room { room.new ≡ tree_room text.now room.old (length nodes.old) }
    ensures nodes { nodes.new ≡ tree_table text.now (length room.old) nodes.old }
    ensures stands { (size : TreeSize) → result ≡ Ok size → TreeStands text.now (take size.used room.new) (take size.count nodes.new) }
{
    if format::MAX_TEXT < text.len() {
        return Err(TreeError::TooLong);
    }
    if let Some(at) = plain::first_not_plain(text) {
        return Err(TreeError::NotPlainAt(at));
    }
    read_plain(text, room, nodes)
}
