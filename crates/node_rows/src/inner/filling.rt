// The second pass over a cue text: the nodes' rows and their strings are stored. The current node's parent and kind come from its row, so a
// node is left by one look at the table.
ghost use Rattle.std.specs.Prelude.{◌≡◌, false, cond, List, ℕ, ◌+◌, ◌≤◌, ◌<◌, eqb, ltb, length};
ghost use Rattle.format.specs.Limits.{max_text};
ghost use Rattle.format.specs.Answers.{placed};
ghost use Rattle.format.specs.CueText.{cue_tokens};
ghost use Rattle.format.specs.Trees.{kind_word, any_time_over, nodes, node_strings, node_words, node_rows};
ghost use Rattle.tokenizer.specs.Tags.{token_is, PartsIn};
ghost use Rattle.nodes.specs.Tokens.{token_classes, made_is};
ghost use Rattle.node_rows.specs.Rows.{up_in, kind_in, left_in, node_below, Puts, Turned, Fits};

use format::OverLimit;
use format::kinds::NodeKind;
use format::rows::{NODE_KIND, NODE_PARENT, NodeRow};
use nodes::inner::tokens::{Made, left_kind, node_of, put_classes, put_value};
use nodes::kinds::{is_kind, kind_numbered};
use tokenizer::Token;

// How far the table and the room are filled, and the current node: 0 for the root, else its index and one.
#[derive(Clone, Copy)]
pub struct Filled {
    pub count: usize,
    pub used: usize,
    pub current: usize,
}

// The parent of a node, by its row.
fn up(rows: &[NodeRow], node: usize) -> usize
    ensures { result ≡ up_in rows.now node }
{
    if node == 0 {
        return 0;
    }
    if rows.len() < node {
        return 0;
    }
    let row = rows[node - 1];
    row[NODE_PARENT] as usize
}

// The kind of a node, by its row.
fn kind_of(rows: &[NodeRow], node: usize) -> Option<NodeKind>
    ensures { result ≡ kind_in rows.now node }
{
    if node == 0 {
        return None;
    }
    if rows.len() < node {
        return None;
    }
    let row = rows[node - 1];
    Some(kind_numbered(row[NODE_KIND]))
}

// The current node after an end tag. `</ruby>` inside a ruby text leaves both.
fn leave(rows: &[NodeRow], node: usize, named: Option<NodeKind>) -> usize
    ensures { result ≡ left_in rows.now node named }
{
    let Some(kind) = kind_of(rows, node) else {
        return node;
    };
    let parent = up(rows, node);
    if is_kind(named, kind) {
        return parent;
    }
    if is_kind(named, NodeKind::Ruby) && is_kind(Some(kind), NodeKind::RubyText) {
        return up(rows, parent);
    }
    node
}

// The words of a place: an empty string is 0, 0.
fn place(from: usize, to: usize, at: usize) -> u64
    ensures { result ≡ cond (eqb from to) 0 at }
{
    if from == to { 0 } else { at as u64 }
}

// The row of a node whose classes stand up to the place where its value starts.
fn row_of(parent: usize, made: Made, from: usize, between: usize, to: usize) -> NodeRow
    ensures { (classes value : List ℕ) → between ≡ from + length classes → to ≡ between + length value → result ≡ node_words from (node_below parent made classes value) }
{
    [
        parent as u64,
        u64::from(made.kind),
        place(from, between, from),
        place(from, between, between),
        place(between, to, between),
        place(between, to, to),
        made.time,
    ]
}

// The current node after a node that was put: the kinds whose word is below 8 have children.
fn entered(current: usize, kind: NodeKind, node: usize) -> usize
    ensures { result ≡ cond (ltb (kind_word kind) 8) node current }
{
    if u64::from(kind) < 8 { node } else { current }
}

// The strings and the row of a token's node.
fn put_node(
    text: &[u8],
    token: Token,
    made: Made,
    filled: Filled,
    room: &mut [u8],
    rows: &mut [NodeRow],
) -> Filled
    requires { (PartsIn text.now 0 (length text.now) token) × (length text.now ≤ max_text) × (filled.used + length (token_classes (token_is text.now token)) ≤ max_text) × (filled.count < length rows.old) }
    ensures { Puts (token_is text.now token) made filled room.old rows.old result room.new rows.new }
{
    let from = filled.used;
    let between = put_classes(text, token, room, from);
    let to = put_value(text, token, made.kind, room, between);
    rows[filled.count] = row_of(filled.current, made, from, between, to);
    let count = filled.count + 1;
    Filled {
        count,
        used: to,
        current: entered(filled.current, made.kind, count),
    }
}

// One token.
fn turn(text: &[u8], token: Token, filled: Filled, room: &mut [u8], rows: &mut [NodeRow]) -> Filled
    requires { (PartsIn text.now 0 (length text.now) token) × (length text.now ≤ max_text) × (Fits (made_is (kind_in rows.old filled.current) (token_is text.now token)) (token_is text.now token) filled rows.old) }
    ensures { Turned (made_is (kind_in rows.old filled.current) (token_is text.now token)) (token_is text.now token) filled room.old rows.old result room.new rows.new }
{
    match node_of(text, token, kind_of(rows, filled.current)) {
        Ok(Some(made)) => put_node(text, token, made, filled, room, rows),
        Ok(None) => Filled {
            current: leave(rows, filled.current, left_kind(text, token)),
            ..filled
        },
        Err(OverLimit) => filled,
    }
}

// Stores the nodes of a text whose times are within their limit, in a room and a table that are long enough.
pub fn fill(text: &[u8], room: &mut [u8], rows: &mut [NodeRow])
    requires { (length text.now ≤ max_text) × (any_time_over (cue_tokens text.now) ≡ false) × (length (node_strings (nodes text.now)) ≤ length room.old) × (length (nodes text.now) ≤ length rows.old) }
    ensures { (room.new ≡ placed (node_strings (nodes text.now)) room.old) × (rows.new ≡ placed (node_rows 0 (nodes text.now)) rows.old) }
{
    let mut at = 0;
    let mut filled = Filled {
        count: 0,
        used: 0,
        current: 0,
    };
    loop {
        let Some(found) = tokenizer::token_at(text, at) else {
            return;
        };
        filled = turn(text, found.token, filled, room, rows);
        at = found.next;
    }
}
