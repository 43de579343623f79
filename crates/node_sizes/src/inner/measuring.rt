// The first pass over a cue text: how many nodes it has and how long their strings are, or that a time is above its limit. The table of nodes
// may be too short, so the kinds of the open nodes are kept here, on a stack in words of this pass's own.
ghost use Rattle.std.specs.Prelude.{◌≡◌, ◌+◌, ◌*◌, ◌≤◌, ◌<◌, ◌∷◌, cond, ltb, length};
ghost use Rattle.format.specs.Trees.{kind_word};
ghost use Rattle.format.specs.Limits.{max_text};
ghost use Rattle.tokenizer.specs.Tags.{token_is, PartsIn};
ghost use Rattle.nodes.specs.Tokens.{token_classes, token_value};
ghost use Rattle.stack.specs.Kinds.{kinds};
ghost use Rattle.node_laws.specs.Sizes.{top_kind, leaving_kinds};
ghost use Rattle.node_sizes.specs.Needs.{NeedIs};
ghost use Rattle.node_sizes.specs.Turns.{opened, Ready, TurnIs};

use format::kinds::NodeKind;
use format::{OverLimit, TreeSize};
use nodes::inner::tokens::{left_kind, node_of, put_classes, put_value};
use nodes::kinds::{is_kind, kind_numbered};
use stack::inner::kinds::Stack;
use tokenizer::Token;

// What the tokens passed so far come to: the open nodes, and how many nodes and bytes of strings there are.
#[derive(Drop)]
struct Measured<'a> {
    stack: Stack<'a>,
    count: usize,
    used: usize,
}

// The kind of the node that is on top.
fn top_kind(path: &Stack) -> Option<NodeKind>
    ensures { result ≡ top_kind (opened path.now) }
{
    let word = path.top()?;
    Some(kind_numbered(word))
}

// Takes off the nodes that a token leaves which names this kind. `</ruby>` inside a ruby text leaves both.
fn leave(path: &mut Stack, named: Option<NodeKind>)
    ensures is { opened path.new ≡ leaving_kinds named (opened path.old) }
    ensures long { length path.new.words.now ≡ length path.old.words.now }
{
    let Some(kind) = top_kind(path) else {
        return;
    };
    if is_kind(named, kind) {
        path.pop();
    } else if is_kind(named, NodeKind::Ruby) && is_kind(Some(kind), NodeKind::RubyText) {
        path.pop();
        path.pop();
    }
}

// Puts a node of this kind on where it has children: the kinds whose word is below 8.
fn enter(path: &mut Stack, kind: NodeKind)
    requires { length (kinds path.old) < 21 * length path.old.words.now }
    ensures is { opened path.new ≡ cond (ltb (kind_word kind) 8) (kind ∷ opened path.old) (opened path.old) }
    ensures long { length path.new.words.now ≡ length path.old.words.now }
{
    let word = u64::from(kind);
    if word < 8 {
        path.push(word);
    }
}

// The place after the strings of a token's node. They are put into a room of one byte, since only the place is asked for.
fn after_strings(text: &[u8], token: Token, kind: NodeKind, at: usize) -> usize
    requires { (PartsIn text.now 0 (length text.now) token) × (length text.now ≤ max_text) × (at + length (token_classes (token_is text.now token)) ≤ max_text) }
    ensures { result ≡ at + length (token_classes (token_is text.now token)) + length (token_value kind (token_is text.now token)) }
{
    let mut nothing = [0u8; 1];
    let value = put_classes(text, token, &mut nothing, at);
    put_value(text, token, kind, &mut nothing, value)
}

// One token more.
fn turn(text: &[u8], token: Token, m: &mut Measured) -> Result<(), OverLimit>
    requires { Ready text.now token m.old }
    ensures { TurnIs text.now token m.old result m.new }
{
    let Some(made) = node_of(text, token, top_kind(&m.stack))? else {
        leave(&mut m.stack, left_kind(text, token));
        return Ok(());
    };
    m.used = after_strings(text, token, made.kind, m.used);
    enter(&mut m.stack, made.kind);
    m.count += 1;
    Ok(())
}

// The needs of a text, with words enough for the open nodes: each takes three bytes of the text.
fn measure(text: &[u8], words: &mut [u64]) -> Result<TreeSize, OverLimit>
    requires { (length text.now ≤ max_text) × (length text.now ≤ 63 * length words.old) }
    ensures { NeedIs text.now result }
{
    let mut at = 0;
    let mut m = Measured {
        stack: Stack::empty(words),
        count: 0,
        used: 0,
    };
    loop {
        let Some(found) = tokenizer::token_at(text, at) else {
            return Ok(TreeSize {
                count: m.count,
                used: m.used,
            });
        };
        turn(text, found.token, &mut m)?;
        at = found.next;
    }
}

// The needs of a text, with so many words. A call of it is never put into its caller, so that only a text that needs many words takes the
// stack that they stand on: 6.4 MB for the most.
#[inline(never)]
fn measure_in<const WORDS: usize>(text: &[u8]) -> Result<TreeSize, OverLimit>
    requires { (length text.now ≤ max_text) × (length text.now ≤ 63 * WORDS) × (WORDS ≤ max_text) }
    ensures { NeedIs text.now result }
{
    let mut words = [0u64; WORDS];
    measure(text, &mut words)
}

// What reading a cue text needs. The words for the open nodes are as many as a text of about its length can fill.
pub fn need_of(text: &[u8]) -> Result<TreeSize, OverLimit>
    requires { length text.now ≤ max_text }
    ensures { NeedIs text.now result }
{
    if text.len() <= 12_288 {
        return measure_in::<196>(text);
    }
    if text.len() <= 786_432 {
        return measure_in::<12_484>(text);
    }
    measure_in::<798_916>(text)
}
