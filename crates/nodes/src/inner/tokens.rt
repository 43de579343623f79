// The node that a token gives, its strings put into a room, and the kind of node that an end tag leaves.
ghost use Rattle.std.specs.Prelude.{◌≡◌, ◌≤◌, ◌||◌, length};
ghost use Rattle.std.specs.Prelude.{Some};
ghost use Rattle.format.specs.Texts.{bytes_at};
ghost use Rattle.format.specs.Bytes.{white, space};
ghost use Rattle.format.specs.CueText.{collapsed};
ghost use Rattle.format.specs.Limits.{max_text};
ghost use Rattle.format.specs.Trees.{kind_named, is_kind, attached, tag_time, value_for};
ghost use Rattle.format.specs.declared.kinds.NodeKind.TheVariants as Kind;
ghost use Rattle.tokenizer.specs.Tags.{span_bytes, token_is, PartsIn};
ghost use Rattle.strings.specs.Stores.{Stores};
ghost use Rattle.nodes.specs.Tokens.{attached_kind, element_made, stamp_made, made_is, token_classes, token_value, left_kind};

use crate::kinds::is_kind;
use format::OverLimit;
use format::kinds::NodeKind;
use format::settings::Span;
use format::times::Stamp;
use strings::inner::puts::{put_collapsed, put_decoded};
use tokenizer::Token;
use values::bytes::part;

// A node of this kind, and a timestamp's milliseconds.
#[derive(Clone, Copy)]
pub struct Made {
    pub kind: NodeKind,
    pub time: u64,
}

// The bytes of a token's part.
fn bytes_of<'a>(text: &'a [u8], span: Span) -> &'a [u8]
    ensures { result.now ≡ span_bytes text.now span }
{
    part(text, span.from, span.to)
}

// The kind that a tag's name names.
#[tactic(auto, unfolding(format::specs::Trees::kind_named, format::specs::Texts::same))]
fn kind_named(name: &[u8]) -> Option<NodeKind>
    ensures { result ≡ kind_named name.now }
{
    match name {
        b"c" => Some(NodeKind::Class),
        b"i" => Some(NodeKind::Italic),
        b"b" => Some(NodeKind::Bold),
        b"u" => Some(NodeKind::Underline),
        b"ruby" => Some(NodeKind::Ruby),
        b"rt" => Some(NodeKind::RubyText),
        b"v" => Some(NodeKind::Voice),
        b"lang" => Some(NodeKind::Language),
        _ => None,
    }
}

// Ruby text opens only directly inside ruby.
fn attach(current: Option<NodeKind>, named: Option<NodeKind>) -> Option<NodeKind>
    ensures { result ≡ attached_kind current named }
{
    if is_kind(named, NodeKind::RubyText) && !is_kind(current, NodeKind::Ruby) {
        return None;
    }
    named
}

// The node of a start tag with this name.
fn element(name: &[u8], current: Option<NodeKind>) -> Option<Made>
    ensures { result ≡ element_made (attached current name.now) }
{
    let kind = attach(current, kind_named(name))?;
    Some(Made { kind, time: 0 })
}

// The node of a timestamp tag: a time and nothing after it.
fn stamp(s: &[u8]) -> Result<Option<Made>, OverLimit>
    ensures { result ≡ stamp_made (tag_time s.now) }
{
    match values::read_only_time(s) {
        Stamp::Bad { fault: _, at: _ } => Ok(None),
        Stamp::Over { next: _ } => Err(OverLimit),
        Stamp::At { ms, next: _ } => Ok(Some(Made {
            kind: NodeKind::Timestamp,
            time: ms,
        })),
    }
}

// The node that a token gives below a current node of this kind; refused where a timestamp's hours are above their limit.
pub fn node_of(
    text: &[u8],
    token: Token,
    current: Option<NodeKind>,
) -> Result<Option<Made>, OverLimit>
    ensures { result ≡ made_is current (token_is text.now token) }
{
    match token {
        Token::String(_) => Ok(Some(Made {
            kind: NodeKind::String,
            time: 0,
        })),
        Token::Start { name, .. } => Ok(element(bytes_of(text, name), current)),
        Token::End(_) => Ok(None),
        Token::Timestamp(value) => stamp(bytes_of(text, value)),
    }
}

// The classes of a token's node.
pub fn put_classes(text: &[u8], token: Token, room: &mut [u8], at: usize) -> usize
    requires { (PartsIn text.now 0 (length text.now) token) × (length text.now ≤ max_text) × (at ≤ max_text) }
    ensures { Stores (token_classes (token_is text.now token)) at room.old result room.new }
{
    match token {
        Token::Start { classes, .. } => { put_collapsed(bytes_of(text, classes), true, room, at) }
        Token::String(_) | Token::End(_) | Token::Timestamp(_) => at,
    }
}

// Is the annotation of a node of this kind its value.
#[tactic(auto, unfolding(format::specs::Trees::is_kind))]
fn has_value(kind: NodeKind) -> bool
    ensures { result ≡ (is_kind (Some kind) Kind.Voice || is_kind (Some kind) Kind.Language) }
{
    matches!(kind, NodeKind::Voice | NodeKind::Language)
}

// The value of a token's node, whose kind is this: text, or the annotation of a voice or a language.
pub fn put_value(text: &[u8], token: Token, kind: NodeKind, room: &mut [u8], at: usize) -> usize
    requires { (length text.now ≤ max_text) × (at ≤ max_text) }
    ensures { Stores (token_value kind (token_is text.now token)) at room.old result room.new }
{
    match token {
        Token::String(p) => put_decoded(bytes_of(text, p), room, at),
        Token::Start { annotation, .. } => {
            if has_value(kind) {
                put_collapsed(bytes_of(text, annotation), false, room, at)
            } else {
                at
            }
        }
        Token::End(_) | Token::Timestamp(_) => at,
    }
}

// The kind of node that a token leaves.
pub fn left_kind(text: &[u8], token: Token) -> Option<NodeKind>
    ensures { result ≡ left_kind (token_is text.now token) }
{
    match token {
        Token::End(p) => kind_named(bytes_of(text, p)),
        Token::String(_) | Token::Start { .. } | Token::Timestamp(_) => None,
    }
}
