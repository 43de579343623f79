// The kinds of a cue text's nodes, and the word of each in a node's row.

// In document 01's order: those that have children, and then the two that have none.
#[derive(Clone, Copy, PartialEq, Eq, Debug)]
pub enum NodeKind {
    Class,
    Italic,
    Bold,
    Underline,
    Ruby,
    RubyText,
    Voice,
    Language,
    String,
    Timestamp,
}

impl From<NodeKind> for u64 {
    ghost use Rattle.std.specs.Prelude.{◌≡◌};
    ghost use Rattle.format.specs.Trees.{kind_word};

    ghost from_gives = { λ kind word. word ≡ kind_word kind };

    fn from(kind: NodeKind) -> u64 {
        match kind {
            NodeKind::Class => 0,
            NodeKind::Italic => 1,
            NodeKind::Bold => 2,
            NodeKind::Underline => 3,
            NodeKind::Ruby => 4,
            NodeKind::RubyText => 5,
            NodeKind::Voice => 6,
            NodeKind::Language => 7,
            NodeKind::String => 8,
            NodeKind::Timestamp => 9,
        }
    }
}
