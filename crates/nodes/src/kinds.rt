// The kind that a word names, and the test of a kind.
ghost use Rattle.std.specs.Prelude.{◌≡◌};
ghost use Rattle.format.specs.Trees.{kind_numbered, is_kind};

use format::kinds::NodeKind;

// The kind of a row's word. No `TryFrom`: by `node_of_row` every word names a kind.
#[tactic(auto, unfolding(format::specs::Trees::kind_numbered))]
pub fn kind_numbered(n: u64) -> NodeKind
    ensures { result ≡ kind_numbered n }
{
    match n {
        0 => NodeKind::Class,
        1 => NodeKind::Italic,
        2 => NodeKind::Bold,
        3 => NodeKind::Underline,
        4 => NodeKind::Ruby,
        5 => NodeKind::RubyText,
        6 => NodeKind::Voice,
        7 => NodeKind::Language,
        8 => NodeKind::String,
        _ => NodeKind::Timestamp,
    }
}

// Is a kind that may be missing this one. The definitions compare kinds by `is_kind`.
pub fn is_kind(named: Option<NodeKind>, kind: NodeKind) -> bool
    ensures { result ≡ is_kind named kind }
{
    named == Some(kind)
}
