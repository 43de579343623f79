// The look-up of a name in a table of names. Any table and name are taken. The functions that choose by a name match its bytes today; this one
// stays, for its promise is public and the law of the choice by an index is named by the pages.
#![tactic(auto)]

ghost use Rattle.std.specs.Prelude.{◌≡◌};
ghost use Rattle.format.specs.Lines.{split};
ghost use Rattle.names.specs.Names.{index_in};

use values::bytes::{ByteKind, past, same_bytes};

// The index of a name among the lines of a table; their number where it is none of them.
pub fn index_of(table: &[u8], name: &[u8]) -> usize
    ensures { result ≡ index_in (split table.now) name.now }
{
    let mut at = 0;
    let mut index = 0;
    // A `while`: a turn passes one line of the table.
    while at <= table.len() {
        let end = past(table, at, ByteKind::Until(b'\n'));
        if same_bytes(name, &table[at..end]) {
            return index;
        }
        at = end + 1;
        index += 1;
    }
    index
}
