// A new cue's row as a cue's row, for the crates above: its promise says what the row says, and not its words.
ghost use Rattle.std.specs.Prelude.{◌≡◌};
ghost use Rattle.format.specs.Rows.{cue_entry, cue_span, new_cue_entry, cue_codes_named};

use format::rows::*;

// The row of a new cue as the row of a cue without a region and without lines, whatever two numbers were lent with it.
pub fn cue_of_new(row: NewCueRow) -> CueRow
    ensures { (cue_entry result ≡ new_cue_entry row) × (cue_codes_named result ≡ cue_codes_named row) × (cue_span result ≡ record { first = 0; count = 0 }) }
{
    let mut cue = [0; CUE_WORDS];
    cue[..CUE_REGION].copy_from_slice(&row[..CUE_REGION]);
    cue
}
