// The first row of lists that is not writable: styles, then regions, then cues.
ghost use Rattle.std.specs.Prelude.{◌≡◌};
ghost use Rattle.format.specs.Answers.{Answer};
ghost use Rattle.format.specs.Writable.{style_fails, region_fails, cue_fails};
ghost use Rattle.format.specs.Writing.{first_in, unless_failing};
ghost use Rattle.writer.specs.Blocks.{unless};

use format::rows::{CueRow, RegionRow, StyleRow};
use format::{ListKind, NotWritable};
use writable::Fault;

pub(crate) fn check(
    text: &[u8],
    styles: &[StyleRow],
    regions: &[RegionRow],
    cues: &[CueRow],
) -> Result<(), NotWritable>
    ensures { (answer : Answer) → unless result answer ≡ unless_failing (first_in 0 (style_fails text.now) 0 styles.now) (unless_failing (first_in 1 (region_fails text.now) 0 regions.now) (unless_failing (first_in 2 (cue_fails text.now regions.now) 0 cues.now) answer)) }
{
    if let Some(Fault { index, test }) = writable::first_style(text, styles) {
        return Err(NotWritable {
            list: ListKind::Styles,
            index,
            test,
        });
    }
    if let Some(Fault { index, test }) = writable::first_region(text, regions) {
        return Err(NotWritable {
            list: ListKind::Regions,
            index,
            test,
        });
    }
    if let Some(Fault { index, test }) = writable::first_cue(text, regions, cues) {
        return Err(NotWritable {
            list: ListKind::Cues,
            index,
            test,
        });
    }
    Ok(())
}
