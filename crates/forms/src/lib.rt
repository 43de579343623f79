// The written form of one cue, one region and one style text, put into an output room from a place on. Any rows are taken, over any text.
#![tactic(auto)]

ghost use Rattle.std.specs.Prelude.{◌≡◌, cond, [], ◌∷◌, ◌++◌, map, get_or, option_copied};
ghost use Rattle.format.specs.Bytes.{lf};
ghost use Rattle.format.specs.Texts.{is_empty};
ghost use Rattle.format.specs.Lines.{after_line_ends, join};
ghost use Rattle.format.specs.Rows.{cue_entry};
ghost use Rattle.format.specs.Contents.{region_of_entry, cue_of_row, region_of_row, style_of_row};
ghost use Rattle.format.specs.Writable.{names_of};
ghost use Rattle.format.specs.Written.{written_point, written_id, written_scroll, region_lines, style_lines, cue_lines};
ghost use Rattle.output.specs.Puts.{Puts};
ghost use Rattle.forms.specs.Forms.{timing_form, cue_form, number_lines};

use format::regions::{Point, Region, RegionSettings, Scroll};
use format::rows::{CueRow, RegionRow, StyleRow};
use output::Output;
use values::bytes::part;

// A text and a line end after it; nothing where it is empty.
fn line_before(s: &[u8], out: &mut Output)
    ensures { Puts (cond (is_empty s.now) [] (s.now ++ lf ∷ [])) out.old out.new }
{
    if !s.is_empty() {
        out.bytes(s);
        out.byte(b'\n');
    }
}

// A text and a line end before it; nothing where it is empty.
fn line_after(s: &[u8], out: &mut Output)
    ensures { Puts (cond (is_empty s.now) [] (lf ∷ s.now)) out.old out.new }
{
    if !s.is_empty() {
        out.byte(b'\n');
        out.bytes(s);
    }
}

fn timing_line(row: CueRow, region: Option<&[u8]>, out: &mut Output)
    ensures { Puts (timing_form (cue_entry row) (option_copied region.entry)) out.old out.new }
{
    out.time(rows::cues::start(row));
    out.bytes(b" --> ");
    out.time(rows::cues::end(row));
    setting_forms::settings(row, region, out);
}

// One cue without a last line end, with the name of the region it asks for, if it asks for one.
pub fn cue_named(text: &[u8], row: CueRow, region: Option<&[u8]>, out: &mut Output)
    ensures { Puts (cue_form text.now (cue_entry row) (option_copied region.entry)) out.old out.new }
{
    let id = rows::cues::id(row);
    line_before(part(text, id.from, id.to), out);
    timing_line(row, region, out);
    let words = rows::cues::text(row);
    line_after(part(text, words.from, words.to), out);
}

// The identifier of the region with this index; empty where there is none.
fn region_name<'a>(text: &'a [u8], regions: &[RegionRow], index: usize) -> &'a [u8]
    ensures { result.now ≡ get_or (names_of text.now regions.now) index [] }
{
    if regions.len() <= index {
        return &text[..0];
    }
    let id = rows::regions::id(regions[index]);
    part(text, id.from, id.to)
}

// One cue of a list, among these regions, without a last line end.
pub fn cue(text: &[u8], regions: &[RegionRow], row: CueRow, out: &mut Output)
    ensures { Puts (join (cue_lines (map (region_of_row text.now) regions.now) (cue_of_row text.now row))) out.old out.new }
{
    let name = rows::cues::region(row).map(|index| region_name(text, regions, index as usize));
    cue_named(text, row, name, out);
}

fn point(p: Point, out: &mut Output)
    ensures { Puts (written_point p) out.old out.new }
{
    out.percentage(p.x);
    out.byte(b',');
    out.percentage(p.y);
}

fn identifier(id: &[u8], out: &mut Output)
    ensures { Puts (after_line_ends (written_id id.now)) out.old out.new }
{
    if !id.is_empty() {
        out.bytes(b"\nid:");
        out.bytes(id);
    }
}

fn scroll(s: Scroll, out: &mut Output)
    ensures { Puts (after_line_ends (written_scroll s)) out.old out.new }
{
    match s {
        Scroll::None => {}
        Scroll::Up => out.bytes(b"\nscroll:up"),
    }
}

// The lines of a region after its identifier, each after a line end.
fn region_numbers(settings: RegionSettings, out: &mut Output)
    ensures { Puts (after_line_ends (number_lines settings)) out.old out.new }
{
    out.bytes(b"\nwidth:");
    out.percentage(settings.width);
    out.bytes(b"\nlines:");
    out.number(1, settings.lines);
    out.bytes(b"\nregionanchor:");
    point(settings.anchor, out);
    out.bytes(b"\nviewportanchor:");
    point(settings.viewport, out);
    scroll(settings.scroll, out);
}

// One region without a last line end.
pub fn region(text: &[u8], region: Region, out: &mut Output)
    ensures { Puts (join (region_lines (region_of_entry text.now region))) out.old out.new }
{
    out.bytes(b"REGION");
    identifier(part(text, region.id.from, region.id.to), out);
    region_numbers(region.settings, out);
}

// One style text without a last line end.
pub fn style(text: &[u8], row: StyleRow, out: &mut Output)
    ensures { Puts (join (style_lines (style_of_row text.now row))) out.old out.new }
{
    let place = rows::styles::text(row);
    out.bytes(b"STYLE\n");
    out.bytes(part(text, place.from, place.to));
}
