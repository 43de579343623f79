// Document 01's "writable": the first test that a style, a region or a cue fails, and the first row of a list that fails one. Any rows are
// taken, over any text.
#![tactic(auto)]

mod texts;

ghost use Rattle.std.specs.Prelude.{◌*◌, ◌≡◌, cond, not, ◌&&◌, [], ◌∷◌, leb, length};
ghost use Rattle.format.specs.Limits.{max_line};
ghost use Rattle.format.specs.Texts.{bytes_at};
ghost use Rattle.format.specs.Rows.{cue_entry};
ghost use Rattle.format.specs.Contents.{region_of_entry, cue_of_row};
ghost use Rattle.format.specs.Writable.{first_failing, at_most100, is_start, is_auto, line_fits, position_fits, names_of, cue_test1, cue_test2, cue_test3, cue_test4, cue_test5, cue_test6, cue_tests, cue_fails, region_test1, region_test3, region_tests, region_fails, style_fails};
ghost use Rattle.format.specs.Writing.{first_in};
ghost use Rattle.lookup.specs.Known.{AllLast};
ghost use Rattle.writable.specs.Faults.{fault_is};

use format::regions::{Region, RegionSettings};
use format::rows::{CueRow, RegionRow, StyleRow};
use format::settings::{Line, LineAlign, LinePlace, Position, PositionAlign, PositionPlace, Span};
use lookup::inner::KNOWN_ROWS;
use parts::part_plain;
use values::bytes::part;

// A row of a list that is not writable, and the number of the first test that it fails.
#[derive(Clone, Copy)]
pub struct Fault {
    pub index: usize,
    pub test: usize,
}

// The first test that a style fails, by its number; none where the style is writable.
fn style_test(text: &[u8], row: StyleRow) -> Option<usize>
    ensures { result ≡ style_fails text.now row }
{
    let place = rows::styles::text(row);
    if !part_plain(text, place.from, place.to) {
        return Some(1);
    }
    if !texts::is_unbroken(part(text, place.from, place.to)) {
        return Some(2);
    }
    None
}

fn at_most_100(n: u64) -> bool
    ensures { result ≡ at_most100 n }
{
    n <= 100_000_000
}

// Do a region's percentages lie in 0 to 100.
fn percentages_fit(settings: RegionSettings) -> bool
    ensures { result ≡ region_test3 settings.width settings.anchor settings.viewport }
{
    let anchor = settings.anchor;
    let viewport = settings.viewport;
    if !at_most_100(settings.width) {
        return false;
    }
    if !at_most_100(anchor.x) {
        return false;
    }
    if !at_most_100(anchor.y) {
        return false;
    }
    if !at_most_100(viewport.x) {
        return false;
    }
    at_most_100(viewport.y)
}

// A region's tests 2 to 4: the first that fails.
fn region_values_test(text: &[u8], region: Region) -> Option<usize>
    ensures { result ≡ first_failing 2 (region_tests (region_of_entry text.now region)) }
{
    let id = region.id;
    let settings = region.settings;
    if !texts::is_region_identifier(part(text, id.from, id.to)) {
        return Some(2);
    }
    if !percentages_fit(settings) {
        return Some(3);
    }
    if 999_999 < settings.lines {
        return Some(4);
    }
    None
}

// A region's test 1, of its row.
fn region_test_1(text: &[u8], row: RegionRow) -> bool
    ensures { result ≡ region_test1 text.now row }
{
    let id = rows::regions::id(row);
    if !part_plain(text, id.from, id.to) {
        return false;
    }
    rows::regions::are_named(row)
}

// The first test that a region fails; none where the region is writable.
fn region_test(text: &[u8], row: RegionRow) -> Option<usize>
    ensures { result ≡ region_fails text.now row }
{
    if !region_test_1(text, row) {
        return Some(1);
    }
    region_values_test(text, rows::regions::entry(row))
}

// A cue's test 4.
fn times_fit(start: u64, end: u64) -> bool
    ensures { result ≡ cue_test4 start end }
{
    start < end && end < 360_000_000_000
}

// Is a line's alignment the opening one, and does the line snap to lines.
fn is_opening(align: LineAlign, snap: bool) -> bool
    ensures { result ≡ (is_start align && snap) }
{
    matches!(align, LineAlign::Start) && snap
}

// A line that snaps to lines is a number, and any other a percentage.
fn line_number_fits(snap: bool, negative: bool, n: u64) -> bool
    ensures { result ≡ cond snap (leb n (max_line * 1_000_000)) (at_most100 n && not negative) }
{
    if snap {
        return n <= 999_999_000_000;
    }
    if !at_most_100(n) {
        return false;
    }
    !negative
}

fn line_fits(place: LinePlace) -> bool
    ensures { result ≡ line_fits place }
{
    let line = place.line;
    let align = place.align;
    match line {
        Line::Auto => is_opening(align, place.snap),
        Line::At {
            negative,
            millionths,
        } => line_number_fits(place.snap, negative, millionths),
    }
}

fn is_auto(align: PositionAlign) -> bool
    ensures { result ≡ is_auto align }
{
    matches!(align, PositionAlign::Auto)
}

fn position_fits(place: PositionPlace) -> bool
    ensures { result ≡ position_fits place }
{
    let position = place.position;
    let align = place.align;
    match position {
        Position::Auto => is_auto(align),
        Position::At(n) => at_most_100(n),
    }
}

// A cue's test 5.
fn numbers_fit(row: CueRow) -> bool
    ensures { result ≡ cue_test5 (cue_entry row).settings }
{
    if !line_fits(rows::cues::line(row)) {
        return false;
    }
    if !position_fits(rows::cues::position(row)) {
        return false;
    }
    at_most_100(rows::cues::size(row))
}

// A cue's test 6, where `known` holds indices of regions that pass it, each increased by one.
fn region_fits(text: &[u8], regions: &[RegionRow], region: Option<u64>, known: &mut [usize]) -> bool
    requires known_len { length known.old ≡ 256 }
    requires all_last { AllLast (names_of text.now regions.now) known.old }
    ensures answer { result ≡ cue_test6 (names_of text.now regions.now) (region) }
    ensures known { AllLast (names_of text.now regions.now) known.new }
{
    match region {
        None => true,
        Some(index) => { lookup::inner::is_known_last(text, regions, index as usize, known) }
    }
}

// A cue's test 3.
fn text_fits(s: &[u8]) -> bool
    ensures { result ≡ cue_test3 s.now }
{
    if s.len() == 0 {
        return true;
    }
    texts::is_unbroken(s)
}

// A cue's tests 2 and 3, of the places of its parts: the first that fails.
fn cue_parts_test(text: &[u8], id: Span, words: Span) -> Option<usize>
    ensures { result ≡ first_failing 2 (cue_test2 (bytes_at text.now id.from id.to) ∷ cue_test3 (bytes_at text.now words.from words.to) ∷ []) }
{
    if !texts::is_identifier(part(text, id.from, id.to)) {
        return Some(2);
    }
    if !text_fits(part(text, words.from, words.to)) {
        return Some(3);
    }
    None
}

// A cue's tests 4 and 5: the first that fails.
fn cue_numbers_test(row: CueRow) -> Option<usize>
    ensures { result ≡ first_failing 4 (cue_test4 (cue_entry row).start (cue_entry row).end ∷ cue_test5 (cue_entry row).settings ∷ []) }
{
    if !times_fit(rows::cues::start(row), rows::cues::end(row)) {
        return Some(4);
    }
    if !numbers_fit(row) {
        return Some(5);
    }
    None
}

// The first of a cue's tests 1 to 5, which do not look at its region, that fails.
pub fn cue_fields_test(text: &[u8], row: CueRow) -> Option<usize>
    ensures { result ≡ first_failing 1 (cue_test1 text.now row ∷ cue_tests (cue_of_row text.now row)) }
{
    if !parts::test_1(text, row) {
        return Some(1);
    }
    if let Some(test) = cue_parts_test(text, rows::cues::id(row), rows::cues::text(row)) {
        return Some(test);
    }
    cue_numbers_test(row)
}

// The first test that a cue fails; none where the cue is writable.
fn cue_test(text: &[u8], regions: &[RegionRow], row: CueRow, known: &mut [usize]) -> Option<usize>
    requires known_len { length known.old ≡ 256 }
    requires all_last { AllLast (names_of text.now regions.now) known.old }
    ensures answer { result ≡ cue_fails text.now regions.now row }
    ensures known { AllLast (names_of text.now regions.now) known.new }
{
    if let Some(test) = cue_fields_test(text, row) {
        return Some(test);
    }
    if !region_fits(text, regions, rows::cues::region(row), known) {
        return Some(6);
    }
    None
}

// The first style that is not writable.
pub fn first_style(text: &[u8], styles: &[StyleRow]) -> Option<Fault>
    ensures { fault_is 0 result ≡ first_in 0 (style_fails text.now) 0 styles.now }
{
    for (index, &row) in styles.iter().enumerate() {
        if let Some(test) = style_test(text, row) {
            return Some(Fault { index, test });
        }
    }
    None
}

// The first region that is not writable.
pub fn first_region(text: &[u8], regions: &[RegionRow]) -> Option<Fault>
    ensures { fault_is 1 result ≡ first_in 1 (region_fails text.now) 0 regions.now }
{
    for (index, &row) in regions.iter().enumerate() {
        if let Some(test) = region_test(text, row) {
            return Some(Fault { index, test });
        }
    }
    None
}

// The first cue that is not writable, among these regions.
pub fn first_cue(text: &[u8], regions: &[RegionRow], cues: &[CueRow]) -> Option<Fault>
    ensures { fault_is 2 result ≡ first_in 2 (cue_fails text.now regions.now) 0 cues.now }
{
    let mut known = [0; KNOWN_ROWS];
    for (index, &row) in cues.iter().enumerate() {
        if let Some(test) = cue_test(text, regions, row, &mut known) {
            return Some(Fault { index, test });
        }
    }
    None
}
