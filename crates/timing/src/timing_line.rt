// A cue's timing line.
ghost use Rattle.std.specs.Prelude.{◌≡◌, ◌≤◌, length, drop};
ghost use Rattle.format.specs.TimingLines.{arrow, arrow_and_end, timings};
ghost use Rattle.format.specs.declared.times.TimeFault.TheVariants as Fault;
ghost use Rattle.values.specs.Times.{stamp_is};
ghost use Rattle.values.specs.Tokens.{token_from};
ghost use Rattle.timing.specs.TimingLines.{arrow_is, both_is, times_is, with_settings_is, timed_line_is, line_kind};
ghost use Rattle.timing.specs.declared.timing_line.ArrowEnd.TheVariants as ArrowEnd;

use crate::usual::usual_times;
use format::times::{Stamp, TimeFault, Timing, TimingLine};
use values::bytes::{ByteKind, is_at};

#[derive(Clone, Copy)]
pub enum ArrowEnd {
    Bad { fault: TimeFault, at: usize },
    At(usize),
}

// An arrow of which this is the first character that is not there.
fn no_arrow(at: usize) -> ArrowEnd
    ensures { result ≡ ArrowEnd.Bad Fault.ArrowMissing at }
{
    ArrowEnd::Bad {
        fault: TimeFault::ArrowMissing,
        at,
    }
}

// Where `-->` ends that stands at `at`.
fn arrow_end(s: &[u8], at: usize) -> ArrowEnd
    requires { at ≤ length s.now }
    ensures { result ≡ arrow_is (length s.now) (arrow (drop at s.now)) }
{
    if !is_at(s, at, b'-') {
        return no_arrow(at);
    }
    if !is_at(s, at + 1, b'-') {
        return no_arrow(at + 1);
    }
    if !is_at(s, at + 2, b'>') {
        return no_arrow(at + 2);
    }
    ArrowEnd::At(at + 3)
}

// The end time, after an arrow and whitespace around it.
fn read_end(s: &[u8], at: usize) -> Stamp
    requires { at ≤ length s.now }
    ensures { result ≡ stamp_is (length s.now) (arrow_and_end (drop at s.now)) }
{
    match arrow_end(s, values::bytes::past(s, at, ByteKind::White)) {
        ArrowEnd::Bad { fault, at: place } => Stamp::Bad { fault, at: place },
        ArrowEnd::At(next) => values::times::read_timestamp(
            s,
            values::bytes::past(s, next, ByteKind::White),
        ),
    }
}

// The two times of a timing line.
#[derive(Clone, Copy)]
pub enum Times {
    // It is no timing line: the step that failed, and where.
    Bad { fault: TimeFault, at: usize },
    // It is one, with hours above their limit.
    Over,
    // In milliseconds, and where the end time ends.
    Good { start: u64, end: u64, next: usize },
}

// The times of a line whose start time was read, with hours above their limit or not.
fn both_times(over: bool, start: u64, end: Stamp) -> Times
    ensures { result ≡ both_is over start end }
{
    match end {
        Stamp::Bad { fault, at } => Times::Bad { fault, at },
        Stamp::Over { next: _ } => Times::Over,
        Stamp::At { ms, next } => {
            if over {
                return Times::Over;
            }
            Times::Good {
                start,
                end: ms,
                next,
            }
        }
    }
}

// The times that stand from `from` on, in whatever form.
fn read_any_times(s: &[u8], from: usize) -> Times
    requires { from ≤ length s.now }
    ensures { result ≡ times_is (length s.now) (timings (drop from s.now)) }
{
    match values::times::read_timestamp(s, values::bytes::past(s, from, ByteKind::White)) {
        Stamp::Bad { fault, at } => Times::Bad { fault, at },
        Stamp::Over { next } => both_times(true, 0, read_end(s, next)),
        Stamp::At { ms, next } => both_times(false, ms, read_end(s, next)),
    }
}

// The times that stand from `from` on. Most lines are of the usual form, and that is tried first.
fn read_times(s: &[u8], from: usize) -> Times
    requires { from ≤ length s.now }
    ensures { result ≡ times_is (length s.now) (timings (drop from s.now)) }
{
    match usual_times(s, from) {
        Some(times) => Times::Good {
            start: times.start,
            end: times.end,
            next: from + 29,
        },
        None => read_any_times(s, from),
    }
}

// The line that stands from `from` on, whose times end at `at`.
fn with_settings(s: &[u8], from: usize, at: usize, start: u64, end: u64) -> TimingLine
    requires { (from ≤ at) × (at ≤ length s.now) }
    ensures { result ≡ with_settings_is s.now from start end at }
{
    let taken = cue_settings::all_settings(s, at, s.len());
    if taken.over {
        return TimingLine::Over;
    }
    let settings = taken.settings;
    let region = taken.region;
    TimingLine::Good(Timing {
        start,
        end,
        settings,
        region,
        next: at - from,
    })
}

// The timing line that stands from `from` up to the end of `s`.
pub(crate) fn read_timing_line(s: &[u8], from: usize) -> TimingLine
    requires { from ≤ length s.now }
    ensures { result ≡ timed_line_is (token_from s.now from) }
{
    match read_times(s, from) {
        Times::Bad { fault, at } => TimingLine::Bad {
            fault,
            at: at - from,
        },
        Times::Over => TimingLine::Over,
        Times::Good { start, end, next } => with_settings(s, from, next, start, end),
    }
}

// What a line is, without what it says.
#[derive(Clone, Copy)]
pub enum LineKind {
    Bad,
    Over,
    Good,
}

// What the line is that stands from `from` up to the end of `s`.
pub(crate) fn read_kind(s: &[u8], from: usize) -> LineKind
    requires { from ≤ length s.now }
    ensures { result ≡ line_kind (timed_line_is (token_from s.now from)) }
{
    match read_times(s, from) {
        Times::Bad { fault: _, at: _ } => LineKind::Bad,
        Times::Over => LineKind::Over,
        Times::Good {
            start: _,
            end: _,
            next,
        } => {
            if cue_settings::any_over(s, next, s.len()) {
                return LineKind::Over;
            }
            LineKind::Good
        }
    }
}
