// What reading a time or a timing line by itself answers: the times, or why and where it cannot be read.
use super::settings::{Settings, Span};

// The step that fails: those of a time by request Q-5 of document 02, then the one that a timing line adds, and the one that a timestamp tag adds.
#[derive(Clone, Copy)]
pub enum TimeFault {
    DigitMissing,
    WrongDigitCount,
    ColonMissing,
    FullStopMissing,
    // Minutes or seconds are above 59.
    Over59,
    ArrowMissing,
    SomethingAfter,
}

// What reading a time answers.
#[derive(Clone, Copy)]
pub enum Stamp {
    // The step that failed, and where the reading then stands.
    Bad { fault: TimeFault, at: usize },
    // Refusal 5: the hours are above their limit; where the time ends.
    Over { next: usize },
    // In milliseconds, and where the time ends.
    At { ms: u64, next: usize },
}

// A cue's timing line.
#[derive(Clone, Copy)]
pub struct Timing {
    pub start: u64,
    pub end: u64,
    pub settings: Settings,
    // The name of the region that was asked for.
    pub region: Span,
    // Where the end time ends, from the line's start.
    pub next: usize,
}

// What reading a timing line answers.
#[derive(Clone, Copy)]
pub enum TimingLine {
    // It is none: the step that failed, and where, from the line's start.
    Bad { fault: TimeFault, at: usize },
    // Refusal 5: it is one, with a number above its limit.
    Over,
    Good(Timing),
}
