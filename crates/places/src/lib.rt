// What one walk over a file's blocks finds, where a cue's own lines stand, and the tests of the new cue. All functions stand in modules.
#![tactic(auto)]

pub mod inner;
pub mod lines;
