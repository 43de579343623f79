// How many nodes a cue text has and how long their strings are.
#![tactic(auto)]

pub mod inner;
