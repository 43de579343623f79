// The strings of a cue text's nodes put into a room.
#![tactic(auto)]

pub mod inner;
