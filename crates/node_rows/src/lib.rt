// The nodes of a cue text stored, as rows in a table and strings in a room.
#![tactic(auto)]

pub mod inner;
