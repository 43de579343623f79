// What each token of a cue text gives to the tree of nodes.
#![tactic(auto)]

pub mod inner;
pub mod kinds;
