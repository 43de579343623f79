// A stack of the kinds of open nodes, in lent words.
#![tactic(auto)]

pub mod inner;
