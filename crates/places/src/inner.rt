// For the crate above: what the walk finds, and the test of the new cue, which is asked with what the walk found.
pub mod finding;
pub mod testing;
