// Functions for the crate above: they ask for a text within its limit.
pub mod measuring;
