// Functions for the crate above: they ask for a text within its limits, and for a room and a table that are long enough.
pub mod filling;
