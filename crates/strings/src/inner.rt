// Functions for the crates above: they ask for a text within the limit, and for a place in the room that no sum can carry beyond a number.
pub mod puts;
