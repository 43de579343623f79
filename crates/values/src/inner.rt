// Functions for the crates above: they ask for places within the text.
pub mod tokens;
