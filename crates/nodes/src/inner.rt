// Functions for the crates above: they ask for a token that was found in the text, or for a text and a place within the limits.
pub mod tokens;
