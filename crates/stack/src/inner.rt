// Functions for the crate above, on a stack whose type says that its words hold it: pushing asks for room.
pub mod kinds;
