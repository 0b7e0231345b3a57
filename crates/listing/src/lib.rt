// The lines of a listing, as values and as text in a caller's buffer.
#![tactic(auto)]

pub mod line;
