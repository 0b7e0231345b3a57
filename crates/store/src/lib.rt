// Memory kind 3: a last-level store over any memory.
#![tactic(auto)]

pub mod last_level;
pub mod place;
