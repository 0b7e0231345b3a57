// Reading a run file: a head, and later events, each a map byte and then only the fields whose bits
// stand in it.
#![tactic(auto)]

pub mod head;
mod reader;
