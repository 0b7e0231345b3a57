// The protocol as an abstract machine. Here are its plain types; specs/ has the machine itself, the
// histories of its calls and their laws; proofs/ has the proofs.
#![tactic(auto)]

pub mod call;
pub mod core_state;
pub mod held;
pub mod laws;
pub mod op;
pub mod reply;
pub mod request;
pub mod sizes;
