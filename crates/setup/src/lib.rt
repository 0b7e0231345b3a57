// What a hub is built from before there is a hub: the checked set-up, the bound of a critical wait,
// the classes of cores, the kind numbers, and the refusals of the whole project.
#![tactic(auto)]

pub mod bound;
pub mod checked;
pub mod class;
pub mod cycles;
pub mod draft;
pub mod kind;
pub mod refusal;
pub mod slots;
