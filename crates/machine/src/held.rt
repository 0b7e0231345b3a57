// Private copies.
use crate::op::Role;
use policy::holds::Against;

/// A copy of a line that a core holds, with its word and its timers. A timer is the number of slots for
/// which the copy is still held against requesters of a class. What a core holds of a line is an
/// `Option<Held>`: nothing, or such a copy.
#[derive(Clone, Copy, Debug, PartialEq, Eq, Hash)]
pub struct Held {
    pub role: Role,
    pub word: u64,
    pub timers: Against,
}
