// The calls of a running hub.
use crate::op::Op;

/// A call: an ask, a slot, a settle, or one of three questions.
#[derive(Clone, Copy, Debug, PartialEq, Eq, Hash)]
pub enum Call {
    Ask { core: usize, line: usize, op: Op },
    Slot,
    Settle,
    /// Which word a line has.
    WordOf { line: usize },
    /// What state a core is in on a line.
    StateOf { core: usize, line: usize },
    /// How long a critical core waits at most.
    BoundOf,
}
