// Requests.
use crate::op::Op;

/// The request of a core. Its wait is the number of slots since its ask.
// No plainer as an option of what is asked for: free, asked and ordered are the three states that events move on.
#[derive(Clone, Copy, Debug, PartialEq, Eq, Hash)]
pub enum Request {
    /// Nothing is asked for.
    Free,
    /// Accepted; no slot has had its core as user since.
    Asked {
        line: usize,
        op: Op,
        wait: u32,
    },
    /// In its line's order, behind so many ordered requests of its class.
    Ordered {
        line: usize,
        op: Op,
        ahead: usize,
        wait: u32,
    },
}
