// The sizes of a hub.

/// The numbers of a checked set-up, but with the lines that the hub really has: no more than the memory.
// No plainer as a `Draft`, the same numbers in other widths: that is a wish, not checked, and its lines may be too many.
#[derive(Clone, Copy, Debug, PartialEq, Eq, Hash)]
pub struct Sizes {
    pub cores: usize,
    pub critical: usize,
    pub lines: usize,
    pub width: u32,
}
