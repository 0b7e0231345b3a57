// The places of a last-level store.

/// The word of a line, held in place of the memory's.
#[derive(Clone, Copy, Debug, PartialEq, Eq, Hash)]
pub struct HeldWord {
    pub line: usize,
    pub word: u64,
}

/// A place is free, or has one line's word.
pub type Place = Option<HeldWord>;
