// Asks for lines.

/// What a core asks of a line.
// No plainer as an option of the new word: `None` would not say that it is a read.
#[derive(Clone, Copy, Debug, PartialEq, Eq, Hash)]
pub enum Op {
    Read,
    /// With the new word.
    Write(u64),
}

/// In which role a core asks for a line, or holds a copy of it.
#[derive(Clone, Copy, Debug, PartialEq, Eq, Hash)]
pub enum Role {
    Reader,
    Writer,
}
