// A set-up as somebody wrote it down, not yet checked.

#[derive(Clone, Copy, Debug, PartialEq, Eq, Hash)]
pub struct Draft {
    /// How many cores there are; those below `critical` are critical.
    pub cores: u32,
    pub critical: u32,
    /// How many memory lines the hub may serve.
    pub lines: u32,
    /// How many cycles a slot takes.
    pub width: u32,
}
