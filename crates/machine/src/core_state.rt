// The states that a core can be in on a line.
ghost use Rattle.std.specs.Prelude.{◌≡◌};

/// Outside the hub a state is told by its code, the number written here.
#[derive(Clone, Copy, Debug, PartialEq, Eq, Hash)]
pub enum CoreState {
    /// Nothing is held and nothing asked for.
    I = 0,
    /// A reader's copy is held.
    S = 1,
    /// A writer's copy is held.
    M = 2,
    /// A reader's copy is held, and an ordered request calls for it.
    Sti = 3,
    /// A writer's copy is held, and an ordered request calls for it.
    Mti = 4,
    /// Nothing is held, and a read is asked.
    Isad = 5,
    /// Nothing is held, and a read is ordered.
    Isd = 6,
    /// Nothing is held, and a write is asked.
    Imad = 7,
    /// Nothing is held, and a write is ordered.
    Imd = 8,
}

impl CoreState {
    ghost use Rattle.machine.specs.CoreState.{code_of};

    // No plainer as `u8::from(state)`, which would not say which number.
    pub fn code(self) -> u8
        ensures { result ≡ code_of self }
    {
        self as u8
    }
}
