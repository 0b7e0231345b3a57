// Two sets of holds that rule in turn.
ghost use Rattle.alternating.specs.Alternation.{spell};
ghost use Rattle.std.specs.Prelude.{◌≡◌};

use policy::holds::FourHolds;

/// A set of holds, and for how many slots it rules at a time.
#[derive(Clone, Copy, Debug, PartialEq, Eq, Hash)]
pub struct Spell {
    pub holds: FourHolds,
    pub slots: u32,
}

impl Spell {
    /// A spell of at least one slot: a length of 0 counts as 1.
    pub fn of(holds: FourHolds, slots: u16) -> Spell
        ensures { result ≡ spell holds slots }
    {
        Spell {
            holds,
            slots: u32::from(slots.max(1)),
        }
    }
}

/// The first spell, then the second, and so on. Now is slot `at` of the two, counted from 0.
#[derive(Clone, Copy, Debug, PartialEq, Eq, Hash)]
pub struct Schedule {
    pub first: Spell,
    pub second: Spell,
    pub at: u32,
}
