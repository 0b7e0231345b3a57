// Counts of slots.
ghost use Rattle.setup.specs.Bound.{cycles};
ghost use Rattle.setup.specs.Limits.{KeepsLimits};
ghost use Rattle.std.specs.Prelude.{◌≡◌};

use crate::checked::SetUp;
use crate::cycles::Cycles;
use std::marker::Model;

/// A count of slots, of a type of its own, so that it is not taken for one of cycles.
// Two types beside each other, not one over its unit: a rule of the project, for the conversion alone to join them.
#[derive(Clone, Copy, Debug, PartialEq, Eq, Hash, PartialOrd, Ord)]
pub struct Slots {
    pub(crate) count: u32,
}

impl Model for Slots {
    ghost use Rattle.std.specs.Prelude.{ℕ};

    ghost Value = { ℕ };

    ghost view = { λ slots. slots.count };

    ghost inverse = { λ n. record { count = n } };
}

impl Slots {
    pub fn count(self) -> u32
        ensures { result ≡ self }
    {
        self.count
    }

    /// The cycles of so many slots: the one way from slots to cycles. Both factors are widened first,
    /// so that nothing is lost for any checked set-up.
    pub fn cycles(self, setup: &SetUp) -> Cycles
        ensures value { result ≡ cycles setup.now.width self }
        ensures checked { KeepsLimits setup.now }
    {
        Cycles {
            count: u64::from(self.count) * u64::from(setup.width()),
        }
    }
}
