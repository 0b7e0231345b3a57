// Counts of cycles.
ghost use Rattle.std.specs.Prelude.{◌≡◌};

use std::marker::Model;

/// A count of cycles, of a type of its own, so that it is not taken for one of slots.
#[derive(Clone, Copy, Debug, PartialEq, Eq, Hash, PartialOrd, Ord)]
pub struct Cycles {
    pub(crate) count: u64,
}

impl Model for Cycles {
    ghost use Rattle.std.specs.Prelude.{ℕ};

    ghost Value = { ℕ };

    ghost view = { λ cycles. cycles.count };

    ghost inverse = { λ n. record { count = n } };
}

impl Cycles {
    pub fn count(self) -> u64
        ensures { result ≡ self }
    {
        self.count
    }
}
