// Kind numbers.
ghost use Rattle.std.specs.Prelude.{◌≡◌, ◌≤◌};

use std::marker::Model;

/// The number of a kind of memory or of timer policy, from 1 to 255.
#[derive(Clone, Copy, Debug, PartialEq, Eq, Hash)]
pub struct Kind {
    pub number: u8,
}

impl Model for Kind {
    ghost use Rattle.std.specs.Prelude.{ℕ, ◌≤◌};

    ghost Value = { ℕ };

    ghost view = { λ kind. kind.number };

    ghost invariant = { λ kind. 1 ≤ kind.number };

    ghost inverse = { λ n. record { number = n } };
}

impl Kind {
    pub fn number(self) -> u8
        ensures value { result ≡ self }
        ensures some { 1 ≤ result }
    {
        self.number
    }
}
