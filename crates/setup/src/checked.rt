// The checked set-up.
ghost use Rattle.setup.specs.Limits.{KeepsLimits, checking};
ghost use Rattle.setup.specs.Refusals.{numbered};
ghost use Rattle.std.specs.Prelude.{◌≡◌, ◌≤◌};

use crate::draft::Draft;
use crate::refusal::Refusal;
use std::marker::Model;

/// A draft that keeps all limits, for as long as the value exists. Only checking makes one.
#[derive(Clone, Copy, Debug, PartialEq, Eq, Hash)]
pub struct SetUp {
    draft: Draft,
}

impl Model for SetUp {
    ghost use Rattle.setup.specs.declared.draft.Draft.{Draft};
    ghost use Rattle.setup.specs.Limits.{KeepsLimits};

    ghost Value = { Draft };

    ghost view = { λ setup. setup.draft };

    ghost invariant = { λ setup. KeepsLimits setup.draft };

    ghost inverse = { λ draft. record { draft = draft } };
}

impl TryFrom<Draft> for SetUp {
    type Error = Refusal;

    ghost try_from_gives = { λ draft result. numbered result ≡ checking draft };

    /// The draft as a checked set-up, or the first limit that it breaks.
    fn try_from(draft: Draft) -> Result<SetUp, Refusal> {
        let 1..=8 = draft.cores else {
            return Err(Refusal::CoreCount);
        };
        // No pattern can name the cores.
        if !(1..=draft.cores).contains(&draft.critical) {
            return Err(Refusal::CriticalCount);
        }
        let 1..=32 = draft.lines else {
            return Err(Refusal::LineCount);
        };
        let 1..=65535 = draft.width else {
            return Err(Refusal::SlotWidth);
        };
        Ok(SetUp { draft })
    }
}

impl SetUp {
    pub fn cores(&self) -> u32
        ensures value { result ≡ self.now.cores }
        ensures limits { (1 ≤ result) × (result ≤ 8) }
        ensures checked { KeepsLimits self.now }
    {
        self.draft.cores
    }

    pub fn critical(&self) -> u32
        ensures value { result ≡ self.now.critical }
        ensures limits { (1 ≤ result) × (result ≤ self.now.cores) × (result ≤ 8) }
        ensures checked { KeepsLimits self.now }
    {
        self.draft.critical
    }

    pub fn lines(&self) -> u32
        ensures value { result ≡ self.now.lines }
        ensures limits { (1 ≤ result) × (result ≤ 32) }
        ensures checked { KeepsLimits self.now }
    {
        self.draft.lines
    }

    pub fn width(&self) -> u32
        ensures value { result ≡ self.now.width }
        ensures limits { (1 ≤ result) × (result ≤ 65535) }
        ensures checked { KeepsLimits self.now }
    {
        self.draft.width
    }
}
