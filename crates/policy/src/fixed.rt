// Policy kind 1: four numbers for every slot, core and line.
ghost use Rattle.std.specs.Prelude.{◌≡◌};
ghost use Rattle.policy.specs.FourNumbers.{fixed, FewHolds};
ghost use Rattle.policy.specs.FixedLaw.{fixed_lawful};
ghost use Rattle.policy.specs.Timing.{later};
ghost use Rattle.setup.specs.declared.class.Class.TheVariants.{Critical, NonCritical};

use crate::Policy;
use crate::holds::{FourHolds, caps_of};
use setup::bound::Caps;
use setup::class::Class;
use setup::kind::Kind;

// No `impl Model`: the law of the policy is shown from the ghost field, which it would hide.
#[derive(Clone, Copy, Debug, PartialEq, Eq, Hash)]
pub struct Fixed {
    holds: FourHolds,
    ghost few: { FewHolds holds },
}

impl Fixed {
    /// The policy of these four holds.
    pub fn of(holds: FourHolds) -> Fixed
        ensures kind { ⟦<Self as Policy>⟧.kind ≡ 1 }
        ensures timing { ⟦<Self as Policy>⟧.timing result ≡ fixed holds }
        ensures holds { result.holds ≡ holds }
    {
        Fixed { holds }
    }
}

impl Policy for Fixed {
    const KIND: Kind = Kind { number: 1 };

    ghost kind = { 1 };

    ghost timing = { λ p. fixed p.holds };

    ghost lawful = { λ p. fixed_lawful p.holds p.few };

    // A body for each impl: the trait says why.
    fn kind_number(&self) -> Kind {
        <Self as Policy>::KIND
    }

    fn caps(&mut self) -> Caps
        ensures value { result ≡ (fixed self.old.holds).caps }
        ensures kept { self.new ≡ self.old }
    {
        caps_of(self.holds)
    }

    fn holds(&mut self, core: usize, class: Class, line: usize) -> (u16, u16)
        ensures critical { result.0 ≡ (fixed self.old.holds).hold 0 core class line Critical }
        ensures noncritical { result.1 ≡ (fixed self.old.holds).hold 0 core class line NonCritical }
        ensures kept { self.new ≡ self.old }
    {
        self.holds.of(class).into()
    }

    fn slot_passed(&mut self)
        ensures timing { fixed self.new.holds ≡ later (fixed self.old.holds) }
        ensures kept { self.new ≡ self.old }
    {
        // The holds are the same for every slot.
    }
}
