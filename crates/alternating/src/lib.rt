// Policy kind 3: two sets of four numbers that rule in turn.
#![tactic(auto)]

ghost use Rattle.std.specs.Prelude.{◌≡◌, ◌<◌};
ghost use Rattle.alternating.specs.Alternation.{alternating, spell, schedule, ruling, advanced, span, SomeSpell};
ghost use Rattle.alternating.specs.AlternationLaw.{alternating_lawful};
ghost use Rattle.policy.specs.Timing.{later};
ghost use Rattle.setup.specs.declared.class.Class.TheVariants.{Critical, NonCritical};

use crate::schedule::{Schedule, Spell};
use policy::Policy;
use policy::holds::{FourHolds, caps_of};
use setup::bound::Caps;
use setup::class::Class;
use setup::kind::Kind;

mod schedule;

// No `impl Model`: the law of the policy is shown from the ghost fields, which it would hide.
#[derive(Clone, Copy, Debug, PartialEq, Eq, Hash)]
pub struct Alternating {
    schedule: Schedule,
    ghost first: { SomeSpell schedule.first },
    ghost second: { SomeSpell schedule.second },
    ghost inside: { schedule.at < span schedule },
}

impl Alternating {
    /// The policy of two sets, each with its length in slots, a length of 0 counted as 1. The first
    /// set rules from now on.
    pub fn of(first: FourHolds, n: u16, second: FourHolds, m: u16) -> Alternating
        ensures kind { ⟦<Self as Policy>⟧.kind ≡ 3 }
        ensures timing { ⟦<Self as Policy>⟧.timing result ≡ alternating (schedule (spell first n) (spell second m)) }
    {
        Alternating {
            schedule: Schedule {
                first: Spell::of(first, n),
                second: Spell::of(second, m),
                at: 0,
            },
        }
    }

    /// The set that rules now.
    fn ruling(&self) -> FourHolds
        ensures { result ≡ ruling self.now.schedule }
    {
        if self.schedule.at < self.schedule.first.slots {
            self.schedule.first.holds
        } else {
            self.schedule.second.holds
        }
    }

    /// One slot on, round the two spells.
    fn advance(&mut self)
        ensures { self.new.schedule ≡ advanced self.old.schedule }
    {
        let span = self.schedule.first.slots + self.schedule.second.slots;
        self.schedule.at = (self.schedule.at + 1) % span;
    }
}

impl Policy for Alternating {
    const KIND: Kind = Kind { number: 3 };

    ghost kind = { 3 };

    ghost timing = { λ p. alternating p.schedule };

    ghost lawful = { λ p. alternating_lawful p.schedule p.first p.second };

    // A body for each impl: the trait says why.
    fn kind_number(&self) -> Kind {
        <Self as Policy>::KIND
    }

    fn caps(&mut self) -> Caps
        ensures value { result ≡ (alternating self.old.schedule).caps }
        ensures kept { self.new ≡ self.old }
    {
        let first = caps_of(self.schedule.first.holds);
        let second = caps_of(self.schedule.second.holds);
        first.zip_with(second, u16::max)
    }

    #[tactic(auto, using(crate::proofs::Turns::ruling_now))]
    fn holds(&mut self, core: usize, class: Class, line: usize) -> (u16, u16)
        ensures critical { result.0 ≡ (alternating self.old.schedule).hold 0 core class line Critical }
        ensures noncritical { result.1 ≡ (alternating self.old.schedule).hold 0 core class line NonCritical }
        ensures kept { self.new ≡ self.old }
    {
        self.ruling().of(class).into()
    }

    #[tactic(auto, using(crate::proofs::Turns::alternating_later))]
    fn slot_passed(&mut self) {
        self.advance();
    }
}
