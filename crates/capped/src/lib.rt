// Policy kind 4: any policy, under caps of one's own.
#![tactic(auto)]

ghost use Rattle.std.specs.Prelude.{◌≡◌};
ghost use Rattle.capped.specs.Capping.{capped};
ghost use Rattle.capped.specs.CappingLaw.{capped_lawful};
ghost use Rattle.policy.specs.FourNumbers.{raised};
ghost use Rattle.policy.specs.Timing.{later};
ghost use Rattle.setup.specs.declared.class.Class.TheVariants.{Critical, NonCritical};

use policy::Policy;
use policy::own_caps::OwnCaps;
use setup::bound::Caps;
use setup::class::Class;
use setup::kind::Kind;

// The prover does not know the value of an associated constant of a generic impl, so that it has
// this name besides, which the impl's methods read.
const CAPPED: Kind = Kind { number: 4 };

// No `impl Model`: it would hide the policy below, of which contracts speak beside the meaning.
#[derive(Debug, Drop)]
pub struct Capped<P: Policy> {
    below: P,
    own: OwnCaps,
}

impl<P: Policy> Capped<P> {
    /// The policy below, its holds against critical requesters cut to caps.
    pub fn over(below: P, caps: Caps) -> Self
        ensures kind { ⟦<Self as Policy>⟧.kind ≡ 4 }
        ensures timing { ⟦<Self as Policy>⟧.timing result ≡ capped (raised caps) (P.Policy.timing below) }
        ensures below { result.below ≡ below }
    {
        Capped {
            below,
            own: OwnCaps::raised(caps),
        }
    }
}

impl<P: Policy> Policy for Capped<P> {
    const KIND: Kind = CAPPED;

    ghost kind = { 4 };

    ghost timing = { λ p. capped p.own.caps (P.Policy.timing p.below) };

    ghost lawful = { λ p. capped_lawful p.own.caps (P.Policy.timing p.below) p.own.some (P.Policy.lawful p.below) };

    // A body for each impl: the trait says why.
    fn kind_number(&self) -> Kind {
        CAPPED
    }

    fn caps(&mut self) -> Caps
        ensures value { result ≡ (capped self.old.own.caps (P.Policy.timing self.old.below)).caps }
        ensures same { capped self.new.own.caps (P.Policy.timing self.new.below) ≡ capped self.old.own.caps (P.Policy.timing self.old.below) }
        ensures below { P.Policy.timing self.new.below ≡ P.Policy.timing self.old.below }
    {
        self.own.caps().zip_with(self.below.caps(), u16::min)
    }

    fn holds(&mut self, core: usize, class: Class, line: usize) -> (u16, u16)
        ensures critical { result.0 ≡ (capped self.old.own.caps (P.Policy.timing self.old.below)).hold 0 core class line Critical }
        ensures noncritical { result.1 ≡ (capped self.old.own.caps (P.Policy.timing self.old.below)).hold 0 core class line NonCritical }
        ensures same { capped self.new.own.caps (P.Policy.timing self.new.below) ≡ capped self.old.own.caps (P.Policy.timing self.old.below) }
        ensures below { P.Policy.timing self.new.below ≡ P.Policy.timing self.old.below }
    {
        let holds = self.below.holds(core, class, line);
        self.own.cut(class, holds)
    }

    fn slot_passed(&mut self)
        ensures timing { capped self.new.own.caps (P.Policy.timing self.new.below) ≡ later (capped self.old.own.caps (P.Policy.timing self.old.below)) }
        ensures below { P.Policy.timing self.new.below ≡ later (P.Policy.timing self.old.below) }
        ensures own { self.new.own ≡ self.old.own }
    {
        self.below.slot_passed();
    }
}
