// What a timer policy is, and the policy of four fixed holds.
#![tactic(auto)]

ghost use Rattle.std.specs.Prelude.{ℕ, ◌≡◌};
ghost use Rattle.policy.specs.Timing.{Timing, Lawful, later};
ghost use Rattle.setup.specs.declared.class.Class.TheVariants.{Critical, NonCritical};

use setup::bound::Caps;
use setup::class::Class;
use setup::kind::Kind;

pub mod fixed;
pub mod holds;
pub mod own_caps;

/// A policy by its meaning, its timing, which obeys the law of policies. It refuses nothing.
pub trait Policy {
    /// The number of this kind of policy.
    const KIND: Kind;

    ghost kind: { ℕ };

    ghost timing: { Self → Timing };

    ghost lawful: { (p : Self) → Lawful (timing p) };

    // Each impl answers its `KIND`. One body here for all was tried: it needs the constant tied to a ghost
    // member of its name, which the checker refuses where an impl has a lifetime.
    fn kind_number(&self) -> Kind
        ensures { result ≡ kind };

    fn caps(&mut self) -> Caps
        ensures value { result ≡ (timing self.old).caps }
        ensures same { timing self.new ≡ timing self.old };

    /// The holds for now of a holder on a line, against critical and against non-critical requesters.
    fn holds(&mut self, core: usize, class: Class, line: usize) -> (u16, u16)
        ensures critical { result.0 ≡ (timing self.old).hold 0 core class line Critical }
        ensures noncritical { result.1 ≡ (timing self.old).hold 0 core class line NonCritical }
        ensures same { timing self.new ≡ timing self.old };

    /// Tells the policy that a slot has passed.
    fn slot_passed(&mut self)
        ensures { timing self.new ≡ later (timing self.old) };
}
