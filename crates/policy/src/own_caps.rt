// Caps that a policy is given, 0 raised to 1.
ghost use Rattle.policy.specs.OwnCaps.{SomeCaps, FewCaps};

use crate::holds::raised;
use setup::bound::Caps;
use setup::class::Class;

// No `impl Model`: the laws of policies are shown from the ghost fields, which it would hide.
#[derive(Clone, Copy, Debug, PartialEq, Eq, Hash)]
pub struct OwnCaps {
    caps: Caps,
    ghost some: { SomeCaps caps },
    ghost few: { FewCaps caps },
}

impl OwnCaps {
    ghost use Rattle.policy.specs.FourNumbers.{raised};
    ghost use Rattle.policy.specs.OwnCaps.{cut};
    ghost use Rattle.setup.specs.declared.class.Class.TheVariants.{Critical, NonCritical};
    ghost use Rattle.std.specs.Prelude.{◌≡◌};

    pub fn raised(caps: Caps) -> OwnCaps
        ensures { result.caps ≡ raised caps }
    {
        OwnCaps { caps: raised(caps) }
    }

    pub fn caps(self) -> Caps
        ensures { result ≡ self.caps }
    {
        self.caps
    }

    /// The holds of a holder of a class, the one against critical requesters cut to the class's cap.
    pub fn cut(self, holder: Class, holds: (u16, u16)) -> (u16, u16)
        ensures critical { result.0 ≡ cut self.caps holder Critical holds.0 }
        ensures noncritical { result.1 ≡ cut self.caps holder NonCritical holds.1 }
    {
        let (critical, noncritical) = holds;
        (self.caps.of(holder).min(critical), noncritical)
    }
}
