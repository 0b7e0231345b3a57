// The bound of a critical wait.
ghost use Rattle.setup.specs.Bound.{bound};
ghost use Rattle.setup.specs.Limits.{KeepsLimits};
ghost use Rattle.std.specs.Prelude.{◌≡◌};

use crate::checked::SetUp;
use crate::class::ByClass;
use crate::slots::Slots;

/// The caps of a policy: the most slots for which a critical, or a non-critical, holder may keep
/// a critical requester out.
pub type Caps = ByClass<u16>;

impl SetUp {
    /// The slots after which an accepted request of a critical core is answered at the latest, under
    /// these caps.
    pub fn bound(&self, caps: Caps) -> Slots
        ensures value { result ≡ bound self.now.critical caps }
        ensures checked { KeepsLimits self.now }
    {
        let others = self.critical() - 1;
        let hc = u32::from(caps.critical);
        let hn = u32::from(caps.noncritical);
        Slots {
            count: 2 * others + hc.max(hn) + others * (hc + others),
        }
    }
}
