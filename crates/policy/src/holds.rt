// Four holds, and the caps that they have.
ghost use Rattle.policy.specs.FourNumbers.{raised, caps_of};
ghost use Rattle.std.specs.Prelude.{◌≡◌};

use setup::bound::Caps;
use setup::class::ByClass;

/// Holds in slots, by the requester's class.
pub type Against = ByClass<u16>;

/// Four holds: by the holder's class, and then by the requester's.
pub type FourHolds = ByClass<Against>;

/// Caps of at least 1: those of 0 are raised.
pub fn raised(caps: Caps) -> Caps
    ensures { result ≡ raised caps }
{
    caps.map(|cap| cap.max(1))
}

/// The caps of four holds: the holds against critical requesters, 0 raised to 1.
pub fn caps_of(holds: FourHolds) -> Caps
    ensures { result ≡ caps_of holds }
{
    raised(holds.map(|against| against.critical))
}
