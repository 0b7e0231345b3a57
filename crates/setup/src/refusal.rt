// The refusals of the whole project.
ghost use Rattle.setup.specs.Refusals.{number};
ghost use Rattle.std.specs.Prelude.{◌≡◌};

/// Why a call was refused. Each case has one number, which stands for it outside.
#[derive(Clone, Copy, Debug, PartialEq, Eq, Hash)]
pub enum Refusal {
    /// The cores are not from 1 to 8.
    CoreCount = 1,
    /// The critical cores are not from 1 to the cores.
    CriticalCount = 2,
    /// The lines are not from 1 to 32.
    LineCount = 3,
    /// The slot width is not from 1 to 65,535 cycles.
    SlotWidth = 4,
    /// The hub has no such core.
    NoSuchCore = 5,
    /// The hub has no such line.
    NoSuchLine = 6,
    /// The core's request is not free.
    RequestPending = 7,
    /// The memory turned down a line that the hub needs.
    MemoryRefused = 8,
    /// The line lies at or above the memory's count.
    PastMemory = 9,
    /// The head or an event of a run file cannot be read.
    Unreadable = 10,
    /// The buffer for a listing line has fewer than 64 bytes.
    ShortBuffer = 11,
}

impl Refusal {
    /// The number that stands for the refusal outside, as in a listing.
    // No plainer as `u8::from(refusal)`, which would not say which number; and its name is promised.
    pub fn number(self) -> u8
        ensures { result ≡ number self }
    {
        self as u8
    }
}
