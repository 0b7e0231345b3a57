// What the calls of a hub answer.
use crate::core_state::CoreState;
use crate::op::Role;
use setup::cycles::Cycles;
use setup::refusal::Refusal;
use setup::slots::Slots;

/// What an accepted ask answers.
// No plainer as an option: `Some(word)` would not say that a copy served, nor `None` that the core waits.
#[derive(Clone, Copy, Debug, PartialEq, Eq, Hash)]
pub enum AskAnswer {
    /// The core's own copy serves at once, with this word.
    Hit { word: u64 },
    /// The request waits for a slot that grants it.
    Waits,
}

/// What a slot answers. Its owner is a critical core; its user is the core whose request was tried.
// No plainer with its shared parts in structs: idle, waiting and done are three answers, each told whole.
#[derive(Clone, Copy, Debug, PartialEq, Eq, Hash)]
pub enum SlotAnswer {
    /// Nobody who could use the slot waits.
    Idle {
        owner: usize,
    },
    /// The user's request was tried and waits on.
    Waiting {
        owner: usize,
        user: usize,
        line: usize,
        role: Role,
    },
    /// The user's request was granted: the word of its new copy, and how many slots it waited.
    Done {
        owner: usize,
        user: usize,
        line: usize,
        role: Role,
        word: u64,
        wait: u32,
    },
}

/// What a call that is not refused answers, whichever call it was.
#[derive(Clone, Copy, Debug, PartialEq, Eq, Hash)]
pub enum Answer {
    ToAsk(AskAnswer),
    ToSlot(SlotAnswer),
    /// How many words a settle stored.
    Settled { stored: usize },
    Word(u64),
    /// A core's state on a line.
    State(CoreState),
    /// The bound of a critical wait.
    Bound { slots: Slots, cycles: Cycles },
}

/// What a call is answered: an answer, or a refusal.
pub type Reply = Result<Answer, Refusal>;
