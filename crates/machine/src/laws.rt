// The laws of every history. Each function carries one of them as its contract and has nothing else to
// do: without the law's proof the crate is refused.
ghost use Rattle.machine.specs.AcceptedLines.{MemoryRefusesNoLine};
ghost use Rattle.machine.specs.CriticalWaits.{CriticalWaitsAreBounded};
ghost use Rattle.machine.specs.FreshReads.{ReadsAnswerTheLastFinishedWrite};
ghost use Rattle.machine.specs.LoneWriters.{WritersAreAlone};
ghost use Rattle.machine.specs.Unchanged.{RefusalsAndQuestionsChangeNothing};
ghost use Rattle.machine.specs.WaitCounts.{WaitsAreCountedInSlots};

/// An accepted ask of a critical core hits, or is served within the bound.
pub fn critical_waits_are_bounded()
    ensures { CriticalWaitsAreBounded }
{}

/// A writer's copy of a line excludes every other copy of it.
pub fn writers_are_alone()
    ensures { WritersAreAlone }
{}

/// A read is answered with the word of the line's last finished write, or with the starting word.
pub fn reads_answer_the_last_finished_write()
    ensures { ReadsAnswerTheLastFinishedWrite }
{}

/// The wait that a done slot reports is the number of slots since the ask.
pub fn waits_are_counted_in_slots()
    ensures { WaitsAreCountedInSlots }
{}

/// No slot and no settle meets a line that the memory would refuse.
pub fn memory_refuses_no_line()
    ensures { MemoryRefusesNoLine }
{}

/// A refused call and a question leave the state as it was.
pub fn refusals_and_questions_change_nothing()
    ensures { RefusalsAndQuestionsChangeNothing }
{}
