// Cases worked out from the rules, computed on the definitions that the contracts cite.
#![tactic(auto)]

ghost use Rattle.worked_cases.specs.Calls.{CallsWorked};
ghost use Rattle.worked_cases.specs.Table.{Worked};

/// Each case of the table comes out as worked by hand: one statement over the whole table, and one
/// proof of it, in which the checker computes every case.
pub fn worked_cases_hold()
    ensures { Worked }
{}

/// Each run of the machine, call by call, and each code and name of a state comes out as worked, likewise.
pub fn worked_calls_hold()
    ensures { CallsWorked }
{}
