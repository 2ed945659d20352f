// What is proved of the runs of code: each function's contract is a law.
ghost use Rattle.vir_compile.specs.Laws.{CodeExecutesToTheMeaning, CodeExecutesOnRestrictedBallots, CodeIsSafe};
ghost use Rattle.vir_compile.specs.Laws.{StepsLeftAreExact, CallsLeftAreExact, JumpsStayWithin};

/// The code of a term executes to a split just where this is the term's meaning.
pub fn code_executes_to_the_meaning()
    ensures { CodeExecutesToTheMeaning }
{}

/// The same where the ballots have further alternatives: the meaning is that on the restricted ones.
pub fn code_executes_on_restricted_ballots()
    ensures { CodeExecutesOnRestrictedBallots }
{}

/// No step of a term's code from the start is stuck, and neither stack passes its depth.
pub fn code_is_safe()
    ensures { CodeIsSafe }
{}

/// From each state that is reached from the start the steps left lead to the end of the code, and
/// each step lowers their number by one.
pub fn steps_left_are_exact()
    ensures { StepsLeftAreExact }
{}

/// The calls of modules that are left from such a state are those of the instructions to the end of
/// the code; from the start they are the calls of the term's meaning, in order.
pub fn calls_left_are_exact()
    ensures { CallsLeftAreExact }
{}

/// Each jump of a term's code leads to a position within the code.
pub fn jumps_stay_within()
    ensures { JumpsStayWithin }
{}
