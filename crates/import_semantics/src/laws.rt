ghost use Rattle.import_semantics.specs.Laws.{BytesAreFree, CallsFail, CallsFault, CallsReturn, EntersWithExit, RegistersAreFree};
ghost use Rattle.import_semantics.specs.WorkedCalls.{AreDue, CALLS, LARGE_BLOCKS};

/// A law: where none of its faults holds, a call has a next state under every choice that fills in nothing and names no failure, if the base that it
/// names is one where a block that is handed out may lie; and a call that may fail, under every choice that says that it does and fills in nothing.
/// Where a fault holds, it faults under every choice.
pub fn calls_have_next_states()
    ensures returns { CallsReturn }
    ensures fails { CallsFail }
    ensures faults { CallsFault }
{}

/// A law of calls without a fault that do not have to hand out a block: each byte that the stub writes, and each of the stack window below the arguments'
/// end, becomes any byte under some choice; by the reply `any` so do EAX, ECX and EDX, each any word, and the status flags.
pub fn calls_leave_free()
    ensures bytes { BytesAreFree }
    ensures registers { RegistersAreFree }
{}

/// A law: a function that a stub enters has the exit place as its return address, under every choice.
pub fn calls_enter_with_exit()
    ensures { EntersWithExit }
{}

/// A table of single calls on a small machine, worked by hand: each comes to what is due.
pub fn worked_calls_hold()
    ensures small { AreDue CALLS }
    ensures large { AreDue LARGE_BLOCKS }
{}
