ghost use Rattle.x86_machine.specs.Laws.{ImportsExit, ImportsFault, ImportsStep, InstructionsFault, InstructionsStep};
ghost use Rattle.x86_machine.specs.StartLaws.{StatesAreStated, StatesMeetStart};

/// A law: at every instruction there is a next state exactly where none of its faults holds, under every choice; else its fault is the first of them.
pub fn instructions_have_next_states()
    ensures next { InstructionsStep }
    ensures faults { InstructionsFault }
{}

/// A law: at an import whose stub returns or enters a function there is a next state, under some choice, exactly where none of the stub's faults holds,
/// if there is room for a block that it must hand out; where one holds, the first of them is its fault under every choice. A stub that never returns has
/// exited.
pub fn imports_have_next_states()
    ensures next { ImportsStep }
    ensures faults { ImportsFault }
    ensures exits { ImportsExit }
{}

/// A law: the state that a start file states for an image is one from which a run of it may begin, and each state from which a run may begin is stated by
/// some start file.
pub fn start_files_state_start()
    ensures meets { StatesMeetStart }
    ensures stated { StatesAreStated }
{}
