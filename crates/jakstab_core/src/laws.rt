ghost use Rattle.jakstab_core.specs.Laws.{DemosAreDone, ReplaysFindEdges, ReplaysOfTextsFindEdges};

/// A law: a record that is replayed against the automaton that `recover` prints of the same image with the same stubs never
/// has the verdict that a step is no edge, and so for the automaton that is read of that text.
pub fn replays_find_edges()
    ensures automata { ReplaysFindEdges }
    ensures texts { ReplaysOfTextsFindEdges }
{}

/// A law: a call of `demo` is done, but for want of memory or a fault of `out`: the image and the stub file that it makes have no fault.
pub fn demos_are_done()
    ensures { DemosAreDone }
{}
