ghost use Rattle.automaton_text.specs.Laws.{DashesAreRefused, OrderlyAutomataAreReadBack, TextsTellOrderlyAutomata};

/// A law: what a text tells is an orderly automaton, whose text it is.
pub fn texts_tell_orderly_automata()
    ensures { TextsTellOrderlyAutomata }
{}

/// A law: the text of an orderly automaton tells that automaton.
pub fn orderly_automata_are_read_back()
    ensures { OrderlyAutomataAreReadBack }
{}

/// A law: the text of an automaton that is orderly but for imports that are named `-` is refused for what a line says.
pub fn dashes_are_refused()
    ensures { DashesAreRefused }
{}
