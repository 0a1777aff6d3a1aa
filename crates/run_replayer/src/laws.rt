ghost use Rattle.run_replayer.specs.Laws.{MissingEdgesAreOfRuns, RecordTextsAreRead, RecordsHaveOneVerdict, RunsHaveOneRecord, TextsStateInBounds};

/// A law: a run has one record, and a record one verdict.
pub fn records_and_verdicts_are_one()
    ensures records { RunsHaveOneRecord }
    ensures verdicts { RecordsHaveOneVerdict }
{}

/// A law: where the verdict of a record is that a step is no edge, the record is of a run of the machine that takes a step
/// which is no edge of the automaton before it first stands at an open location.
pub fn missing_edges_are_of_runs()
    ensures { MissingEdgesAreOfRuns }
{}

/// A law: what a text states as a record keeps the bounds of its fields.
pub fn texts_state_in_bounds()
    ensures { TextsStateInBounds }
{}

/// A law: the text of a record that keeps the bounds of its fields is read as that record.
pub fn record_texts_are_read()
    ensures { RecordTextsAreRead }
{}
