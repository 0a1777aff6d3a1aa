ghost use Rattle.domain_laws.specs.Made.{values_of};
ghost use Rattle.flow_worklist.specs.Laws.{CodeIsFetched, RunsAreFollowed, StepsAreSound};

use domain_laws::Domain;

/// From every allowed start, until a run first stands at an open location of the log, some row describes each of its states and knows the bytes
/// that it executes there, and each of its steps is an edge of the log.
pub fn runs_are_followed<D: Domain>()
    ensures { RunsAreFollowed (values_of D.Domain.own D.eq) }
{}

/// The expansion of a well formed row without a cause: each machine state that the row describes fetches the instruction that the row knows, where
/// it stands at one, and each step from it has a next pair that describes where it leads, and that pair's edge. Starts are described, and what
/// covers or widens a row describes what it did.
pub fn steps_are_sound<D: Domain>()
    ensures fetched { CodeIsFetched (values_of D.Domain.own D.eq) }
    ensures sound { StepsAreSound (values_of D.Domain.own D.eq) }
{}
