ghost use Rattle.domain_laws.specs.Made.{values_of};
ghost use Rattle.table_check.specs.Laws.{ClosedTablesAreFollowed};

use domain_laws::Domain;

/// A law: a table of which no row fails is closed, and from every allowed start no run leaves it before it first stands at a marked
/// location: some row describes each of its states, and each of its steps is an edge of the table.
pub fn closed_tables_are_followed<D: Domain>()
    ensures { ClosedTablesAreFollowed (values_of D.Domain.own D.eq) }
{}
