ghost use Rattle.domain_laws.specs.Made.{values_of};
ghost use Rattle.import_stubs.specs.Laws.{CallIsSound, CallKeepsWell};

use domain_laws::Domain;

/// From each machine state that a well state describes, what a call does under any choice is described by one of its next pairs, unless a cause leaves
/// it open; and each next pair of a well state is well.
pub fn calls_are_sound<D: Domain>()
    ensures sound { CallIsSound (values_of D.Domain.own D.eq) }
    ensures keeps_well { CallKeepsWell (values_of D.Domain.own D.eq) }
{}
