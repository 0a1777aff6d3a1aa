ghost use Rattle.domain_laws.specs.Made.{values_of};
ghost use Rattle.transfer_functions.specs.Laws.{InstrIsSound, InstrKeepsWell, KnownCodeIsFetched};

use domain_laws::Domain;

/// From each machine state that a well state describes, what an instruction does under any choice is described by one of its next pairs, unless a
/// cause leaves it open.
pub fn instructions_are_sound<D: Domain>()
    ensures { InstrIsSound (values_of D.Domain.own D.eq) }
{}

/// Each next pair of a well state is well.
pub fn instructions_keep_well<D: Domain>()
    ensures { InstrKeepsWell (values_of D.Domain.own D.eq) }
{}

/// Each byte of code that a state knows is the executable byte there of each machine state that it describes.
pub fn known_code_is_fetched<D: Domain>()
    ensures { KnownCodeIsFetched (values_of D.Domain.own D.eq) }
{}
