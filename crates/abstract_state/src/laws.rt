ghost use Rattle.domain_laws.specs.Made.{values_of};
ghost use Rattle.abstract_state.specs.Laws.{BuiltStatesArePlain, CoveringIsSound, PlainStatesAreBuilt, RefiningIsSound, RefiningKeepsWell, StartIsWell, StartsAreDescribed, WideningIsSound, WideningKeepsWell};

use domain_laws::Domain;

/// A state that covers another describes all that the other does, by the same places.
pub fn covering_is_sound<D: Domain>()
    ensures { CoveringIsSound (values_of D.Domain.own D.eq) }
{}

/// A widened state covers the one that it was, and is well.
pub fn widening_is_sound<D: Domain>()
    ensures covers { WideningIsSound (values_of D.Domain.own D.eq) }
    ensures well { WideningKeepsWell (values_of D.Domain.own D.eq) }
{}

/// The start state describes every allowed start of an image, and is well.
pub fn starts_are_described<D: Domain>()
    ensures described { StartsAreDescribed (values_of D.Domain.own D.eq) }
    ensures well { StartIsWell (values_of D.Domain.own D.eq) }
{}

/// Where a condition was unknown and is met, one of the refined states describes what the state did, and each is well.
pub fn refining_is_sound<D: Domain>()
    ensures sound { RefiningIsSound (values_of D.Domain.own D.eq) }
    ensures well { RefiningKeepsWell (values_of D.Domain.own D.eq) }
{}

/// The plain lists of a state are built to that state again for each image that has the bytes of its image facts and of its image dirty
/// ranges. What is built for an image has the lists of which it was built, and the image has these bytes.
pub fn plain_states_are_built<D: Domain>()
    ensures again { PlainStatesAreBuilt (values_of D.Domain.own D.eq) }
    ensures plain { BuiltStatesArePlain (values_of D.Domain.own D.eq) }
{}
