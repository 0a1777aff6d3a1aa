ghost use Rattle.domain_laws.specs.Made.{values_of};
ghost use Rattle.partitioned_memory.specs.Ordered.{AreasAreOrdered, SpotsAreOrdered};
ghost use Rattle.partitioned_memory.specs.Sound.{BesideKeeps, BlockKeeps, CoversDescribes, ExactKeeps, ForgetKeeps, InsideKeeps, KnownStands, ReadStands, SpreadIsApart};

use domain_laws::Domain;

/// The calls are right about memory, for every domain. It does nothing: its clauses are laws of what the calls give.
///
/// Parts describe the bytes of memory by the places of a run (`specs/Describes.antt`) where each fact stands at every block of its region,
/// image bytes that are neither unset nor dirty are as loaded, bytes of zeroed blocks that are not dirty are 0, and a region that counts One has one base.
/// Then what `read` answers stands for what is there, and a byte that `known_byte` answers is there. After each write that a call stands for the parts describe the bytes again, by the same places:
/// after a store for which the value stands, and after any bytes in the range of `write_inside` or below the bound of `forget_below`.
/// After a block was handed out they do by the places that have its base. Bytes of no area may change as they like. Parts that cover others describe what those describe.
pub fn calls_are_right<D: Domain>()
    ensures read { ReadStands (values_of D.Domain.own D.eq) }
    ensures known_byte { KnownStands (values_of D.Domain.own D.eq) }
    ensures write_exact { ExactKeeps (values_of D.Domain.own D.eq) }
    ensures write_inside { InsideKeeps (values_of D.Domain.own D.eq) }
    ensures forget_below { ForgetKeeps (values_of D.Domain.own D.eq) }
    ensures add_block { BlockKeeps (values_of D.Domain.own D.eq) }
    ensures beside { BesideKeeps (values_of D.Domain.own D.eq) }
    ensures covers { CoversDescribes (values_of D.Domain.own D.eq) }
{}

/// Where the windows and the blocks of a run lie apart from each other and from the segments, as they do in memory, each address is that of one byte at most.
pub fn spread_is_apart()
    ensures { SpreadIsApart }
{}

/// The image comes first, then the stack, fs, gs, and then blocks by site, by size, and last those that begin zeroed. Spots go by area, and in one by offset.
pub fn spots_are_ordered()
    ensures areas { AreasAreOrdered }
    ensures spots { SpotsAreOrdered }
{}
