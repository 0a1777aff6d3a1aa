ghost use Rattle.std.specs.Prelude.{◌≡◌, ℕ, ℤ, Bool, Option};
ghost use Rattle.bit_words.specs.declared.op.Op.{Op};
ghost use Rattle.bit_words.specs.declared.width.Width.{Width};
ghost use Rattle.address_regions.specs.declared.region.Region.{Region};
ghost use Rattle.address_regions.specs.Places.{Places};
ghost use Rattle.domain_laws.specs.declared.reach.Reach.{Reach};
ghost use Rattle.domain_laws.specs.Laws.{IsLawful};

use crate::reach::Reach;
use address_regions::Region;
use bit_words::{Op, Width};
use std::hash::Hash;

/// A domain of abstract values. A value stands for some of the numbers of 32 bits, in one run of the machine with its places.
///
/// No method takes memory, and none refuses.
pub trait Domain: Copy + Eq + Hash + Send + Sync {
    // The numbers for which a value stands, by the places of a run. Each other member is the function that the method of its name computes.
    ghost stands: { Self → Places → ℕ → Type 0 };

    ghost number: { ℕ → Self };

    ghost place: { Region → ℤ → Self };

    ghost inside: { Region → Self };

    ghost any: { Self };

    ghost eval: { Op → Width → Self → Self → ℕ → Self };

    ghost number_of: { Self → Option ℕ };

    ghost reach: { Self → Reach };

    ghost up_to: { Self → ℕ → Self };

    ghost leq: { Self → Self → Bool };

    ghost rank: { Self → ℕ };

    ghost raise: { Self → Self };

    /// The value of one number.
    fn number(n: u32) -> Self
        ensures { result ≡ number n };

    /// A value of the place at an offset from a base of a region.
    fn place(region: Region, offset: i32) -> Self
        ensures { result ≡ place region offset };

    /// A value of every place where four bytes lie in a region.
    fn inside(region: Region) -> Self
        ensures { result ≡ inside region };

    /// A value of every number.
    fn any() -> Self
        ensures { result ≡ any };

    /// A value of what an operator gives at operands of the width, where the stack's base is a multiple of `align`.
    fn eval(op: Op, w: Width, a: Self, b: Self, align: u32) -> Self
        ensures { result ≡ eval op w a b align };

    /// The one number for which the value stands, where the domain knows it.
    fn number_of(self) -> Option<u32>
        ensures { result ≡ number_of self };

    /// Where the numbers lie for which the value stands.
    fn reach(self) -> Reach
        ensures { result ≡ reach self };

    /// A value of those of its numbers that are at most `c`.
    fn up_to(self, c: u32) -> Self
        ensures { result ≡ up_to self c };

    /// Whether `other` is known to stand for all for which this value stands.
    fn leq(self, other: Self) -> bool
        ensures { result ≡ leq self other };

    /// How far the value can be raised: 0 only for values of every number.
    fn rank(self) -> u8
        ensures { result ≡ rank self };

    /// A value of smaller rank that stands for more.
    fn raise(self) -> Self
        ensures { result ≡ raise self };

    // What each domain proves of these functions, and of `==`.
    ghost lawful: { IsLawful (record {
      stands = stands;
      number = number;
      place = place;
      inside = inside;
      any = any;
      eval = eval;
      number_of = number_of;
      reach = reach;
      up_to = up_to;
      leq = leq;
      rank = rank;
      raise = raise;
      eq = Self.eq;
    }) };
}
