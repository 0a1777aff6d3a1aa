ghost use Rattle.std.specs.Prelude.{◌≡◌, ◌<◌, ◌/◌, ◌%◌, ◌^◌, find, is_some, map, not, pos, unsigned_abs, ◌+ℤ◌, ◌-ℤ◌, ◌≤ℤ◌, ◌<ℤ◌};
ghost use Rattle.domain_laws.specs.Made.{values_of};
ghost use Rattle.std.specs.Option.{option_map};
ghost use Rattle.partitioned_memory.specs.Leaves.{unless};
ghost use Rattle.partitioned_memory.specs.Held.{fact_at, fact_before};
ghost use Rattle.partitioned_memory.specs.KnownBytes.{byte_held, byte_of_fact, is_number_at};
ghost use Rattle.partitioned_memory.specs.Lists.{Ascends};

use crate::area::{Area, Interval};
use crate::fact::{Fact, Held, Spot};
use crate::spots::Spots;
use crate::stretches::Meeting;
use domain_laws::Domain;

// A byte of a number, counted from its lowest one.
fn byte_of(n: u32, i: u32) -> u8
    requires { i < 4 }
    ensures { result ≡ n / 256 ^ i % 256 }
{
    let from_there = match i {
        0 => n,
        1 => n / 256,
        2 => n / 65536,
        _ => n / 16777216,
    };
    (from_there % 256) as u8
}

// How far an offset lies past another.
fn distance(low: i128, o: i64) -> u32
    requires least { low ≤ℤ o }
    requires below { o <ℤ (low +ℤ pos 4) }
    ensures value { result ≡ unsigned_abs (o -ℤ low) }
    ensures small { result < 4 }
{
    (i128::from(o) - low) as u32
}

impl<D: Domain> Fact<D> {
    fn is_number(&self) -> bool
        ensures { result ≡ is_some (D.number_of self.now.value) }
    {
        self.value.number_of().is_some()
    }

    // Its byte at an offset, where it is of a number.
    fn byte(&self, o: i64) -> Option<u8>
        requires least { self.now.low ≤ℤ o }
        requires below { o <ℤ (self.now.low +ℤ pos 4) }
        ensures { result ≡ byte_of_fact (values_of D.Domain.own D.eq) o self.now }
    {
        let i = distance(self.interval().low, o);
        match self.value.number_of() {
            Some(n) => Some(byte_of(n, i)),
            None => None,
        }
    }
}

// A fact, where it is of a number.
fn if_number<D: Domain>(pair: Option<(Spot, Held<D>)>) -> Option<Fact<D>>
    ensures { result ≡ option_map fact_at (unless (λ p. not (is_some (D.number_of p.1.value))) pair) }
{
    let f = Fact::at(&pair?);
    if f.is_number() { Some(f) } else { None }
}

// The fact of a number that has a byte of the image.
fn number_at<D: Domain>(facts: &Spots<Held<D>>, o: i64) -> Option<Fact<D>>
    requires { Ascends fact_before (map fact_at facts.now) }
    ensures { result ≡ find (is_number_at (values_of D.Domain.own D.eq) o) (map fact_at facts.now) }
{
    if_number(facts.first_in(&Meeting(Interval::at(Area::Image, o, 1))))
}

/// The byte of the image that a fact of a number says.
pub(crate) fn byte_held<D: Domain>(facts: &Spots<Held<D>>, o: i64) -> Option<u8>
    requires { Ascends fact_before (map fact_at facts.now) }
    ensures { result ≡ byte_held (values_of D.Domain.own D.eq) o (map fact_at facts.now) }
{
    match number_at(facts, o) {
        Some(f) => f.byte(o),
        None => None,
    }
}
