ghost use Rattle.std.specs.Prelude.{◌≡◌, IfOk};
ghost use Rattle.domain_laws.specs.Made.{values_of};
ghost use Rattle.flow_worklist.specs.Telling.{digest_with, held_at, told_at, told_more, told_number, told_value};
ghost use Rattle.partitioned_memory.specs.Held.{found, value_of_width};

use abstract_state::{Holder, State};
use bit_words::{NoMemory, Width};
use domain_laws::Domain;
use partitioned_memory::{Fact, Held, Spot};
use std::alloc::Global;

/// What a state tells of the numbers at some holders.
#[derive(Clone, Copy, Debug)]
pub enum Told {
    /// Each holds one number, and this is a digest of them.
    Numbers(u64),
    /// One holds no value, or one of every number: no state that has numbers there covers it.
    Nothing,
    /// One holds a value whose number is not told, or there are others.
    Unclear,
}

/// One number more in a digest.
pub fn digest_with(digest: u64, n: u64) -> u64
    ensures { result ≡ digest_with digest n }
{
    digest.wrapping_mul(0x100_0000_01B3).wrapping_add(n)
}

// The value of what is held at a spot, where it is of a width.
fn value_of_width<D: Domain>(w: Width, held: Option<Held<D>>) -> Option<D>
    ensures { result ≡ value_of_width w held }
{
    match held {
        Some(held) => {
            if held.w.bytes() == w.bytes() {
                Some(held.value)
            } else {
                None
            }
        }
        None => None,
    }
}

// The value of the fact of a spot and a width.
fn found<D: Domain>(s: &State<D>, spot: Spot, w: Width) -> Option<D>
    ensures { result ≡ found spot.area spot.low w s.now.parts.facts }
{
    value_of_width(w, s.parts().fact_spots().get(&spot))
}

fn held_at<D: Domain>(holder: Holder, s: &State<D>) -> Option<D>
    ensures { result ≡ held_at holder s.now }
{
    match holder {
        Holder::Register(r) => Some(s.register(r)),
        Holder::Bytes(spot, w) => found(s, spot, w),
    }
}

fn told_value<D: Domain>(digest: u64, value: Option<D>) -> Told
    ensures { result ≡ told_value (values_of D.Domain.own D.eq) digest value }
{
    match value {
        Some(v) => match v.number_of() {
            Some(n) => Told::Numbers(digest_with(digest, u64::from(n))),
            None => {
                if v.rank() == 0 {
                    Told::Nothing
                } else {
                    Told::Unclear
                }
            }
        },
        None => Told::Nothing,
    }
}

fn told_more<D: Domain>(s: &State<D>, told: Told, holder: Holder) -> Told
    ensures { result ≡ told_more (values_of D.Domain.own D.eq) s.now told holder }
{
    match told {
        Told::Numbers(digest) => told_value(digest, held_at(holder, s)),
        Told::Nothing => Told::Nothing,
        Told::Unclear => Told::Unclear,
    }
}

/// What a state tells of the numbers at these holders.
pub fn told_at<D: Domain>(holders: &[Holder], s: &State<D>) -> Told
    ensures { result ≡ told_at (values_of D.Domain.own D.eq) holders.now s.now }
{
    let mut told = Told::Numbers(0);
    for holder in holders {
        told = told_more(s, told, *holder);
    }
    told
}

/// The number that a state has at a holder.
pub fn number_told<D: Domain>(holder: Holder, s: &State<D>) -> Option<u32> {
    match held_at(holder, s) {
        Some(v) => v.number_of(),
        None => None,
    }
}

// The registers that hold one number.
fn registers_told<D: Domain>(alloc: Global, s: &State<D>) -> Result<Vec<Holder>, NoMemory> {
    let mut holders = Vec::new(alloc);
    for r in 0..8u8 {
        if s.register(r).number_of().is_some() {
            holders.push(Holder::Register(r))?;
        }
    }
    Ok(holders)
}

// The places of facts whose value is one number.
fn push_facts_told<D: Domain>(
    holders: &mut Vec<Holder>,
    facts: &[Fact<D>],
) -> Result<(), NoMemory> {
    for f in facts {
        if f.value.number_of().is_some() {
            let spot = Spot {
                area: f.area,
                low: f.low,
            };
            holders.push(Holder::Bytes(spot, f.w))?;
        }
    }
    Ok(())
}

/// What holds one number in a state: registers in their order, and then facts in theirs. Refuses want of memory alone.
pub fn holders_told<D: Domain>(alloc: Global, s: &State<D>) -> Result<Vec<Holder>, NoMemory> {
    let mut holders = registers_told(alloc, s)?;
    let facts = s.parts().copy_facts()?;
    push_facts_told(&mut holders, &facts)?;
    Ok(holders)
}
