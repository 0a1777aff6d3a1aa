ghost use Rattle.std.specs.Prelude.{◌≡◌, ◌++◌, ◌||◌, ◌==◌, IfOk, None, Some, filter, map, not, ◌≤ℤ◌, if◌then◌else◌};
ghost use Rattle.std.specs.List.{list_all};
ghost use Rattle.domain_laws.specs.Made.{values_of};
ghost use Rattle.partitioned_memory.specs.Lists.{Ascends};
ghost use Rattle.partitioned_memory.specs.Leaves.{pairs_in};
ghost use Rattle.partitioned_memory.specs.Held.{covers_fact, fact_at, fact_before, facts_beside, facts_off, facts_outside, facts_put, facts_with, found, interval_of_fact, is_many, is_stack_below, pair_of_fact, value_below, value_of_width};

use crate::area::{Area, Interval};
use crate::count_list::{is_counted, is_many};
use crate::fact::{Counted, Fact, Held, Spot};
use crate::leaf::Leaf;
use crate::spots::Spots;
use crate::stretches::{Below, Meeting, Within};
use address_regions::Region;
use bit_words::{NoMemory, Width};
use domain_laws::Domain;
use std::alloc::Global;
use std::sync::Arc;

// The value of what is held at a spot, where it is of a width.
fn value_of_width<D: Domain>(held: Option<Held<D>>, w: Width) -> Option<D>
    ensures { result ≡ value_of_width w held }
{
    let held = held?;
    if held.w.bytes() == w.bytes() {
        Some(held.value)
    } else {
        None
    }
}

// The value of the fact of a spot and a width.
pub(crate) fn found<D: Domain>(facts: &Spots<Held<D>>, area: Area, low: i64, w: Width) -> Option<D>
    ensures { result ≡ found area low w (map fact_at facts.now) }
{
    value_of_width(facts.get(&Spot::at(area, low)), w)
}

// The facts that share no byte with an interval.
pub(crate) fn facts_off<D: Domain>(
    facts: &Spots<Held<D>>,
    i: Interval,
) -> Result<Spots<Held<D>>, NoMemory>
    requires ascend { Ascends fact_before (map fact_at facts.now) }
    requires ordered { i.low ≤ℤ i.end }
    ensures { IfOk result (λ kept. map fact_at kept ≡ facts_off i (map fact_at facts.now)) }
{
    facts.around(&Meeting(i), None)
}

// The pair of a fact, but for a value of rank 0 and a region that counts many.
fn kept_pair<D: Domain>(f: Fact<D>, blocks: &[Counted]) -> Option<(Spot, Held<D>)>
    ensures { result ≡ (if (values_of D.Domain.own D.eq).rank f.value == 0 || is_many f.area blocks.now then None else Some (pair_of_fact f)) }
{
    if f.value.rank() == 0 || is_many(blocks, f.area) {
        None
    } else {
        Some(f.pair())
    }
}

// The facts when one is written: those that share a byte with it go, and it takes its place among the others,
// but for a value of rank 0 and a region that counts many.
pub(crate) fn facts_written<D: Domain>(
    facts: &Spots<Held<D>>,
    f: Fact<D>,
    blocks: &[Counted],
) -> Result<Spots<Held<D>>, NoMemory>
    requires { Ascends fact_before (map fact_at facts.now) }
    ensures { IfOk result (λ all. map fact_at all ≡ facts_with (values_of D.Domain.own D.eq) blocks.now f (facts_off (interval_of_fact f) (map fact_at facts.now))) }
{
    facts.around(&Meeting(f.interval()), kept_pair(f, blocks))
}

// The facts that are not of a region.
fn facts_outside<D: Domain>(
    facts: &Spots<Held<D>>,
    region: Region,
) -> Result<Spots<Held<D>>, NoMemory>
    requires { Ascends fact_before (map fact_at facts.now) }
    ensures { IfOk result (λ kept. map fact_at kept ≡ facts_outside region (map fact_at facts.now)) }
{
    facts.around(&Within(Area::In(region)), None)
}

// The facts but for those of the stack with a byte below an offset.
pub(crate) fn facts_not_below<D: Domain>(
    facts: &Spots<Held<D>>,
    high: i64,
) -> Result<Spots<Held<D>>, NoMemory>
    requires { Ascends fact_before (map fact_at facts.now) }
    ensures { IfOk result (λ kept. map fact_at kept ≡ filter (λ f. not (is_stack_below high f)) (map fact_at facts.now)) }
{
    facts.around(&Below::offset(high), None)
}

// What is to be held in the place of a fact.
fn new_pair<D: Domain>(new: Fact<D>) -> Option<(Spot, Held<D>)>
    ensures { result ≡ (if (values_of D.Domain.own D.eq).rank new.value == 0 then None else Some (pair_of_fact new)) }
{
    if new.value.rank() == 0 {
        None
    } else {
        Some(new.pair())
    }
}

// The facts, that of the spot and width of another with its value, or without it where the value has rank 0.
pub(crate) fn facts_put<D: Domain>(
    facts: &Spots<Held<D>>,
    new: Fact<D>,
) -> Result<Spots<Held<D>>, NoMemory>
    requires { Ascends fact_before (map fact_at facts.now) }
    ensures { IfOk result (λ all. map fact_at all ≡ facts_put (values_of D.Domain.own D.eq) new.area new.low new.w new.value (map fact_at facts.now)) }
{
    if found(facts, new.area, new.low, new.w).is_some() {
        let (spot, _) = new.pair();
        facts.around(&spot, new_pair(new))
    } else {
        facts.copy()
    }
}

// The facts when there is one more block of a region: where there was one already, its facts go.
pub(crate) fn facts_beside<D: Domain>(
    facts: &Spots<Held<D>>,
    region: Region,
    blocks: &[Counted],
) -> Result<Spots<Held<D>>, NoMemory>
    requires { Ascends fact_before (map fact_at facts.now) }
    ensures { IfOk result (λ kept. map fact_at kept ≡ facts_beside region blocks.now (map fact_at facts.now)) }
{
    if is_counted(blocks, region) {
        facts_outside(facts, region)
    } else {
        facts.copy()
    }
}

// Whether what is held at the spot of a fact is below it.
fn is_above<D: Domain>(f: &Fact<D>, held: Option<Held<D>>) -> bool
    ensures { result ≡ value_below (values_of D.Domain.own D.eq) f.now held }
{
    match held {
        Some(held) => held.w.bytes() == f.w.bytes() && held.value.leq(f.value),
        None => false,
    }
}

fn covers_fact<D: Domain>(facts: &Spots<Held<D>>, f: &Fact<D>) -> bool
    ensures { result ≡ covers_fact (values_of D.Domain.own D.eq) (map fact_at facts.now) f.now }
{
    is_above(f, facts.get(&Spot::at(f.area, f.low)))
}

fn cover_leaf<D: Domain>(leaf: &Leaf<Held<D>>, others: &Spots<Held<D>>) -> bool
    ensures { result ≡ list_all (λ p. covers_fact (values_of D.Domain.own D.eq) (map fact_at others.now) (fact_at p)) leaf.now.pairs.items }
{
    leaf.pairs
        .iter()
        .all(|pair| covers_fact(others, &Fact::at(pair)))
}

fn cover_leaves<D: Domain>(leaves: &[Arc<Leaf<Held<D>>>], others: &Spots<Held<D>>) -> bool
    ensures { result ≡ list_all (λ leaf. list_all (λ p. covers_fact (values_of D.Domain.own D.eq) (map fact_at others.now) (fact_at p)) (pairs_in leaf)) leaves.now }
{
    leaves.iter().all(|leaf| cover_leaf(leaf, others))
}

// Whether each fact has one of the others below it.
pub(crate) fn cover_facts<D: Domain>(facts: &Spots<Held<D>>, others: &Spots<Held<D>>) -> bool
    ensures { result ≡ list_all (covers_fact (values_of D.Domain.own D.eq) (map fact_at others.now)) (map fact_at facts.now) }
{
    cover_leaves(facts.leaves(), others)
}

fn push_facts<D: Domain>(all: &mut Vec<Fact<D>>, pairs: &[(Spot, Held<D>)]) -> Result<(), NoMemory>
    ensures { IfOk result (λ _. all.new.items ≡ all.old.items ++ map fact_at pairs.now) }
{
    for pair in pairs {
        all.push(Fact::at(pair))?;
    }
    Ok(())
}

// The facts again, in one list.
pub(crate) fn facts_of<D: Domain>(
    alloc: Global,
    facts: &Spots<Held<D>>,
) -> Result<Vec<Fact<D>>, NoMemory>
    ensures { IfOk result (λ all. all.items ≡ map fact_at facts.now) }
{
    let mut all = Vec::new(alloc);
    for leaf in facts.leaves() {
        push_facts(&mut all, &leaf.pairs)?;
    }
    Ok(all)
}
