ghost use Rattle.std.specs.Prelude.{◌≡◌, ◌++◌, Any, false, Contains, IfOk, IfSome, List, OnOk, Some, ℕ, nat_eq, option_copied, slice_get};
ghost use Rattle.std.specs.List.{list_any};
ghost use Rattle.domain_laws.specs.Made.{values_of};
ghost use Rattle.abstract_state.specs.State.{Known};
ghost use Rattle.flow_log.specs.Log.{Row as LogRow};
ghost use Rattle.flow_worklist.specs.Telling.{digest_with, told_at};
ghost use Rattle.flow_worklist.specs.declared.told.Told.TheVariants as told;
ghost use Rattle.flow_worklist.specs.Covering.{covers_at, row_nth, row_of};
ghost use Rattle.flow_worklist.specs.Grouping.{HasPlace, IsInRest, covers_in, covers_nth, places_at};

use crate::Row;
use crate::parting::parting;
use crate::told::{Told, digest_with, told_at};
use abstract_state::{Holder, State};
use bit_words::NoMemory;
use domain_laws::Domain;
use indexmap::IndexMap;
use std::alloc::Global;

/// Rows whose states have a number at each of some holders. No other group has its number.
#[derive(Drop)]
pub struct Group {
    pub number: u64,
    pub holders: Vec<Holder>,
}

/// Where the rows of a location stand among its rows: under a digest of a group's number and of the numbers that their states have there. Rows that no
/// other group has come into a last one, which has no holders.
#[derive(Drop)]
pub struct RowIndex {
    pub groups: Vec<Group>,
    pub places: IndexMap<u64, Vec<usize>>,
    // How many rows there were as it was made.
    pub made: usize,
    // Whether the newest row shares its digest with many others.
    pub crowded: bool,
}

// So many rows of one digest, or a multiple of that, are many.
const CROWD: usize = 4;

// Whether the row of a number covers a state.
fn covers_at<D: Domain>(rows: &[Row<D>], s: &State<D>, number: usize) -> bool
    ensures { result ≡ covers_at (values_of D.Domain.own D.eq) rows.now s.now number }
{
    match rows.get(number) {
        Some(row) => row.state().covers(s),
        None => false,
    }
}

fn number_at(numbers: &[usize], place: usize) -> Option<usize>
    ensures { result ≡ slice_get numbers.now place }
{
    numbers.get(place).copied()
}

// The row of a number, where there is one.
fn row_of<'a, D: Domain>(rows: &'a [Row<D>], number: Option<usize>) -> Option<&'a Row<D>>
    ensures { option_copied result ≡ row_of rows.now number }
{
    match number {
        Some(number) => rows.get(number),
        None => None,
    }
}

/// The row at a place among those of these numbers.
pub fn row_nth<'a, D: Domain>(
    rows: &'a [Row<D>],
    numbers: &[usize],
    place: usize,
) -> Option<&'a Row<D>>
    ensures { option_copied result ≡ row_nth rows.now numbers.now place }
{
    row_of(rows, number_at(numbers, place))
}

// Whether the row at a place among those of these numbers covers a state.
fn covers_nth<D: Domain>(rows: &[Row<D>], numbers: &[usize], s: &State<D>, place: usize) -> bool
    ensures { result ≡ covers_nth (values_of D.Domain.own D.eq) rows.now numbers.now s.now place }
{
    match row_nth(rows, numbers, place) {
        Some(row) => row.state().covers(s),
        None => false,
    }
}

/// Whether one of the rows of these numbers covers a state.
pub fn covers_any<D: Domain>(rows: &[Row<D>], numbers: &[usize], s: &State<D>) -> bool
    ensures { result ≡ list_any (covers_at (values_of D.Domain.own D.eq) rows.now s.now) numbers.now }
{
    numbers.iter().any(|number| covers_at(rows, s, *number))
}

impl RowIndex {
    // No row yet, of so many that are to come; takes no memory.
    fn new(alloc: Global, made: usize) -> RowIndex {
        RowIndex {
            groups: Vec::new(alloc),
            places: IndexMap::new(alloc),
            made,
            crowded: false,
        }
    }

    fn places_at(&self, key: u64) -> &[usize]
        ensures { result.now ≡ places_at self.now key }
    {
        match self.places.get(&key) {
            Some(places) => places.as_slice(),
            None => &[],
        }
    }

    // Whether one of the rows under a key covers a state.
    fn covers_under<D: Domain>(
        &self,
        rows: &[Row<D>],
        numbers: &[usize],
        s: &State<D>,
        key: u64,
    ) -> bool
        ensures { result ≡ list_any (covers_nth (values_of D.Domain.own D.eq) rows.now numbers.now s.now) (places_at self.now key) }
    {
        self.places_at(key)
            .iter()
            .any(|place| covers_nth(rows, numbers, s, *place))
    }

    // Whether a row of a group covers a state, among those that may; among all, where the state does not tell its numbers there.
    fn covers_in<D: Domain>(
        &self,
        rows: &[Row<D>],
        numbers: &[usize],
        s: &State<D>,
        group: &Group,
    ) -> bool
        ensures { result ≡ covers_in (values_of D.Domain.own D.eq) self.now rows.now numbers.now s.now group.now }
    {
        match told_at(group.holders.as_slice(), s) {
            Told::Numbers(digest) => {
                self.covers_under(rows, numbers, s, digest_with(digest, group.number))
            }
            Told::Nothing => false,
            Told::Unclear => covers_any(rows, numbers, s),
        }
    }

    /// Whether a row covers a state, among those that may.
    pub fn covers<D: Domain>(&self, rows: &[Row<D>], numbers: &[usize], s: &State<D>) -> bool
        ensures { result ≡ list_any (covers_in (values_of D.Domain.own D.eq) self.now rows.now numbers.now s.now) self.now.groups.items }
    {
        self.groups
            .iter()
            .any(|group| self.covers_in(rows, numbers, s, group))
    }

    // A group at whose holders a state has numbers, and their digest.
    fn group_of<D: Domain>(&self, s: &State<D>) -> Option<(u64, u64)>
        ensures { IfSome result (λ r. Any (λ g. (g.number ≡ r.0) × (told_at (values_of D.Domain.own D.eq) g.holders.items s.now ≡ told.Numbers r.1)) self.now.groups.items) }
    {
        for group in &self.groups {
            if let Told::Numbers(digest) = told_at(group.holders.as_slice(), s) {
                return Some((group.number, digest));
            }
        }
        None
    }

    // The places under a key, taken out.
    fn take(&mut self, key: u64) -> Vec<usize>
        ensures places { result.items ≡ places_at self.old key }
        ensures groups { self.new.groups ≡ self.old.groups }
        ensures others { (k : ℕ) → nat_eq key k ≡ false → places_at self.new k ≡ places_at self.old k }
    {
        let alloc = *self.groups.allocator();
        match self.places.swap_remove(&key) {
            Some(places) => places,
            None => Vec::new(alloc),
        }
    }

    // One place more under a key.
    fn put(&mut self, key: u64, place: usize) -> Result<(), NoMemory>
        ensures groups { self.new.groups ≡ self.old.groups }
        ensures has { OnOk result (Contains (places_at self.new key) place) }
        ensures kept { OnOk result ((k : ℕ) (p : ℕ) → Contains (places_at self.old k) p → Contains (places_at self.new k) p) }
    {
        let mut places = self.take(key);
        places.push(place)?;
        self.crowded = places.len() % CROWD == 0;
        self.places.insert(key, places)?;
        Ok(())
    }

    // The group that has no holders, with one place.
    fn push_rest(&mut self, place: usize) -> Result<(), NoMemory>
        ensures has { OnOk result (Any (IsInRest self.new place) self.new.groups.items) }
        ensures groups { OnOk result ((more : List Group) × (self.new.groups.items ≡ self.old.groups.items ++ more)) }
        ensures kept { OnOk result ((k : ℕ) (p : ℕ) → Contains (places_at self.old k) p → Contains (places_at self.new k) p) }
    {
        let number = self.groups.len() as u64;
        let holders = Vec::new(*self.groups.allocator());
        self.put(digest_with(0, number), place)?;
        self.groups.push(Group { number, holders })?;
        Ok(())
    }

    /// One row more, at a place among the rows of its location.
    pub fn add<D: Domain>(&mut self, place: usize, s: &State<D>) -> Result<(), NoMemory>
        ensures has { OnOk result (HasPlace (values_of D.Domain.own D.eq) self.new place s.now) }
        ensures kept { OnOk result ((p : ℕ) (t : Known D) → HasPlace (values_of D.Domain.own D.eq) self.old p t → HasPlace (values_of D.Domain.own D.eq) self.new p t) }
    {
        match self.group_of(s) {
            Some((group, digest)) => self.put(digest_with(digest, group), place),
            None => {
                self.push_rest(place)?;
                Ok(())
            }
        }
    }

    /// Whether another index would tell more of so many rows apart, so that it is worth its making: many rows share the newest one's digest, and there are
    /// twice as many rows as when it was made.
    pub fn is_due(&self, count: usize) -> bool {
        self.crowded && self.made <= count / 2
    }

    // The first group; none without holders.
    fn push_first(&mut self, holders: Vec<Holder>) -> Result<(), NoMemory> {
        if holders.is_empty() {
            return Ok(());
        }
        self.groups.push(Group { number: 0, holders })?;
        Ok(())
    }
}

// The row at a place among those of these numbers put in, where there is one.
fn add_nth<D: Domain>(
    index: &mut RowIndex,
    rows: &[Row<D>],
    numbers: &[usize],
    place: usize,
) -> Result<(), NoMemory>
    ensures has { OnOk result ((row : LogRow (Known D)) → row_nth rows.now numbers.now place ≡ Some row → HasPlace (values_of D.Domain.own D.eq) index.new place row.state) }
    ensures kept { OnOk result ((p : ℕ) (t : Known D) → HasPlace (values_of D.Domain.own D.eq) index.old p t → HasPlace (values_of D.Domain.own D.eq) index.new p t) }
{
    match row_nth(rows, numbers, place) {
        Some(row) => index.add(place, row.state()),
        None => Ok(()),
    }
}

// An index without a row, with a group for the rows of these numbers.
fn parted<D: Domain>(
    alloc: Global,
    rows: &[Row<D>],
    numbers: &[usize],
) -> Result<RowIndex, NoMemory> {
    let mut index = RowIndex::new(alloc, numbers.len());
    index.push_first(parting(alloc, rows, numbers)?)?;
    Ok(index)
}

/// An index of the rows of these numbers, by their places among them.
pub fn index_of<D: Domain>(
    alloc: Global,
    rows: &[Row<D>],
    numbers: &[usize],
) -> Result<RowIndex, NoMemory>
    ensures { IfOk result (λ index. (place : ℕ) (row : LogRow (Known D)) → row_nth rows.now numbers.now place ≡ Some row → HasPlace (values_of D.Domain.own D.eq) index place row.state) }
{
    let mut index = parted(alloc, rows, numbers)?;
    for place in 0..numbers.len() {
        add_nth(&mut index, rows, numbers, place)?;
    }
    Ok(index)
}
