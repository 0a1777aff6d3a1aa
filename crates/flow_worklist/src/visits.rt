ghost use Rattle.std.specs.Prelude.{◌≡◌, ◌∷◌, ◌++◌, [], List, None, Some, IfOk, IfSome, OnOk, length, option_map, slice_get};
ghost use Rattle.std.specs.Option.{option_map_or};
ghost use Rattle.std.specs.List.{list_any};
ghost use Rattle.domain_laws.specs.Made.{values_of};
ghost use Rattle.flow_log.specs.Log.{states_at};
ghost use Rattle.abstract_state.specs.State.{IsWellState, Known};
ghost use Rattle.abstract_state.specs.Widening.{seen_of, seen_with};
ghost use Rattle.flow_worklist.specs.Analysis.{widened_by};
ghost use Rattle.flow_worklist.specs.Covering.{covers_at, states_of};
ghost use Rattle.flow_worklist.specs.Exploring.{IsOf, IsSeenOf, index_in, seen_in};
ghost use Rattle.flow_worklist.specs.Grouping.{IsIndexOf};

use crate::Row;
use crate::reading::Reading;
use crate::row_index::{RowIndex, covers_any, index_of};
use abstract_state::{Seen, State};
use bit_words::NoMemory;
use domain_laws::Domain;
use image_loader::Image;
use std::alloc::Global;

/// What is kept of a location: the numbers of its rows, in order, and what the image's bytes there begin with; where there are many rows also the values
/// that their states hold, and an index of them.
#[derive(Drop)]
pub struct Visits<D: Domain> {
    pub numbers: Vec<usize>,
    pub reading: Reading,
    pub seen: Option<Box<Seen<D>>>,
    pub index: Option<Box<RowIndex>>,
}

// From so many rows on they are indexed. To walk a few costs less than to make an index.
const INDEXED: usize = 32;

impl<D: Domain> Visits<D> {
    /// No row yet; takes no memory.
    pub fn new(alloc: Global, image: &Image, at: u32) -> Visits<D>
        ensures numbers { result.numbers.items ≡ [] }
        ensures seen { seen_in result ≡ None }
        ensures index { index_in result ≡ None }
    {
        Visits {
            numbers: Vec::new(alloc),
            reading: Reading::of(image.fetch(at)),
            seen: None,
            index: None,
        }
    }

    /// Whether one of these rows covers a state.
    pub fn covers(&self, at: u32, rows: &[Row<D>], s: &State<D>) -> bool
        requires kept { IsOf (values_of D.Domain.own D.eq) self.now at rows.now }
        requires well { IsWellState (values_of D.Domain.own D.eq) s.now }
        ensures { result ≡ list_any (covers_at (values_of D.Domain.own D.eq) rows.now s.now) self.now.numbers.items }
    {
        match &self.index {
            Some(index) => index.covers(rows, &self.numbers, s),
            None => covers_any(rows, &self.numbers, s),
        }
    }

    /// A state widened by what they hold. Where fewer than `k` rows are, none of its values is raised, and what they hold is not kept.
    pub fn widened(
        &mut self,
        alloc: Global,
        at: u32,
        rows: &[Row<D>],
        k: u32,
        s: State<D>,
    ) -> Result<State<D>, NoMemory>
        requires { IsOf (values_of D.Domain.own D.eq) self.old at rows.now }
        ensures widened { IfOk result (λ widened. widened ≡ widened_by (values_of D.Domain.own D.eq) k (states_at at rows.now) s) }
        ensures well { IfOk result (IsWellState (values_of D.Domain.own D.eq)) }
        ensures kept { OnOk result (IsOf (values_of D.Domain.own D.eq) self.new at rows.now) }
    {
        if self.numbers.len() < k as usize {
            return s.widen(k, &Seen::new(alloc));
        }
        let seen = self.take_seen(alloc, at, rows)?;
        let widened = s.widen(k, &seen)?;
        self.seen = Some(seen);
        Ok(widened)
    }

    // What the states of these rows hold, taken out; made, where it is not kept.
    fn take_seen(
        &mut self,
        alloc: Global,
        at: u32,
        rows: &[Row<D>],
    ) -> Result<Box<Seen<D>>, NoMemory>
        requires { IsOf (values_of D.Domain.own D.eq) self.old at rows.now }
        ensures seen { IfOk result (λ seen. seen.value ≡ seen_of (values_of D.Domain.own D.eq) (states_at at rows.now)) }
        ensures numbers { self.new.numbers ≡ self.old.numbers }
        ensures index { self.new.index ≡ self.old.index }
    {
        match self.seen.take() {
            Some(seen) => Ok(seen),
            None => {
                let seen = seen_of(alloc, rows, &self.numbers)?;
                Ok(Box::new(alloc, seen)?)
            }
        }
    }

    /// An index of the rows, where there are many; made anew where that tells more of them apart.
    pub fn index_many(&mut self, alloc: Global, at: u32, rows: &[Row<D>]) -> Result<(), NoMemory>
        requires { IsOf (values_of D.Domain.own D.eq) self.old at rows.now }
        ensures { OnOk result (IsOf (values_of D.Domain.own D.eq) self.new at rows.now) }
    {
        if self.numbers.len() < INDEXED {
            return Ok(());
        }
        let index = self.take_index(alloc, at, rows)?;
        self.index = Some(index);
        Ok(())
    }

    // An index of these rows, taken out; made, where none is that serves.
    fn take_index(
        &mut self,
        alloc: Global,
        at: u32,
        rows: &[Row<D>],
    ) -> Result<Box<RowIndex>, NoMemory>
        requires { IsOf (values_of D.Domain.own D.eq) self.old at rows.now }
        ensures index { IfOk result (λ index. IsIndexOf (values_of D.Domain.own D.eq) (Some index.value) (states_at at rows.now)) }
        ensures numbers { self.new.numbers ≡ self.old.numbers }
        ensures seen { self.new.seen ≡ self.old.seen }
    {
        match self.take_kept() {
            Some(index) => Ok(index),
            None => {
                let index = index_of(alloc, rows, &self.numbers)?;
                Ok(Box::new(alloc, index)?)
            }
        }
    }

    // The index that is kept, taken out, unless another is due.
    fn take_kept(&mut self) -> Option<Box<RowIndex>>
        ensures index { IfSome result (λ index. Some index.value ≡ index_in self.old) }
        ensures numbers { self.new.numbers ≡ self.old.numbers }
        ensures seen { self.new.seen ≡ self.old.seen }
    {
        match self.index.take() {
            Some(index) => {
                if index.is_due(self.numbers.len()) {
                    None
                } else {
                    Some(index)
                }
            }
            None => None,
        }
    }

    /// One row more, with its number and its state.
    pub fn add(&mut self, number: usize, s: &State<D>) -> Result<(), NoMemory>
        ensures numbers { OnOk result (self.new.numbers.items ≡ self.old.numbers.items ++ number ∷ []) }
        ensures seen { OnOk result ((states : List (Known D)) → IsSeenOf (values_of D.Domain.own D.eq) (seen_in self.old) states → IsSeenOf (values_of D.Domain.own D.eq) (seen_in self.new) (states ++ s.now ∷ [])) }
        ensures index { OnOk result ((states : List (Known D)) → length states ≡ length self.old.numbers.items → IsIndexOf (values_of D.Domain.own D.eq) (index_in self.old) states → IsIndexOf (values_of D.Domain.own D.eq) (index_in self.new) (states ++ s.now ∷ [])) }
    {
        let place = self.numbers.len();
        see(&mut self.seen, s)?;
        add_to(&mut self.index, place, s)?;
        self.numbers.push(number)?;
        Ok(())
    }
}

// What the states of the rows of these numbers hold.
fn seen_of<D: Domain>(
    alloc: Global,
    rows: &[Row<D>],
    numbers: &[usize],
) -> Result<Seen<D>, NoMemory>
    ensures { IfOk result (λ seen. seen ≡ seen_of (values_of D.Domain.own D.eq) (states_of rows.now numbers.now)) }
{
    let mut seen = Seen::new(alloc);
    for number in numbers {
        see_row(&mut seen, rows, *number)?;
    }
    Ok(seen)
}

// What the state of the row of a number holds taken in, where there is one.
fn see_row<D: Domain>(seen: &mut Seen<D>, rows: &[Row<D>], number: usize) -> Result<(), NoMemory>
    ensures { OnOk result (seen.new ≡ option_map_or (λ row. seen_with (values_of D.Domain.own D.eq) row.state seen.old) (slice_get rows.now number) seen.old) }
{
    match rows.get(number) {
        Some(row) => {
            seen.add(row.state())?;
            Ok(())
        }
        None => Ok(()),
    }
}

// What a state holds taken in, where what the others hold is kept.
fn see<D: Domain>(seen: &mut Option<Box<Seen<D>>>, s: &State<D>) -> Result<(), NoMemory>
    ensures { OnOk result ((states : List (Known D)) → IsSeenOf (values_of D.Domain.own D.eq) (option_map (λ b. b.value) seen.old) states → IsSeenOf (values_of D.Domain.own D.eq) (option_map (λ b. b.value) seen.new) (states ++ s.now ∷ [])) }
{
    match seen {
        Some(seen) => {
            seen.add(s)?;
            Ok(())
        }
        None => Ok(()),
    }
}

// One row more in an index, where there is one.
fn add_to<D: Domain>(
    index: &mut Option<Box<RowIndex>>,
    place: usize,
    s: &State<D>,
) -> Result<(), NoMemory>
    ensures { OnOk result ((states : List (Known D)) → length states ≡ place → IsIndexOf (values_of D.Domain.own D.eq) (option_map (λ b. b.value) index.old) states → IsIndexOf (values_of D.Domain.own D.eq) (option_map (λ b. b.value) index.new) (states ++ s.now ∷ [])) }
{
    match index {
        Some(index) => {
            index.add(place, s)?;
            Ok(())
        }
        None => Ok(()),
    }
}
