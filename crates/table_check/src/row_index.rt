ghost use Rattle.std.specs.Prelude.{ℕ, ◌≡◌, ◌==◌, ◌&&◌, IfOk, OnOk, false, nat_eq};
ghost use Rattle.std.specs.List.{list_any};
ghost use Rattle.domain_laws.specs.Made.{values_of};
ghost use Rattle.abstract_state.specs.State.{covers_state};
ghost use Rattle.table_check.specs.Checking.{AddsNumber, IsIndexOf, covers_at, numbers_at};

use abstract_state::State;
use bit_words::NoMemory;
use domain_laws::Domain;
use std::alloc::Global;
use std::collections::HashMap;

/// The numbers of rows by their locations, in order.
#[derive(Drop)]
pub struct RowIndex {
    numbers: HashMap<u32, Vec<usize>>,
}

// Whether the row of a number covers a state.
fn covers_at<D: Domain>(rows: &[(u32, State<D>)], s: &State<D>, number: usize) -> bool
    ensures { result ≡ covers_at (values_of D.Domain.own D.eq) rows.now s.now number }
{
    match rows.get(number) {
        Some(row) => row.1.covers(s),
        None => false,
    }
}

// Whether one of the rows of these numbers covers a state.
fn any_covers<D: Domain>(rows: &[(u32, State<D>)], s: &State<D>, numbers: &[usize]) -> bool
    ensures { result ≡ list_any (covers_at (values_of D.Domain.own D.eq) rows.now s.now) numbers.now }
{
    numbers.iter().any(|number| covers_at(rows, s, *number))
}

impl RowIndex {
    /// The index of these rows.
    pub fn of<S>(alloc: Global, rows: &[(u32, S)]) -> Result<RowIndex, NoMemory>
        ensures { IfOk result (λ index. IsIndexOf index rows.now) }
    {
        let mut index = RowIndex {
            numbers: HashMap::new(alloc),
        };
        for (number, row) in rows.iter().enumerate() {
            index.add(alloc, row.0, number)?;
        }
        Ok(index)
    }

    // The numbers of a location, taken out.
    fn take(&mut self, alloc: Global, at: u32) -> Vec<usize>
        ensures taken { result.items ≡ numbers_at self.old at }
        ensures others { (q : ℕ) → nat_eq at q ≡ false → numbers_at self.new q ≡ numbers_at self.old q }
    {
        match self.numbers.remove(&at) {
            Some(numbers) => numbers,
            None => Vec::new(alloc),
        }
    }

    // One number more at a location.
    fn add(&mut self, alloc: Global, at: u32, number: usize) -> Result<(), NoMemory>
        ensures { OnOk result (AddsNumber at number self.old self.new) }
    {
        let mut numbers = self.take(alloc, at);
        numbers.push(number)?;
        self.numbers.insert(at, numbers)?;
        Ok(())
    }

    // The numbers of the rows at a location.
    fn at(&self, at: u32) -> &[usize]
        ensures { result.now ≡ numbers_at self.now at }
    {
        match self.numbers.get(&at) {
            Some(numbers) => numbers.as_slice(),
            None => &[],
        }
    }

    /// Whether one of these rows is at a location and covers a state.
    pub fn covers<D: Domain>(&self, rows: &[(u32, State<D>)], at: u32, s: &State<D>) -> bool
        requires { IsIndexOf self.now rows.now }
        ensures { result ≡ list_any (λ row. row.0 == at && covers_state (values_of D.Domain.own D.eq) row.1 s.now) rows.now }
    {
        any_covers(rows, s, self.at(at))
    }
}
