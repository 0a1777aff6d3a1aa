ghost use Rattle.std.specs.Prelude.{◌≡◌, ◌++◌, ◌∷◌, [], length, nat_lt, true, false, OnOk, option_copied};
ghost use Rattle.std.specs.List.Sorted.{IsPartitionPoint};
ghost use Rattle.automaton_text.specs.Reading.{AreAscending, is_above, is_location, is_place_of, location_at};

use crate::Location;
use memory_map::Name;
use std::alloc::{AllocError, Global};
use std::marker::Model;

/// Locations in ascending order, in which one is soon found. Contracts see their list.
#[derive(Drop)]
pub struct Places {
    held: Vec<Location>,
}

impl Model for Places {
    ghost use Rattle.std.specs.Prelude.{List};
    ghost use Rattle.automaton_text.specs.declared.automaton.Location.{Location};
    ghost use Rattle.automaton_text.specs.Reading.{AreAscending};

    ghost Value = { List Location };

    ghost view = { λ p. p.held.items };

    ghost invariant = { λ p. AreAscending p.held.items };
}

// How many locations of an ascending list are below an address.
fn count_below(locations: &[Location], at: u32) -> usize
    requires { AreAscending locations.now }
    ensures { IsPartitionPoint (λ l. nat_lt l.at at ≡ true) (λ l. nat_lt l.at at ≡ false) locations.now result }
{
    locations.partition_point(|l| l.at < at)
}

// The location at an address in an ascending list.
fn find_in(locations: &[Location], at: u32) -> Option<&Location>
    requires { AreAscending locations.now }
    ensures { option_copied result ≡ location_at locations.now at }
{
    let i = count_below(locations, at);
    if i >= locations.len() {
        return None;
    }
    let l = &locations[i];
    if l.at == at { Some(l) } else { None }
}

impl Places {
    /// No location; takes no memory.
    pub fn new(alloc: Global) -> Places
        ensures { result ≡ [] }
    {
        Places {
            held: Vec::new(alloc),
        }
    }

    /// Whether an address stands above the last location.
    pub fn is_above(&self, at: u32) -> bool
        ensures { result ≡ is_above self.now at }
    {
        match self.held.last() {
            None => true,
            Some(l) => l.at < at,
        }
    }

    /// Puts a location behind the others.
    pub fn push(&mut self, l: Location) -> Result<(), AllocError>
        requires { is_above self.old l.at ≡ true }
        ensures { OnOk result (self.new ≡ self.old ++ l ∷ []) }
    {
        self.held.push(l)?;
        Ok(())
    }

    /// The location at an address.
    fn find(&self, at: u32) -> Option<&Location>
        ensures { option_copied result ≡ location_at self.now at }
    {
        find_in(&self.held, at)
    }

    /// Whether an address is a location.
    pub fn has(&self, at: u32) -> bool
        ensures { result ≡ is_location self.now at }
    {
        match self.find(at) {
            Some(_) => true,
            None => false,
        }
    }

    /// Whether an address is the place of the import of this name.
    pub fn is_place_of(&self, at: u32, name: &Name) -> bool
        ensures { result ≡ is_place_of self.now at name.now }
    {
        match self.find(at) {
            None => false,
            Some(l) => match &l.name {
                None => false,
                Some(held) => held.as_slice() == name.as_slice(),
            },
        }
    }

    /// How many there are.
    pub fn len(&self) -> usize
        ensures { result ≡ length self.now }
    {
        self.held.len()
    }

    /// The locations as a vector; takes no memory.
    pub fn into_vec(self) -> Vec<Location>
        ensures { result.items ≡ self }
    {
        self.held
    }
}
