ghost use Rattle.std.specs.Prelude.{◌≡◌, ◌↔◌, Contains, IsTrue};
ghost use Rattle.std.specs.List.Sorted.{IsPermutation};

use std::cmp::Ordering;
use std::marker::Model;

/// Items in ascending order, in which one is soon found. Contracts see their list.
#[derive(Drop)]
pub struct Sorted<T: Ord> {
    items: Vec<T>,
}

impl<T: Ord> Model for Sorted<T> {
    ghost use Rattle.std.specs.Prelude.{List};
    ghost use Rattle.std.specs.List.Sorted.{IsSorted};

    ghost Value = { List T };

    ghost view = { λ s. s.items.items };

    ghost invariant = { λ s. IsSorted T.cmp s.items.items };
}

impl<T: Ord + Drop> Sorted<T> {
    /// These items, sorted; takes no memory.
    pub fn new(mut items: Vec<T>) -> Sorted<T>
        ensures { IsPermutation items.items result }
    {
        items.sort_unstable();
        Sorted { items }
    }

    /// Whether an item is one of these.
    pub fn has(&self, x: &T) -> bool
        requires { (a b : T) → T.cmp a b ≡ Ordering.Equal → a ≡ b }
        ensures { IsTrue result ↔ Contains self.now x.now }
    {
        self.items.as_slice().binary_search(x).is_ok()
    }
}
