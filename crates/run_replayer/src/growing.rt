ghost use Rattle.std.specs.Prelude.{◌≡◌, ◌++◌, ◌∷◌, [], MatchOption, OnOk};

use memory_map::Items;
use std::alloc::{AllocError, Global};
use std::marker::Model;

/// A list that grows at its end, of which contracts see the elements alone.
#[derive(Drop)]
pub struct Growing<T> {
    held: Vec<T>,
}

impl<T> Model for Growing<T> {
    ghost use Rattle.std.specs.Prelude.{List};

    ghost Value = { List T };

    ghost view = { λ g. g.held.items };
}

impl<T> Growing<T> {
    /// No element; takes no memory.
    pub fn new(alloc: Global) -> Growing<T>
        ensures { result ≡ [] }
    {
        Growing {
            held: Vec::new(alloc),
        }
    }

    /// Takes the last element off; takes no memory.
    pub fn pop(&mut self) -> Option<T>
        ensures { MatchOption result ((self.old ≡ []) × (self.new ≡ [])) (λ last. self.old ≡ self.new ++ last ∷ []) }
    {
        self.held.pop()
    }

    /// All elements; takes no memory.
    pub fn into_items(self) -> Items<T>
        ensures { result ≡ self }
    {
        Items::from_vec(self.held)
    }
}

impl<T: Drop> Growing<T> {
    /// Puts an element behind the others.
    pub fn push(&mut self, item: T) -> Result<(), AllocError>
        ensures { OnOk result (self.new ≡ self.old ++ item ∷ []) }
    {
        self.held.push(item)?;
        Ok(())
    }
}
