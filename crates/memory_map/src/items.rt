ghost use Rattle.std.specs.Prelude.{◌≡◌, length};

use std::marker::Model;

/// A list, of which contracts see the elements alone.
#[derive(Drop)]
pub struct Items<T> {
    held: Vec<T>,
}

impl<T> Model for Items<T> {
    ghost use Rattle.std.specs.Prelude.{List};

    ghost Value = { List T };

    ghost view = { λ i. i.held.items };
}

impl<T> Items<T> {
    /// The elements of a vector; takes no memory.
    pub fn from_vec(held: Vec<T>) -> Items<T>
        ensures { result ≡ held.items }
    {
        Items { held }
    }

    /// The vector again; takes no memory.
    pub fn into_vec(self) -> Vec<T>
        ensures { result.items ≡ self }
    {
        self.held
    }

    /// The elements, in order.
    pub fn as_slice(&self) -> &[T]
        ensures { result.now ≡ self.now }
    {
        self.held.as_slice()
    }

    /// How many there are.
    pub fn len(&self) -> usize
        ensures { result ≡ length self.now }
    {
        self.held.len()
    }
}
