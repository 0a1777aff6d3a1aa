ghost use Rattle.std.specs.Prelude.{◌≡◌, ◌≤◌, length};

use std::marker::Model;

/// A name for an image to import, of at most 4,096 bytes, and whether its symbol is weak.
#[derive(Drop)]
pub struct Import<'a> {
    name: &'a [u8],
    weak: bool,
}

impl<'a> Model for Import<'a> {
    ghost use Rattle.demo_images.specs.Imported.{Imported, imported, HasShortName};

    ghost Value = { Imported };

    ghost view = { imported };

    ghost invariant = { HasShortName };
}

impl<'a> Import<'a> {
    /// The import of a name.
    pub fn new(name: &'a [u8], weak: bool) -> Import<'a>
        requires { length name.now ≤ 4096 }
        ensures { result ≡ record { name = name.now; weak = weak } }
    {
        Import { name, weak }
    }

    /// The bytes of the name.
    pub fn name(&self) -> &[u8]
        ensures bytes { result.now ≡ self.now.name }
        ensures short { length self.now.name ≤ 4096 }
    {
        self.name
    }

    /// Whether the symbol is weak.
    pub fn is_weak(&self) -> bool
        ensures { result ≡ self.now.weak }
    {
        self.weak
    }
}
