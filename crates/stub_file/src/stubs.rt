ghost use Rattle.std.specs.Prelude.{◌≡◌, IfSome, IsTrue, option_copied, true};
ghost use Rattle.memory_map.specs.Alignment.{IsAlignment};
ghost use Rattle.stub_file.specs.Entries.{are_own, named_of};
ghost use Rattle.stub_file.specs.Stated.{has_own_arguments};
ghost use Rattle.stub_file.specs.Stubs.{align_is_kept, no_stubs, stub_named};

use crate::stub::Stub;
use std::alloc::Global;
use std::collections::BTreeMap;
use std::marker::Model;

/// Stubs by the names of the imports, and the alignment of a stack where one is stated: a power of two from 4 to
/// 4,096. Each index of an argument is below the stub's `args` / 4.
#[derive(Drop)]
pub struct Stubs {
    stack: Option<u32>,
    stubs: BTreeMap<Vec<u8>, Stub>,
}

impl Model for Stubs {
    ghost use Rattle.std.specs.Prelude.{◌≡◌, true};
    ghost use Rattle.memory_map.specs.Alignment.{IsAlignment};
    ghost use Rattle.stub_file.specs.Entries.{are_own, named_of};
    ghost use Rattle.stub_file.specs.Stubs.{StatedStubs, align_is_kept};

    ghost Value = { StatedStubs };

    ghost view = { λ s. record { align = s.stack; named = named_of s.stubs.entries } };

    ghost invariant = { λ s. (align_is_kept s.stack ≡ true) × (are_own s.stubs.entries ≡ true) };
}

impl Stubs {
    /// No stubs, and no alignment; takes no memory.
    pub fn none(alloc: Global) -> Stubs
        ensures { result ≡ no_stubs }
    {
        Stubs {
            stack: None,
            stubs: BTreeMap::new(alloc),
        }
    }

    pub(crate) fn new(stack: Option<u32>, stubs: BTreeMap<Vec<u8>, Stub>) -> Stubs
        requires align { align_is_kept stack ≡ true }
        requires own { are_own stubs.entries ≡ true }
        ensures { result ≡ record { align = stack; named = named_of stubs.entries } }
    {
        Stubs { stack, stubs }
    }

    /// The stub of the import with this name; takes no memory.
    pub fn find(&self, name: &[u8]) -> Option<&Stub>
        ensures found { option_copied result ≡ stub_named name.now self.now }
        ensures own { IfSome result (λ stub. IsTrue (has_own_arguments stub.now)) }
    {
        self.stubs.get(name)
    }

    /// The alignment of a stack, where one is stated; takes no memory.
    pub fn align(&self) -> Option<u32>
        ensures value { result ≡ self.now.align }
        ensures kept { IfSome result IsAlignment }
    {
        self.stack
    }
}
