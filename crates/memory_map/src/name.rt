ghost use Rattle.std.specs.Prelude.{◌≡◌, IfOk, Some, None, if◌then◌else◌, IsTrue, ◌&&◌, length, nat_eq, nat_le, refl};
ghost use Rattle.std.specs.Cmp.{nat_cmp_total, nat_eq_equiv, partial_equiv_from_equiv, unsigned_po, unsigned_ties};
ghost use Rattle.std.specs.Cmp.Lexicographic.{lists_agrees, lists_equiv, lists_per, lists_po, lists_ties, lists_total, pointwise, slice_cmp, slice_partial_cmp};
ghost use Rattle.std.specs.Ordering.{nat_cmp};
ghost use Rattle.std.specs.List.{list_all};
ghost use Rattle.memory_map.specs.Name.{is_name, is_name_byte};

use std::alloc::{AllocError, Global};
use std::cmp::Ordering;
use std::marker::Model;

/// The longest name of an import.
pub const LONGEST_NAME: usize = 4096;

/// The most names that an image imports.
pub const MOST_NAMES: usize = 65_535;

/// The name of an import: 1 to 4,096 bytes of 21 to 7E, which contracts see as their list.
#[derive(Drop)]
pub struct Name {
    held: Vec<u8>,
}

impl Model for Name {
    ghost use Rattle.std.specs.Prelude.{◌≡◌, List, ℕ, true};
    ghost use Rattle.memory_map.specs.Name.{is_name};

    ghost Value = { List ℕ };

    ghost view = { λ n. n.held.items };

    ghost invariant = { λ n. is_name n.held.items ≡ true };
}

impl Name {
    /// The name with these bytes, where they are one; takes no memory.
    pub fn new(bytes: Vec<u8>) -> Option<Name>
        ensures { result ≡ (if is_name bytes.items then Some bytes.items else None) }
    {
        if is_name(&bytes) {
            Some(Name { held: bytes })
        } else {
            None
        }
    }

    /// The same name again.
    pub fn copy(&self, alloc: Global) -> Result<Name, AllocError>
        ensures { IfOk result (λ copy. copy ≡ self.now) }
    {
        let held = Vec::from_slice(alloc, self.held.as_slice())?;
        Ok(Name { held })
    }

    /// Its bytes, in order.
    pub fn as_slice(&self) -> &[u8]
        ensures bytes { result.now ≡ self.now }
        ensures name { IsTrue (is_name self.now) }
    {
        self.held.as_slice()
    }
}

impl PartialEq for Name {
    ghost eq = { pointwise nat_eq };

    ghost laws = { lists_per (partial_equiv_from_equiv nat_eq_equiv) };

    fn eq(&self, other: &Name) -> bool {
        self.held.as_slice() == other.held.as_slice()
    }
}

impl Eq for Name {
    ghost laws = { lists_equiv nat_eq_equiv };
}

impl PartialOrd for Name {
    ghost partial_cmp = { slice_partial_cmp (λ x y. Some (nat_cmp x y)) };

    ghost laws = { lists_po unsigned_po };

    fn partial_cmp(&self, other: &Name) -> Option<Ordering> {
        self.held.as_slice().partial_cmp(&other.held.as_slice())
    }
}

impl Ord for Name {
    ghost cmp = { slice_cmp nat_cmp };

    ghost total = { lists_total nat_cmp_total };

    ghost matches_partial_cmp = { lists_agrees (λ x y. refl) };

    ghost matches_eq = { lists_ties nat_cmp unsigned_ties };

    fn cmp(&self, other: &Name) -> Ordering {
        self.held.as_slice().cmp(&other.held.as_slice())
    }
}

fn is_name_byte(b: u8) -> bool
    ensures { result ≡ is_name_byte b }
{
    0x21 <= b && b <= 0x7E
}

fn has_name_length(bytes: &[u8]) -> bool
    ensures { result ≡ (nat_le 1 (length bytes.now) && nat_le (length bytes.now) 4096) }
{
    1 <= bytes.len() && bytes.len() <= LONGEST_NAME
}

fn are_name_bytes(bytes: &[u8]) -> bool
    ensures { result ≡ list_all is_name_byte bytes.now }
{
    bytes.iter().all(|b| is_name_byte(*b))
}

/// Whether bytes are a name: 1 to 4,096 of them, each from 21 to 7E.
pub fn is_name(bytes: &[u8]) -> bool
    ensures { result ≡ is_name bytes.now }
{
    has_name_length(bytes) && are_name_bytes(bytes)
}
