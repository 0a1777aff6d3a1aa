ghost use Rattle.std.specs.Prelude.{◌≡◌, ◌<◌, IfSome, IfNone, All, true, false, if◌then◌else◌, is_ok, length, map, ◌++◌, ◌∷◌, []};
ghost use Rattle.std.specs.List.{list_all};
ghost use Rattle.memory_map.specs.Range.{byte_at, code_at, has, may_write};
ghost use Rattle.memory_map.specs.Spans.{AreAll};
ghost use Rattle.statement_lang.specs.Filling.{fill_byte};
ghost use Rattle.statement_lang.specs.Indexed.{IsIndexed, IsPlaced, IsRank, is_clear, may_map, range_at};
ghost use Rattle.x86_semantics.specs.Memory.{put_byte};

use crate::Block;
use std::alloc::{AllocError, Global};
use std::marker::Model;

/// Ranges that share no address and lie where a program's memory may, which contracts see as their list. An index finds
/// the one that has an address among many.
#[derive(Drop)]
pub struct Mapped {
    held: Vec<Block>,
    // The places of the ranges, in the order of their addresses.
    order: Vec<usize>,
}

impl Model for Mapped {
    ghost use Rattle.std.specs.Prelude.{List};
    ghost use Rattle.memory_map.specs.Range.{Range};
    ghost use Rattle.statement_lang.specs.Indexed.{IsIndexed};

    ghost Value = { List Range };

    ghost view = { λ m. m.held.items };

    ghost invariant = { λ m. IsIndexed m.held.items m.order.items };
}

fn low_at(list: &[Block], p: usize) -> u64
    requires { p < length list.now }
    ensures { result ≡ (range_at list.now p).low }
{
    list[p].low()
}

// How many ranges begin at or below an address.
fn rank(list: &[Block], order: &[usize], a: u64) -> usize
    requires { IsIndexed list.now order.now }
    ensures { IsRank list.now order.now a result }
{
    let mut low = 0;
    let mut high = order.len();
    while low < high {
        let middle = low + (high - low) / 2;
        if low_at(list, order[middle]) <= a {
            low = middle + 1;
        } else {
            high = middle;
        }
    }
    low
}

// The place of the range that has an address.
fn place(list: &[Block], order: &[usize], a: u64) -> Option<usize>
    requires { IsIndexed list.now order.now }
    ensures some { IfSome result (IsPlaced list.now a) }
    ensures none { IfNone result (All (λ r. has a r ≡ false) list.now) }
{
    let count = rank(list, order, a);
    if count == 0 {
        return None;
    }
    let p = order[count - 1];
    if list[p].has(a) { Some(p) } else { None }
}

impl Mapped {
    /// No ranges; takes no memory.
    pub fn none(alloc: Global) -> Mapped
        ensures { result ≡ [] }
    {
        Mapped {
            held: Vec::new(alloc),
            order: Vec::new(alloc),
        }
    }

    /// The byte at an address, where one is mapped.
    pub fn byte_at(&self, a: u64) -> Option<u8>
        ensures { result ≡ byte_at self.now a }
    {
        match place(&self.held, &self.order, a) {
            Some(p) => self.held[p].byte(a),
            None => None,
        }
    }

    /// The byte at an address, where one is mapped that may be executed.
    pub fn code_at(&self, a: u64) -> Option<u8>
        ensures { result ≡ code_at self.now a }
    {
        match place(&self.held, &self.order, a) {
            Some(p) => self.held[p].code(a),
            None => None,
        }
    }

    /// The end of the range that has an address, where it may be written.
    pub fn writable_until(&self, a: u64) -> Option<u64>
        ensures on { IfSome result (λ end. a < end) }
        ensures each { IfSome result (AreAll (may_write self.now) true a) }
        ensures none { IfNone result (may_write self.now a ≡ false) }
    {
        match place(&self.held, &self.order, a) {
            Some(p) => self.held[p].writable_end(),
            None => None,
        }
    }

    /// Whether no range has an address from one up to another.
    pub fn is_clear(&self, low: u64, end: u64) -> bool
        requires { low < end }
        ensures { result ≡ list_all (is_clear low end) self.now }
    {
        let count = rank(&self.held, &self.order, end - 1);
        count == 0 || self.held[self.order[count - 1]].is_clear(low, end)
    }

    /// Puts a byte at an address, where it may be written.
    pub fn put(&mut self, a: u64, b: u8)
        ensures { self.new ≡ map (put_byte a b) self.old }
    {
        match place(&self.held, &self.order, a) {
            Some(p) => self.held[p].put(a, b),
            None => {}
        }
    }

    /// Puts a byte at an address, where one is mapped.
    pub fn fill(&mut self, a: u64, b: u8)
        ensures { self.new ≡ map (fill_byte a b) self.old }
    {
        match place(&self.held, &self.order, a) {
            Some(p) => self.held[p].fill(a, b),
            None => {}
        }
    }

    /// One range more; after a refusal nothing has changed.
    pub fn add(&mut self, block: Block) -> Result<(), AllocError>
        requires { may_map self.old block ≡ true }
        ensures { self.new ≡ (if is_ok result then self.old ++ block ∷ [] else self.old) }
    {
        let count = rank(&self.held, &self.order, block.low());
        let p = self.held.len();
        self.order.try_reserve(1)?;
        self.held.push(block)?;
        self.order.insert(count, p)?;
        Ok(())
    }
}
