ghost use Rattle.std.specs.Prelude.{◌≡◌, IfSome};
ghost use Rattle.std.specs.List.Sorted.{IsPermutation};
ghost use Rattle.memory_map.specs.Spans.{is_in_ranges};

use crate::Span;
use crate::span_index::SpanIndex;
use std::marker::Model;

// So many ranges are tried one after another.
const FEW_RANGES: usize = 16;

/// Ranges of addresses, which contracts see as their list. Where they are many, an index finds the ones with an address.
#[derive(Drop)]
pub struct Ranges {
    held: Vec<Span>,
    // Not there where the ranges are few, or where there was no memory for it.
    index: Option<SpanIndex>,
}

impl Model for Ranges {
    ghost use Rattle.std.specs.Prelude.{List, IfSome};
    ghost use Rattle.std.specs.List.Sorted.{IsPermutation};
    ghost use Rattle.memory_map.specs.declared.span.Span.{Span};

    ghost Value = { List Span };

    ghost view = { λ r. r.held.items };

    ghost invariant = { λ r. IfSome r.index (λ index. IsPermutation r.held.items index) };
}

fn index_of(held: &Vec<Span>) -> Option<SpanIndex>
    ensures { IfSome result (λ index. IsPermutation held.now.items index) }
{
    if held.len() <= FEW_RANGES {
        return None;
    }
    SpanIndex::new(*held.allocator(), held).ok()
}

impl Ranges {
    /// The ranges of a vector. For many it takes memory for an index, and goes without one where there is none.
    pub fn from_vec(held: Vec<Span>) -> Ranges
        ensures { result ≡ held.items }
    {
        let index = index_of(&held);
        Ranges { held, index }
    }

    /// The vector again; takes no memory.
    pub fn into_vec(self) -> Vec<Span>
        ensures { result.items ≡ self }
    {
        self.held
    }

    /// The ranges, in order.
    pub fn as_slice(&self) -> &[Span]
        ensures { result.now ≡ self.now }
    {
        self.held.as_slice()
    }

    /// Whether an address is in one of them.
    pub fn has(&self, a: u64) -> bool
        ensures { result ≡ is_in_ranges a self.now }
    {
        match &self.index {
            Some(index) => index.has(a),
            None => self.held.iter().any(|s| s.has(a)),
        }
    }
}
