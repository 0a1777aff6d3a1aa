ghost use Rattle.std.specs.Prelude.{◌≡◌, ◌+◌, OnOk};
ghost use Rattle.std.specs.List.Sorted.{IsNonDecreasingBy, IsPermutation};
ghost use Rattle.memory_map.specs.Spans.{is_in_span};

use std::alloc::AllocError;

/// Addresses from `low` on, `size` of them.
#[derive(Clone, Copy, Debug, PartialEq, Eq)]
pub struct Span {
    pub low: u32,
    pub size: u32,
}

/// Sorts spans by their first addresses.
pub fn sort_by_low(spans: &mut Vec<Span>) -> Result<(), AllocError>
    ensures moved { IsPermutation spans.old.items spans.new.items }
    ensures sorted { OnOk result (IsNonDecreasingBy (λ s. s.low) spans.new.items) }
{
    spans.sort_by_key(|s| s.low)?;
    Ok(())
}

impl Span {
    /// The address after the last one of them.
    pub fn end(&self) -> u64
        ensures { result ≡ self.now.low + self.now.size }
    {
        u64::from(self.low) + u64::from(self.size)
    }

    /// Whether an address is one of them.
    pub fn has(&self, a: u64) -> bool
        ensures { result ≡ is_in_span a self.now }
    {
        u64::from(self.low) <= a && a < self.end()
    }
}
