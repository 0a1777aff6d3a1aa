ghost use Rattle.std.specs.Prelude.{◌≡◌, IfOk};
ghost use Rattle.memory_map.specs.Map.{is_in_user_space};
ghost use Rattle.memory_map.specs.Range.{end_of, has};
ghost use Rattle.x86_machine.specs.Started.{base_window, stack_window, zero_window};

use crate::StartFile;
use memory_map::{USER_END, USER_LOW};
use statement_lang::Block;
use std::alloc::{AllocError, Global};

// The stack window reaches this far below the stack pointer, and this far above it.
const STACK_BELOW: u32 = 1_048_576;

const STACK_ABOVE: u32 = 4096;

// The windows of fs and gs reach this far to either side of their bases.
const BASE_REACH: u32 = 4096;

/// A window round a base, and how far it reaches below and above it.
#[derive(Clone, Copy)]
pub struct Window {
    base: u32,
    below: u32,
    above: u32,
}

/// The stack window of a start file.
pub fn stack_window(start: &StartFile) -> Window
    ensures { zero_window result.below result.above result.base ≡ stack_window start.now }
{
    Window {
        base: start.regs[4],
        below: STACK_BELOW,
        above: STACK_ABOVE,
    }
}

/// The window of the segment with a base.
pub fn base_window(base: u32) -> Window
    ensures { zero_window result.below result.above result.base ≡ base_window base }
{
    Window {
        base,
        below: BASE_REACH,
        above: BASE_REACH,
    }
}

impl Window {
    fn low(self) -> u32
        ensures { result ≡ (zero_window self.below self.above self.base).low }
    {
        self.base.saturating_sub(self.below)
    }

    #[tactic(auto, using(crate::proofs::Apart::zeros_size))]
    fn end(self) -> u64
        ensures { result ≡ end_of (zero_window self.below self.above self.base) }
    {
        u64::from(self.low()) + u64::from(self.below) + u64::from(self.above)
    }

    /// Whether an address is in it.
    #[tactic(auto, using(crate::proofs::Apart::zeros_size))]
    pub fn has(self, a: u64) -> bool
        ensures { result ≡ has a (zero_window self.below self.above self.base) }
    {
        u64::from(self.low()) <= a && a < self.end()
    }

    /// Whether it lies where a program's memory may.
    #[tactic(auto, using(crate::proofs::Apart::zeros_size))]
    pub fn is_in_user_space(self) -> bool
        ensures { result ≡ is_in_user_space (zero_window self.below self.above self.base) }
    {
        USER_LOW <= self.low() && self.end() <= u64::from(USER_END)
    }

    /// The window as a range of zeros.
    #[tactic(auto, unfolding(crate::specs::Started::zeros))]
    pub fn zeros(self, alloc: Global) -> Result<Block, AllocError>
        ensures { IfOk result (λ r. r ≡ zero_window self.below self.above self.base) }
    {
        let size = self.below as usize + self.above as usize;
        let bytes = vec![in alloc; 0u8; size]?;
        Ok(Block::new(self.low(), bytes, true, false))
    }
}
