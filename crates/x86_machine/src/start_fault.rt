ghost use Rattle.std.specs.Prelude.{◌≡◌};

use std::alloc::AllocError;

/// Why a start file gives no state of the machine: the first of these, in their order.
#[derive(Clone, Copy, Debug, PartialEq, Eq)]
pub enum StartFault {
    /// The stack pointer is no multiple of the image's alignment.
    Align,
    /// A window leaves the addresses where a program's memory may lie.
    Window,
    /// A window shares an address with a segment or with another window.
    Overlap,
    /// The fill with this index, counted from 0, is the first with a byte that is in no window and not unset, or is in the
    /// exit word of a PE image.
    Fill { index: u64 },
    Memory,
}

impl From<AllocError> for StartFault {
    ghost use Rattle.x86_machine.specs.declared.start_fault.StartFault.TheVariants.{Memory};

    ghost from_gives = { λ _ e. e ≡ Memory };

    fn from(_e: AllocError) -> StartFault {
        StartFault::Memory
    }
}
