ghost use Rattle.std.specs.Prelude.{◌≡◌};

use bit_words::NoMemory;
use std::alloc::{AllocError, AllocFailed};
use x86_machine::StartFault;

/// Why there is no run.
#[derive(Clone, Copy, Debug, PartialEq, Eq)]
pub enum RunFault {
    /// The start file states no state of the machine; never for want of memory.
    Start(StartFault),
    Memory,
}

impl From<StartFault> for RunFault {
    ghost use Rattle.run_replayer.specs.StartRefused.{run_fault_of};

    ghost from_gives = { λ fault e. e ≡ run_fault_of fault };

    fn from(fault: StartFault) -> RunFault {
        match fault {
            StartFault::Memory => RunFault::Memory,
            _ => RunFault::Start(fault),
        }
    }
}

impl From<AllocError> for RunFault {
    ghost use Rattle.run_replayer.specs.declared.run_fault.RunFault.TheVariants.{Memory};

    ghost from_gives = { λ _ e. e ≡ Memory };

    fn from(_e: AllocError) -> RunFault {
        RunFault::Memory
    }
}

impl<T: Drop> From<AllocFailed<T>> for RunFault {
    ghost use Rattle.run_replayer.specs.declared.run_fault.RunFault.TheVariants.{Memory};

    ghost from_gives = { λ _ e. e ≡ Memory };

    fn from(_e: AllocFailed<T>) -> RunFault {
        RunFault::Memory
    }
}

impl From<NoMemory> for RunFault {
    ghost use Rattle.run_replayer.specs.declared.run_fault.RunFault.TheVariants.{Memory};

    ghost from_gives = { λ _ e. e ≡ Memory };

    fn from(_e: NoMemory) -> RunFault {
        RunFault::Memory
    }
}
