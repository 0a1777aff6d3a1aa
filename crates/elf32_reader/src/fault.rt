ghost use Rattle.std.specs.Prelude.{◌≡◌};

use std::alloc::{AllocError, AllocFailed};

/// Why a file is refused, in the order in which its faults are tried.
#[derive(Clone, Copy, Debug, PartialEq, Eq)]
pub enum ElfFault {
    /// It is shorter than the file header.
    Short,
    /// It does not begin with 7F, `ELF`.
    Magic,
    /// It is no 32-bit file.
    Class,
    /// Its numbers do not have the lowest byte first.
    DataOrder,
    /// It is neither an executable nor a shared object.
    Kind,
    /// It is not for the Intel386.
    Machine,
    /// A program header does not have 32 bytes, or there is none or more than 64.
    Headers,
    /// The program headers pass the file's end.
    HeadersOutside,
    /// The file bytes of a segment pass the file's end.
    SegmentOutside,
    /// A segment has more bytes in the file than in memory.
    FileLonger,
    /// A segment leaves the addresses where a program's memory may lie.
    Address,
    /// Two segments share a byte.
    Overlap,
    /// The segments have more than 67,108,864 bytes.
    TooLarge,
    /// The dynamic section, a table or a symbol is not there or not as it must be.
    Dynamic,
    /// What a relocation changes is not in one segment.
    RelocOutside,
    /// An imported name is not ended where it must be, or is none that an import may have.
    Name,
    /// There are more than 65,535 imported names.
    ManyImports,
    Memory,
}

impl From<AllocError> for ElfFault {
    ghost use Rattle.elf32_reader.specs.declared.fault.ElfFault.{ElfFault};

    ghost from_gives = { λ _ e. e ≡ ElfFault.Memory };

    fn from(_e: AllocError) -> ElfFault {
        ElfFault::Memory
    }
}

impl<T: Drop> From<AllocFailed<T>> for ElfFault {
    ghost use Rattle.elf32_reader.specs.declared.fault.ElfFault.{ElfFault};

    ghost from_gives = { λ _ e. e ≡ ElfFault.Memory };

    fn from(_e: AllocFailed<T>) -> ElfFault {
        ElfFault::Memory
    }
}
