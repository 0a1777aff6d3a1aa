ghost use Rattle.std.specs.Prelude.{◌≡◌};
ghost use Rattle.pe_headers.specs.declared.fault.PeFault.TheVariants.{Memory};

use std::alloc::{AllocError, AllocFailed};

/// Why a PE file is not read. A file has the first of these that holds, in this order.
#[derive(Clone, Copy, Debug, PartialEq, Eq)]
pub enum PeFault {
    /// Fewer than 64 bytes.
    Short,
    /// It does not begin with `MZ`.
    Magic,
    /// The signature and the COFF header pass the file's end, or the signature is another.
    Signature,
    /// It is not for the Intel386.
    Machine,
    /// The optional header is too short, passes the file's end, or is not of PE32.
    Optional,
    /// No section, more than 96, or the section table passes the file's end.
    Sections,
    /// The file bytes of a section pass the file's end.
    RawOutside,
    /// A mapped range leaves the addresses where a program's memory may lie.
    Address,
    /// Two mapped ranges share a byte.
    Overlap,
    /// More bytes are mapped than an image may have.
    TooLarge,
    /// An import descriptor, a thunk word or a slot is not in one segment, or FirstThunk is 0.
    Imports,
    /// A library's or an import's name is not ended by 0 in its segment, or is no name of an import.
    Name,
    /// More thunk words than an image may have.
    ManyImports,
    Memory,
}

impl From<AllocError> for PeFault {
    ghost from_gives = { λ _ e. e ≡ Memory };

    fn from(_e: AllocError) -> PeFault {
        PeFault::Memory
    }
}

impl<T: Drop> From<AllocFailed<T>> for PeFault {
    ghost from_gives = { λ _ e. e ≡ Memory };

    fn from(_e: AllocFailed<T>) -> PeFault {
        PeFault::Memory
    }
}
