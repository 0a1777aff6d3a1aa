ghost use Rattle.std.specs.Prelude.{◌≡◌};

use bit_words::NoMemory;
use std::alloc::{AllocError, AllocFailed};

/// The kind of fault of a first line that is none.
pub const HEADER: u8 = 1;
/// The kind of fault of a first word that is unknown or out of its order.
pub const WORD: u8 = 2;
/// The kind of fault of the number or the form of a line's fields.
pub const FIELD: u8 = 3;
/// The kind of fault of a line that does not stand above the one before it.
pub const ORDER: u8 = 4;
/// The kind of fault of a wrong count.
pub const COUNT: u8 = 5;
/// The kind of fault of a line that says what cannot be.
pub const CONTENT: u8 = 6;
/// The kind of fault of a text that stops before its end or goes on after it.
pub const END: u8 = 7;

/// The first line of a text that breaks its rules, and which kind of rule it breaks. A line ends at its byte 0A.
#[derive(Clone, Copy, Debug, PartialEq, Eq)]
pub struct LineFault {
    /// The line's number, counted from 1.
    pub line: u64,
    /// The number of the kind, which the reader of the text lists.
    pub kind: u8,
}

/// Why a text is refused.
#[derive(Clone, Copy, Debug, PartialEq, Eq)]
pub enum TextFault {
    Line(LineFault),
    Memory,
}

/// Why the reader of a text refuses a line.
#[derive(Clone, Copy, Debug, PartialEq, Eq)]
pub enum LineRefusal {
    /// The line breaks a rule of the kind of this number.
    Kind(u8),
    Memory,
}

impl From<AllocError> for LineRefusal {
    ghost use Rattle.text_fields.specs.declared.line_fault.LineRefusal.{LineRefusal};

    ghost from_gives = { λ _ e. e ≡ LineRefusal.Memory };

    fn from(_e: AllocError) -> LineRefusal {
        LineRefusal::Memory
    }
}

impl<T: Drop> From<AllocFailed<T>> for LineRefusal {
    ghost use Rattle.text_fields.specs.declared.line_fault.LineRefusal.{LineRefusal};

    ghost from_gives = { λ _ e. e ≡ LineRefusal.Memory };

    fn from(_e: AllocFailed<T>) -> LineRefusal {
        LineRefusal::Memory
    }
}

impl From<NoMemory> for LineRefusal {
    ghost use Rattle.text_fields.specs.declared.line_fault.LineRefusal.{LineRefusal};

    ghost from_gives = { λ _ e. e ≡ LineRefusal.Memory };

    fn from(_e: NoMemory) -> LineRefusal {
        LineRefusal::Memory
    }
}
