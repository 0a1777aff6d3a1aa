/// Why a stub file is refused: the first fault in the order of the variants, at the top level first, and then at
/// the first stub that has one.
#[derive(Clone, Copy, Debug, PartialEq, Eq)]
pub enum StubFault {
    /// The bytes are no TOML document.
    NotToml,
    /// A key that means nothing, or a stub's name that is no name of an import.
    UnknownKey,
    /// A value of a wrong TOML type, or a required key that is missing.
    WrongKind,
    /// A number out of its range, a word that is no reply, or more than four writes.
    OutOfRange,
    /// Two keys of which one excludes the other.
    Both,
    /// Want of memory.
    Memory,
}

/// The faults of a table in their order.
pub static FAULTS: [StubFault; 4] = [
    StubFault::UnknownKey,
    StubFault::WrongKind,
    StubFault::OutOfRange,
    StubFault::Both,
];
