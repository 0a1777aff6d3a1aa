/// Why a step has no next state.
#[derive(Clone, Copy, Debug, PartialEq, Eq)]
pub enum FaultKind {
    /// The executable bytes at EIP end before the instruction does.
    Fetch,
    /// A read of a byte that is not mapped.
    Read,
    /// A write of a byte that is not mapped writable.
    Write,
    /// A division by 0, or with a quotient out of range.
    Divide,
    /// HLT.
    Halt,
    /// INT3.
    Trap,
    /// UD2.
    Undefined,
    /// The words that an import's step reads are not in the stack window.
    NoStack,
    /// An import's block is larger than any block may be.
    NoBlock,
}

/// What a choice names that its step does not leave open.
#[derive(Clone, Copy, Debug, PartialEq, Eq)]
pub enum BadKind {
    /// A failure where none is allowed.
    Fails,
    /// No allowed base of a block.
    Base,
    /// A byte that the step does not leave free.
    Fill,
}

/// Why segments cannot be mapped together.
#[derive(Clone, Copy, Debug, PartialEq, Eq)]
pub enum MapFault {
    /// A segment leaves the addresses where a program's memory may lie.
    OutOfRange,
    /// Two segments share a byte.
    Overlap,
    /// They have more bytes than an image may map.
    TooLarge,
    Memory,
}
