use memory_map::{BadKind, FaultKind};

/// What comes of a step of the machine. On every outcome but `Stepped` the machine is as it was before.
#[derive(Clone, Copy, Debug, PartialEq, Eq)]
pub enum Outcome {
    /// The machine is in its next state.
    Stepped,
    /// There is no next state.
    Faulted(FaultKind),
    /// The bytes at EIP are no instruction of the opcode table.
    NotListed,
    /// An import without a stub.
    NoStub,
    /// The exit place, or a function that never returns.
    Exited,
    /// The choice names what the step does not leave open.
    BadChoice(BadKind),
    Memory,
}
