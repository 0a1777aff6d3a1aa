/// Why a location is left open. The order of the variants is that of the causes in every text.
#[derive(Clone, Copy, Debug, PartialEq, Eq, PartialOrd, Ord)]
pub enum Cause {
    /// The executable bytes that a row knows there begin with no instruction of the list.
    Bytes,
    /// An import without a stub.
    NoStub,
    /// A branch target, return address or entered function that is no exact number.
    Target,
    /// A store whose address is unknown, or in no one known place.
    Store,
    /// A store to the stack that is not wholly in its window.
    Stack,
    /// A store to a block that is not wholly in it.
    Block,
    /// The executable bytes that a row knows there end, before an instruction does, at one that it does not know.
    Code,
    /// A row there was not expanded.
    Budget,
}
