/// Why no instruction stands at the front of a string of bytes.
#[derive(Clone, Copy, Debug, PartialEq, Eq)]
pub enum DecodeFault {
    /// The bytes begin no listed instruction; the one at the index `at` is the first that none goes on with.
    NotListed { at: u8 },
    /// The bytes end before the instruction does.
    Truncated,
    /// The instruction would be longer than 15 bytes.
    TooLong,
}
