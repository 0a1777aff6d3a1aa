use address_regions::Region;

/// What is known of the numbers for which a value stands, when they are used as addresses. Both bounds are included.
#[derive(Clone, Copy, Debug, PartialEq, Eq)]
pub enum Reach {
    /// A number from `low` to `high`.
    Number { low: u32, high: u32 },
    /// A base of the region plus an offset from `low` to `high`, modulo 2^32.
    Place { region: Region, low: i32, high: i32 },
    /// Any number.
    Anywhere,
}
