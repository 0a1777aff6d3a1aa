use address_regions::Region;

/// A value of the bounded domain.
#[derive(Clone, Copy, Debug, PartialEq, Eq, Hash)]
pub enum Bounded {
    /// This number alone.
    Number(u32),
    /// A base of the region plus this offset, modulo 2^32.
    Exact(Region, i32),
    /// A place at which four bytes lie in the region. For a region of fewer than 4 bytes or of more than 67,108,864 it is every number, and no method makes it.
    Inside(Region),
    /// Every number.
    Any,
}
