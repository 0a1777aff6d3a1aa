ghost use Rattle.std.specs.Prelude.{◌≡◌};
ghost use Rattle.address_regions.specs.Extents.{bounds_inside, extent_of, has_one_base, has_room, is_in_extent, is_inside};

/// A part of memory that a program addresses from a base of its own.
///
/// The order is that of the variants; blocks are ordered by site, size and `zeroed`.
#[derive(Clone, Copy, Debug, PartialEq, Eq, PartialOrd, Ord, Hash)]
pub enum Region {
    /// The stack window, from the value of ESP at the start.
    Stack,
    /// The window at the base of the segment register FS.
    Fs,
    /// The window at the base of the segment register GS.
    Gs,
    /// The blocks that one import hands out at one call site, each from its first byte.
    Block {
        /// The address to which the call returns.
        site: u32,
        /// How many bytes a block has.
        size: u32,
        /// Whether the bytes of a fresh block are 0.
        zeroed: bool,
    },
}

impl Region {
    /// The offsets from a base: the least, and the one past the greatest.
    pub fn extent(self) -> (i64, i64)
        ensures { result ≡ extent_of self }
    {
        match self {
            Region::Stack => (-1_048_576, 4096),
            Region::Fs | Region::Gs => (-4096, 4096),
            Region::Block { size, .. } => (0, i64::from(size)),
        }
    }

    /// Whether an offset is one of the region's bytes.
    pub fn contains(self, offset: i32) -> bool
        ensures { result ≡ is_in_extent self offset }
    {
        let (low, high) = self.extent();
        low <= i64::from(offset) && i64::from(offset) < high
    }

    /// Whether the region has 4 to 67,108,864 bytes.
    pub fn has_room(self) -> bool
        ensures { result ≡ has_room self }
    {
        match self {
            Region::Stack | Region::Fs | Region::Gs => true,
            Region::Block { size, .. } => 4 <= size && size <= 67_108_864,
        }
    }

    /// The least and the greatest offset at which four bytes lie in the region.
    /// None for a region of fewer than 4 bytes or of more than 67,108,864.
    pub fn bounds_inside(self) -> Option<(i32, i32)>
        ensures { result ≡ bounds_inside self }
    {
        match self {
            Region::Stack => Some((-1_048_576, 4092)),
            Region::Fs | Region::Gs => Some((-4096, 4092)),
            Region::Block { size, .. } if 4 <= size && size <= 67_108_864 => Some((
                0,
                (size - 4) as i32,
            )),
            Region::Block { .. } => None,
        }
    }

    /// Whether four bytes at an offset lie in the region, for a region of 4 to 67,108,864 bytes.
    pub fn is_inside(self, offset: i32) -> bool
        ensures { result ≡ is_inside self offset }
    {
        match self.bounds_inside() {
            Some((low, high)) => low <= offset && offset <= high,
            None => false,
        }
    }

    /// Whether a run has exactly one base of this region: of the stack and the two segments, and of no block.
    pub fn has_one_base(self) -> bool
        ensures { result ≡ has_one_base self }
    {
        match self {
            Region::Stack | Region::Fs | Region::Gs => true,
            Region::Block { .. } => false,
        }
    }
}

#[cfg(test)]
mod tests {
    use super::*;

    #[test]
    fn extents_and_offsets_of_each_region(rt: HostRuntime) {
        let block = |size: u32| Region::Block {
            site: 0x0804_8010,
            size,
            zeroed: false,
        };
        assert_eq!(rt; Region::Stack.extent(), (-1_048_576, 4096));
        assert_eq!(rt; Region::Fs.extent(), (-4096, 4096));
        assert_eq!(rt; Region::Gs.extent(), (-4096, 4096));
        assert_eq!(rt; block(8).extent(), (0, 8));
        assert_eq!(rt; block(0xFFFF_FFFF).extent(), (0, 4_294_967_295));
        assert_eq!(rt; Region::Stack.bounds_inside(), Some((-1_048_576, 4092)));
        assert_eq!(rt; Region::Gs.bounds_inside(), Some((-4096, 4092)));
        for (size, want) in [
            (3, None),
            (4, Some((0, 0))),
            (67_108_864, Some((0, 67_108_860))),
            (67_108_865, None),
        ] {
            assert_eq!(rt; block(size).bounds_inside(), want, "at {size}");
        }
        for (offset, byte, word) in [
            (-1, false, false),
            (0, true, true),
            (4, true, true),
            (5, true, false),
            (8, false, false),
        ] {
            assert_eq!(rt; block(8).contains(offset), byte, "at {offset}");
            assert_eq!(rt; block(8).is_inside(offset), word, "at {offset}");
        }
        assert!(rt;
            Region::Stack.has_one_base() && Region::Fs.has_one_base() && !block(8).has_one_base()
        );
    }

    #[test]
    fn regions_are_ordered_by_variant_then_by_site_size_and_zeroed(rt: HostRuntime) {
        let block = |site: u32, size: u32, zeroed: bool| Region::Block { site, size, zeroed };
        let ascending = [
            Region::Stack,
            Region::Fs,
            Region::Gs,
            block(1, 9, true),
            block(2, 4, true),
            block(2, 5, false),
            block(2, 5, true),
        ];
        assert!(rt; ascending.windows(2).all(|pair| pair[0] < pair[1]));
    }
}
