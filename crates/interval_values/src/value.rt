ghost use Rattle.std.specs.Prelude.{◌≡◌, true};
ghost use Rattle.interval_values.specs.Forms.{is_number_span, is_offset_span};

use address_regions::Region;

/// The numbers `low`, `low + stride` and so on up to `high`. The stride is 0 for one number alone, and else divides `high - low`.
#[derive(Clone, Copy, Debug, PartialEq, Eq, Hash)]
pub struct NumberSpan {
    pub low: u32,
    pub high: u32,
    pub stride: u32,
    pub ghost formed: { is_number_span low high stride ≡ true },
}

/// The offsets `low`, `low + stride` and so on up to `high`, each from a base of the region. The stride is 0 for one offset alone, and else divides `high - low`.
#[derive(Clone, Copy, Debug, PartialEq, Eq, Hash)]
pub struct OffsetSpan {
    pub region: Region,
    pub low: i32,
    pub high: i32,
    pub stride: u32,
    pub ghost formed: { is_offset_span low high stride ≡ true },
}

/// A value of the interval domain.
#[derive(Clone, Copy, Debug, PartialEq, Eq, Hash)]
pub enum Interval {
    /// These numbers.
    Numbers(NumberSpan),
    /// A base of the region plus one of these offsets, modulo 2^32.
    Offsets(OffsetSpan),
    /// Every number.
    Any,
}
