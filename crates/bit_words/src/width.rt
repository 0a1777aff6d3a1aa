ghost use Rattle.std.specs.Prelude.{◌≡◌, ◌-◌, ◌^◌};
ghost use Rattle.bit_words.specs.Width.{bits_of, bytes_of, cut, is_signed, signed_of, word_of};

/// The width of an operand: 8, 16 or 32 bits.
#[derive(Clone, Copy, Debug, PartialEq, Eq, Hash)]
pub enum Width {
    B8,
    B16,
    B32,
}

impl Width {
    /// How many bits: 8, 16 or 32.
    pub fn bits(self) -> u32
        ensures { result ≡ bits_of self }
    {
        match self {
            Width::B8 => 8,
            Width::B16 => 16,
            Width::B32 => 32,
        }
    }

    /// How many bytes: 1, 2 or 4.
    pub fn bytes(self) -> u32
        ensures { result ≡ bytes_of self }
    {
        match self {
            Width::B8 => 1,
            Width::B16 => 2,
            Width::B32 => 4,
        }
    }

    /// The word whose bits are all ones, which is also the greatest.
    pub fn ones(self) -> u32
        ensures { result ≡ 2 ^ bits_of self - 1 }
    {
        match self {
            Width::B8 => 0xFF,
            Width::B16 => 0xFFFF,
            Width::B32 => 0xFFFF_FFFF,
        }
    }

    /// How many words there are: 2 to the power of the bits.
    pub fn size(self) -> u64
        ensures { result ≡ 2 ^ bits_of self }
    {
        u64::from(self.ones()) + 1
    }

    /// The word whose top bit alone is set.
    pub fn top(self) -> u32
        ensures { result ≡ 2 ^ (bits_of self - 1) }
    {
        match self {
            Width::B8 => 0x80,
            Width::B16 => 0x8000,
            Width::B32 => 0x8000_0000,
        }
    }

    /// The low bits of a number, as many as the width has.
    pub fn cut(self, n: u32) -> u32
        ensures { result ≡ cut self n }
    {
        self.low(u64::from(n))
    }

    /// The low bits of a longer number.
    pub fn low(self, n: u64) -> u32
        ensures { result ≡ cut self n }
    {
        (n % self.size()) as u32
    }

    /// The integer that the low bits of a number stand for in two's complement.
    pub fn signed(self, n: u32) -> i32
        ensures { result ≡ signed_of self n }
    {
        let word = self.cut(n);
        if word < self.top() {
            word as i32
        } else {
            -1 - (self.ones() - word) as i32
        }
    }

    /// The low bits of an integer in two's complement.
    pub fn word(self, z: i64) -> u32
        ensures { result ≡ word_of self z }
    {
        self.low(z.cast_unsigned())
    }

    /// Whether an integer is a signed number of this width.
    pub fn holds(self, z: i64) -> bool
        ensures { result ≡ is_signed self z }
    {
        let half = i64::from(self.ones() / 2);
        -1 - half <= z && z <= half
    }
}
