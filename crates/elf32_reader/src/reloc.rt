/// What the symbol of a relocation stands for.
#[derive(Clone, Copy)]
pub enum RelocSymbol {
    /// This value.
    Value(u32),
    /// The place of an import, by the index of its name.
    Import(u32),
    /// The same of a weak symbol, which without a stub stands for 0.
    Weak(u32),
    /// Nothing known: the bytes are unset.
    Unset,
}

/// What a relocation does to `size` bytes at an address: `Unset` makes them unset. Else they are a word, and it becomes
/// what the symbol stands for plus `plus`, and plus its old value where `adds` is set, modulo 2^32.
#[derive(Clone, Copy)]
pub struct ElfReloc {
    pub at: u32,
    pub size: u32,
    pub adds: bool,
    pub plus: u32,
    pub symbol: RelocSymbol,
}
