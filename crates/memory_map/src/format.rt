/// The format of an image file.
#[derive(Clone, Copy, Debug, PartialEq, Eq)]
pub enum Format {
    /// A 32-bit ELF file (System V ABI, chapter 4).
    Elf,
    /// A PE32 file (Microsoft PE/COFF).
    Pe,
}
