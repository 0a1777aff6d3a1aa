use elf32_reader::ElfFile;
use pe32_reader::PeFile;

/// What a file of either format lays out, before it is bound to stubs.
#[derive(Drop)]
pub enum Loaded {
    Elf(ElfFile),
    Pe(PeFile),
}
