ghost use Rattle.std.specs.Prelude.{◌≡◌, ◌⊎◌, MatchResult, Ok, Err};
ghost use Rattle.elf32_reader.specs.ElfFile.{read};
ghost use Rattle.pe32_reader.specs.Image.{image_of};
ghost use Rattle.image_loader.specs.Loading.{laid_out_by, load_of, of_elf, of_pe};

use crate::{LoadFault, Loaded};
use elf32_reader::{ElfFault, has_elf_magic, read_elf};
use pe_headers::{PeFault, lacks_magic};
use pe32_reader::read_pe;
use std::alloc::Global;

fn load_elf(alloc: Global, bytes: &[u8]) -> Result<Loaded, LoadFault>
    ensures { MatchResult result (λ l. of_elf (read bytes.now) ≡ Ok (laid_out_by l)) (λ e. (e ≡ LoadFault.Memory) ⊎ (of_elf (read bytes.now) ≡ Err e)) }
{
    match read_elf(alloc, bytes) {
        Ok(file) => Ok(Loaded::Elf(file)),
        Err(fault) => match fault {
            ElfFault::Memory => Err(LoadFault::Memory),
            _ => Err(LoadFault::Elf(fault)),
        },
    }
}

fn load_pe(alloc: Global, bytes: &[u8]) -> Result<Loaded, LoadFault>
    ensures { MatchResult result (λ l. of_pe (image_of bytes.now) ≡ Ok (laid_out_by l)) (λ e. (e ≡ LoadFault.Memory) ⊎ (of_pe (image_of bytes.now) ≡ Err e)) }
{
    match read_pe(alloc, bytes) {
        Ok(file) => Ok(Loaded::Pe(file)),
        Err(fault) => match fault {
            PeFault::Memory => Err(LoadFault::Memory),
            _ => Err(LoadFault::Pe(fault)),
        },
    }
}

/// What a file lays out, or its first fault: a file that begins with 7F, `ELF` is read as an ELF file, else one that begins
/// with `MZ` as a PE file, and any other is `Unknown`.
#[tactic(auto, unfolding(crate::specs::Loading::load_of))]
pub fn load(alloc: Global, bytes: &[u8]) -> Result<Loaded, LoadFault>
    ensures { MatchResult result (λ l. load_of bytes.now ≡ Ok (laid_out_by l)) (λ e. (e ≡ LoadFault.Memory) ⊎ (load_of bytes.now ≡ Err e)) }
{
    if has_elf_magic(bytes) {
        return load_elf(alloc, bytes);
    }
    if lacks_magic(bytes) {
        return Err(LoadFault::Unknown);
    }
    load_pe(alloc, bytes)
}
