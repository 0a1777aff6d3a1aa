ghost use Rattle.std.specs.Prelude.{◌≡◌, ◌⊎◌, ◌≤◌, Ok, Err, MatchResult, map, length};
ghost use Rattle.memory_map.specs.Map.{range_of};
ghost use Rattle.elf32_reader.specs.Fields.{EHSIZE};
ghost use Rattle.elf32_reader.specs.Headers.{HasHeaders, bias_of, headers};
ghost use Rattle.elf32_reader.specs.Segments.{segments, segments_fault};
ghost use Rattle.elf32_reader.specs.Dynamic.{dynamic_fault, tables, tables_fault};
ghost use Rattle.elf32_reader.specs.Symbols.{Space};
ghost use Rattle.elf32_reader.specs.Walk.{walk};
ghost use Rattle.elf32_reader.specs.ElfFile.{laid_out, read, space_of, unless};
ghost use Rattle.elf32_reader.specs.Shown.{shown};

use crate::dynamic::{find_dynamic_section, tables_in};
use crate::header::{bias_of, entry_of, find_header_fault, is_dynamic};
use crate::lookup::Lookup;
use crate::program_header::{ProgramHeader, headers};
use crate::segments::segments_of;
use crate::tables::Tables;
use crate::walk::{Walk, walk_all};
use crate::{ElfFault, ElfFile};
use memory_map::{Items, Segments};
use std::alloc::Global;

// The relocations and their names, where the tables are as they must be.
#[tactic(auto, unfolding(crate::specs::Dynamic::tables_fault))]
fn relocations_of(
    alloc: Global,
    mapped: &Segments,
    bias: u32,
    given: Tables,
) -> Result<Walk, ElfFault>
    ensures { let space : Space = record { ranges = map range_of mapped.now; bias = bias; tables = given } in MatchResult result (λ w. unless (tables_fault (map range_of mapped.now) bias given) (walk space) ≡ Ok w) (λ e. (e ≡ ElfFault.Memory) ⊎ (unless (tables_fault (map range_of mapped.now) bias given) (walk space) ≡ Err e)) }
{
    let lookup = Lookup::new(mapped, bias, given);
    if lookup.are_tables_wrong() {
        return Err(ElfFault::Dynamic);
    }
    walk_all(alloc, &lookup)
}

// The layout of a file whose segments are mapped.
fn lay_out(alloc: Global, file: &[u8], mapped: Segments, given: Tables) -> Result<ElfFile, ElfFault>
    requires front { EHSIZE ≤ length file.now }
    requires segments { map range_of mapped ≡ segments file.now }
    requires tables { given ≡ tables file.now }
    ensures { MatchResult result (λ f. unless (tables_fault (segments file.now) (bias_of file.now) (tables file.now)) (laid_out file.now (walk (space_of file.now))) ≡ Ok (shown f)) (λ e. (e ≡ ElfFault.Memory) ⊎ (unless (tables_fault (segments file.now) (bias_of file.now) (tables file.now)) (laid_out file.now (walk (space_of file.now))) ≡ Err e)) }
{
    let walk = match relocations_of(alloc, &mapped, bias_of(file), given) {
        Ok(walk) => walk,
        Err(fault) => return Err(fault),
    };
    let (relocs, seen) = walk.into_parts();
    let names = seen.into_names(alloc)?;
    Ok(ElfFile {
        dynamic: is_dynamic(file),
        bias: bias_of(file),
        entry: entry_of(file),
        segments: mapped,
        relocs: Items::from_vec(relocs),
        names,
    })
}

fn read_after_segments(
    alloc: Global,
    file: &[u8],
    list: &[ProgramHeader],
    mapped: Segments,
) -> Result<ElfFile, ElfFault>
    requires front { EHSIZE ≤ length file.now }
    requires headers { list.now ≡ headers file.now }
    requires segments { map range_of mapped ≡ segments file.now }
    ensures { MatchResult result (λ f. unless (dynamic_fault file.now) (laid_out file.now (walk (space_of file.now))) ≡ Ok (shown f)) (λ e. (e ≡ ElfFault.Memory) ⊎ (unless (dynamic_fault file.now) (laid_out file.now (walk (space_of file.now))) ≡ Err e)) }
{
    match tables_in(file, find_dynamic_section(list)) {
        Some(given) => lay_out(alloc, file, mapped, given),
        None => Err(ElfFault::Dynamic),
    }
}

fn read_after_header(alloc: Global, file: &[u8]) -> Result<ElfFile, ElfFault>
    requires { HasHeaders file.now }
    ensures { MatchResult result (λ f. unless (segments_fault file.now) (unless (dynamic_fault file.now) (laid_out file.now (walk (space_of file.now)))) ≡ Ok (shown f)) (λ e. (e ≡ ElfFault.Memory) ⊎ (unless (segments_fault file.now) (unless (dynamic_fault file.now) (laid_out file.now (walk (space_of file.now)))) ≡ Err e)) }
{
    let list = headers(alloc, file)?;
    match segments_of(alloc, file, &list) {
        Ok(mapped) => read_after_segments(alloc, file, &list, mapped),
        Err(fault) => Err(fault),
    }
}

/// What a file lays out, or the first of its faults in the order of `ElfFault`: the faults up to `TooLarge`, and those of
/// the dynamic section and its tables, are tried one after another over the whole file, and then each relocation for those
/// from `Dynamic` on. The first bytes of a file do not matter beyond that: what is no ELF file has the fault `Magic` or `Short`.
#[tactic(auto, unfolding(crate::specs::ElfFile::read))]
pub fn read_elf(alloc: Global, bytes: &[u8]) -> Result<ElfFile, ElfFault>
    ensures { MatchResult result (λ f. read bytes.now ≡ Ok (shown f)) (λ e. (e ≡ ElfFault.Memory) ⊎ (read bytes.now ≡ Err e)) }
{
    match find_header_fault(bytes) {
        Some(fault) => Err(fault),
        None => read_after_header(alloc, bytes),
    }
}
