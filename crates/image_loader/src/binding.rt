ghost use Rattle.std.specs.Prelude.{◌≡◌, ◌<◌, ◌≤◌, ◌+◌, ◌%◌, ◌^◌, IfOk, OnOk, ◌++◌, filter_map, option_to_list, length, map, true, if◌then◌else◌, ◌&&◌, is_none, not};
ghost use Rattle.std.specs.List.{list_all};
ghost use Rattle.memory_map.specs.Image.{IsLoaded, place_of};
ghost use Rattle.memory_map.specs.Map.{range_of};
ghost use Rattle.memory_map.specs.Name.{MOST_NAMES};
ghost use Rattle.elf32_reader.specs.Relocations.{has_name_below, is_name_below};
ghost use Rattle.elf32_reader.specs.Shown.{shown};
ghost use Rattle.pe32_reader.specs.Image.{shown as pe_shown};
ghost use Rattle.stub_file.specs.Stubs.{stub_named};
ghost use Rattle.image_loader.specs.Binding.{elf_image, has_stub, image_of, names_from, pe_image, relocated, unset_by, used_name, value_of, with_reloc, word_in};
ghost use Rattle.image_loader.specs.Loading.{laid_out_by};
ghost use Rattle.image_loader.specs.Shown.{shown_of};
ghost use Rattle.image_loader.specs.Strong.{AreStrong, marked};

use crate::{Image, Loaded};
use bit_words::NoMemory;
use elf32_reader::{ElfFile, ElfReloc, RelocSymbol};
use file_pieces::{Names, bytes_at};
use memory_map::{Format, ImportName, Items, Name, Ranges, Segments, Span, USER_END, word_at};
use pe32_reader::PeFile;
use std::alloc::{AllocError, Global};
use stub_file::Stubs;

// The place of the name with an index.
fn place_of(index: u32) -> u32
    requires { index < 65535 }
    ensures { result ≡ place_of (index + 1) }
{
    USER_END + 16 * (index + 1)
}

fn has_stub(stubs: &Stubs, names: &[Name], index: u32) -> bool
    ensures { result ≡ has_stub stubs.now names.now index }
{
    match names.get(index as usize) {
        Some(name) => stubs.find(name.as_slice()).is_some(),
        None => false,
    }
}

// What a symbol stands for, where that is known.
fn value_of(stubs: &Stubs, names: &[Name], symbol: &RelocSymbol) -> Option<u32>
    requires few { length names.now ≤ MOST_NAMES }
    requires below { is_name_below (length names.now) symbol.now ≡ true }
    ensures { result ≡ value_of stubs.now names.now symbol.now }
{
    match *symbol {
        RelocSymbol::Value(value) => Some(value),
        RelocSymbol::Import(index) => Some(place_of(index)),
        RelocSymbol::Weak(index) => Some(if has_stub(stubs, names, index) {
            place_of(index)
        } else {
            0
        }),
        RelocSymbol::Unset => None,
    }
}

// The word at an address.
fn word_in(segments: &Segments, a: u32) -> u32
    ensures { result ≡ word_in (map range_of segments.now) a }
{
    match bytes_at(segments, u64::from(a), 4) {
        Some(bytes) => word_at(bytes, 0),
        None => 0,
    }
}

// What the word of a relocation becomes, whose symbol stands for a value.
fn word_after(segments: &Segments, reloc: &ElfReloc, value: u32) -> u32
    ensures { result ≡ (value + reloc.now.plus + (if reloc.now.adds then word_in (map range_of segments.now) reloc.now.at else 0)) % 2 ^ 32 }
{
    let old = if reloc.adds {
        word_in(segments, reloc.at)
    } else {
        0
    };
    let sum = u64::from(value) + u64::from(reloc.plus) + u64::from(old);
    (sum % 0x1_0000_0000) as u32
}

// Applies one relocation.
fn apply(segments: &mut Segments, reloc: &ElfReloc, names: &[Name], stubs: &Stubs)
    requires few { length names.now ≤ MOST_NAMES }
    requires below { has_name_below (length names.now) reloc.now ≡ true }
    ensures { map range_of segments.new ≡ with_reloc stubs.now names.now (map range_of segments.old) reloc.now }
{
    if let Some(value) = value_of(stubs, names, &reloc.symbol) {
        let word = word_after(segments, reloc, value);
        segments.put_word(reloc.at, word);
    }
}

// Applies relocations, in their order.
fn relocate(segments: &mut Segments, relocs: &[ElfReloc], names: &[Name], stubs: &Stubs)
    requires few { length names.now ≤ MOST_NAMES }
    requires below { list_all (has_name_below (length names.now)) relocs.now ≡ true }
    ensures { map range_of segments.new ≡ relocated stubs.now names.now (map range_of segments.old) relocs.now }
{
    for reloc in relocs {
        apply(segments, reloc, names, stubs);
    }
}

// The bytes that a relocation makes unset, where there are any.
fn unset_by(reloc: &ElfReloc) -> Option<Span>
    ensures { result ≡ unset_by reloc.now }
{
    match reloc.symbol {
        RelocSymbol::Unset if reloc.size != 0 => Some(Span {
            low: reloc.at,
            size: reloc.size,
        }),
        _ => None,
    }
}

fn push_unset(held: &mut Vec<Span>, reloc: &ElfReloc) -> Result<(), AllocError>
    ensures { OnOk result (held.new.items ≡ held.old.items ++ option_to_list (unset_by reloc.now)) }
{
    if let Some(span) = unset_by(reloc) {
        held.push(span)?;
    }
    Ok(())
}

fn unset_of(alloc: Global, relocs: &[ElfReloc]) -> Result<Ranges, AllocError>
    ensures { IfOk result (λ unset. unset ≡ filter_map unset_by relocs.now) }
{
    let mut held = Vec::new(alloc);
    for reloc in relocs {
        push_unset(&mut held, reloc)?;
    }
    Ok(Ranges::from_vec(held))
}

// Marks the name that a symbol that is not weak imports.
fn mark_import(strong: &mut [bool], reloc: &ElfReloc)
    requires { has_name_below (length strong.old) reloc.now ≡ true }
    ensures { strong.new ≡ marked strong.old reloc.now.symbol }
{
    if let RelocSymbol::Import(index) = reloc.symbol {
        strong[index as usize] = true;
    }
}

// For each name whether a symbol that is not weak imports it.
fn strong_names(alloc: Global, relocs: &[ElfReloc], count: usize) -> Result<Vec<bool>, AllocError>
    requires { list_all (has_name_below count) relocs.now ≡ true }
    ensures each { IfOk result (λ strong. AreStrong relocs.now count strong.items) }
{
    let mut strong = vec![in alloc; false; count]?;
    for reloc in relocs {
        mark_import(&mut strong, reloc);
    }
    Ok(strong)
}

// A name with whether its place is not used.
fn import_name(stubs: &Stubs, name: Name, is_strong: bool) -> ImportName
    ensures { result ≡ record { name = name; zero = is_none (stub_named name stubs.now) && not is_strong } }
{
    let zero = stubs.find(name.as_slice()).is_none() && !is_strong;
    ImportName { name, zero }
}

// The names with whether their places are not used.
fn import_names(
    alloc: Global,
    relocs: &[ElfReloc],
    names: Names,
    stubs: &Stubs,
) -> Result<Items<ImportName>, AllocError>
    requires { list_all (has_name_below (length names)) relocs.now ≡ true }
    ensures { IfOk result (λ list. list ≡ names_from stubs.now relocs.now 0 names) }
{
    let strong = strong_names(alloc, relocs, names.len())?;
    let mut list = Vec::with_capacity(alloc, names.len())?;
    for name in names.into_vec() {
        let is_strong = strong[list.len()];
        list.push(import_name(stubs, name, is_strong))?;
    }
    Ok(Items::from_vec(list))
}

// The names of a PE file, each of which is used.
fn used_names(alloc: Global, names: Names) -> Result<Items<ImportName>, AllocError>
    ensures { IfOk result (λ list. list ≡ map used_name names) }
{
    let mut list = Vec::with_capacity(alloc, names.len())?;
    for name in names.into_vec() {
        list.push(ImportName { name, zero: false })?;
    }
    Ok(Items::from_vec(list))
}

// The image of these parts, which are an image's.
fn whole(
    segments: Segments,
    unset: Ranges,
    entry: u32,
    format: Format,
    names: Items<ImportName>,
    align: u32,
) -> Image
    requires { IsLoaded (shown_of segments unset entry format names align) }
    ensures { result ≡ shown_of segments unset entry format names align }
{
    match Image::new(segments, unset, entry, format, names, align) {
        Some(image) => image,
        None => unreachable!(),
    }
}

fn bind_elf(alloc: Global, file: ElfFile, stubs: &Stubs) -> Result<Image, NoMemory>
    ensures { IfOk result (λ image. image ≡ elf_image stubs.now (shown file)) }
{
    let ElfFile {
        entry,
        mut segments,
        relocs,
        names,
        ..
    } = file;
    relocate(&mut segments, relocs.as_slice(), names.as_slice(), stubs);
    let unset = unset_of(alloc, relocs.as_slice())?;
    let names = import_names(alloc, relocs.as_slice(), names, stubs)?;
    let align = stubs.align().unwrap_or(16);
    let _map = segments.as_slice();
    Ok(whole(segments, unset, entry, Format::Elf, names, align))
}

fn bind_pe(alloc: Global, file: PeFile, stubs: &Stubs) -> Result<Image, NoMemory>
    ensures { IfOk result (λ image. image ≡ pe_image stubs.now (pe_shown file)) }
{
    let unset = Ranges::from_vec(Vec::new(alloc));
    let names = used_names(alloc, file.names)?;
    let align = stubs.align().unwrap_or(4);
    let _map = file.segments.as_slice();
    Ok(whole(file.segments, unset, file.entry, Format::Pe, names, align))
}

impl Loaded {
    /// The image, with the relocations applied in their order and the names that the stubs leave unused settled: a weak one
    /// without a stub has the value 0. The stack's alignment is that of the stubs, else 16 for ELF and 4 for PE.
    pub fn bind(self, alloc: Global, stubs: &Stubs) -> Result<Image, NoMemory>
        ensures { IfOk result (λ image. image ≡ image_of stubs.now (laid_out_by self)) }
    {
        match self {
            Loaded::Elf(file) => bind_elf(alloc, file, stubs),
            Loaded::Pe(file) => bind_pe(alloc, file, stubs),
        }
    }
}
