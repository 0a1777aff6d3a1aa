ghost use Rattle.std.specs.Prelude.{◌≡◌, ◌+◌, ◌*◌, ◌≤◌, length, find, true, false, MatchOption, Some};
ghost use Rattle.std.specs.Option.{option_map_or};
ghost use Rattle.elf32_reader.specs.Segments.{is_outside};
ghost use Rattle.elf32_reader.specs.Dynamic.{entry_count, is_dynamic_section, no_tables, tables_in, tables_at, value_of};

use crate::program_header::ProgramHeader;
use crate::segments::is_outside;
use crate::tables::Tables;
use memory_map::word_at;

// The first dynamic section.
pub fn find_dynamic_section(list: &[ProgramHeader]) -> Option<ProgramHeader>
    ensures { result ≡ find is_dynamic_section list.now }
{
    list.iter().copied().find(|h| h.is_dynamic_section())
}

#[tactic(auto, using(crate::proofs::Sections::entry_count_stop, crate::proofs::Sections::entry_count_next, crate::proofs::Sections::entry_count_end))]
fn entry_count(file: &[u8], at: usize, most: usize) -> usize
    requires { at + 8 * most ≤ length file.now }
    ensures exact { result ≡ entry_count file.now at most }
    ensures bound { result ≤ most }
{
    for i in 0..most {
        if word_at(file, at + 8 * i) == 0 {
            return i;
        }
    }
    most
}

#[tactic(auto, using(crate::proofs::Sections::value_of_more), unfolding(crate::specs::Dynamic::value_of))]
fn value_of(file: &[u8], at: usize, tag: u32, n: usize) -> Option<u32>
    requires { at + 8 * n ≤ length file.now }
    ensures { result ≡ value_of file.now at tag n }
{
    let mut found = None;
    for i in 0..n {
        if word_at(file, at + 8 * i) == tag {
            found = Some(word_at(file, at + 8 * i + 4));
        }
    }
    found
}

fn tables_at(file: &[u8], at: usize, n: usize) -> Tables
    requires { at + 8 * n ≤ length file.now }
    ensures { result ≡ tables_at file.now at n }
{
    Tables {
        jmprel_size: value_of(file, at, 2, n),
        strtab: value_of(file, at, 5, n),
        symtab: value_of(file, at, 6, n),
        strtab_size: value_of(file, at, 10, n),
        symbol_size: value_of(file, at, 11, n),
        rel: value_of(file, at, 17, n),
        rel_size: value_of(file, at, 18, n),
        rel_entry_size: value_of(file, at, 19, n),
        jmprel_kind: value_of(file, at, 20, n),
        jmprel: value_of(file, at, 23, n),
    }
}

fn no_tables() -> Tables
    ensures { result ≡ no_tables }
{
    Tables {
        jmprel_size: None,
        strtab: None,
        symtab: None,
        strtab_size: None,
        symbol_size: None,
        rel: None,
        rel_size: None,
        rel_entry_size: None,
        jmprel_kind: None,
        jmprel: None,
    }
}

fn tables_of(file: &[u8], header: &ProgramHeader) -> Tables
    requires { is_outside file.now header.now ≡ false }
    ensures { result ≡ tables_in file.now (Some header.now) }
{
    let at = header.offset as usize;
    let most = header.file_size as usize / 8;
    if most == 0 {
        return no_tables();
    }
    tables_at(file, at, entry_count(file, at, most))
}

// The tables of a file's dynamic section, if it has one; none where its file bytes pass the file's end.
pub fn tables_in(file: &[u8], header: Option<ProgramHeader>) -> Option<Tables>
    ensures { MatchOption result (option_map_or (is_outside file.now) header false ≡ true) (λ t. (t ≡ tables_in file.now header) × (option_map_or (is_outside file.now) header false ≡ false)) }
{
    match header {
        Some(header) => {
            if is_outside(file, &header) {
                None
            } else {
                Some(tables_of(file, &header))
            }
        }
        None => Some(no_tables()),
    }
}
