ghost use Rattle.std.specs.Prelude.{◌≡◌, ◌+◌, ◌*◌, ◌<◌, ◌≤◌, ◌++◌, ◌^◌, length, replicate, IfOk, OnOk};
ghost use Rattle.demo_images.specs.Tables.{dynamic, names, relocations, symbol, symbols, tables};

use crate::import::Import;
use crate::little_endian::push_words;
use bit_words::NoMemory;
use std::alloc::Global;

/// Where the tables lie.
pub const TABLES: u32 = 0x0900_0000;

/// The tables of the imported names, which lie at `TABLES`.
#[tactic(auto, unfolding(crate::specs::Tables::tables))]
pub fn tables(alloc: Global, imports: &[Import]) -> Result<Vec<u8>, NoMemory>
    requires { length imports.now ≤ 1024 }
    ensures bytes { IfOk result (λ t. t.items ≡ tables imports.now) }
    ensures small { IfOk result (λ t. length t.items < 2 ^ 24) }
    ensures dynamic { IfOk result (λ t. 64 ≤ length t.items) }
{
    let count = imports.len() as u32;
    let strings = names(alloc, imports)?;
    let mut out = vec![in alloc; 0; 4 * imports.len()]?;
    push_relocations(&mut out, count)?;
    push_symbols(&mut out, imports)?;
    out.extend_from_slice(strings.as_slice())?;
    push_dynamic(&mut out, count, strings.len() as u32)?;
    Ok(out)
}

#[tactic(auto, using(crate::proofs::Lists::relocations_more), unfolding(crate::specs::Tables::relocations))]
fn push_relocations(out: &mut Vec<u8>, count: u32) -> Result<(), NoMemory>
    requires { count ≤ 1024 }
    ensures bytes { OnOk result (out.new.items ≡ out.old.items ++ relocations count) }
    ensures len { OnOk result (length out.new.items ≡ length out.old.items + 8 * count) }
{
    for i in 0..count {
        push_words(out, &[TABLES + 4 * i, (i + 1) * 256 + 7])?;
    }
    Ok(())
}

fn push_symbol(out: &mut Vec<u8>, at: u32, import: &Import) -> Result<(), NoMemory>
    ensures bytes { OnOk result (out.new.items ≡ out.old.items ++ symbol at import.now) }
    ensures len { OnOk result (length out.new.items ≡ length out.old.items + 16) }
{
    push_words(out, &[at, 0, 0])?;
    let info = if import.is_weak() { 0x20 } else { 0x12 };
    out.extend_from_slice(&[info, 0, 0, 0])?;
    Ok(())
}

#[tactic(auto, using(crate::proofs::Lists::symbols_more), unfolding(crate::specs::Tables::symbols, crate::specs::Tables::symbols_from))]
fn push_symbols(out: &mut Vec<u8>, imports: &[Import]) -> Result<(), NoMemory>
    requires { length imports.now ≤ 1024 }
    ensures bytes { OnOk result (out.new.items ≡ out.old.items ++ symbols imports.now) }
    ensures len { OnOk result (length out.new.items ≡ length out.old.items + 16 + 16 * length imports.now) }
{
    out.extend_from_slice(&[0; 16])?;
    let mut at = 1;
    for import in imports {
        push_symbol(out, at, import)?;
        at += import.name().len() as u32 + 1;
    }
    Ok(())
}

#[tactic(auto, unfolding(crate::specs::Tables::names))]
fn names(alloc: Global, imports: &[Import]) -> Result<Vec<u8>, NoMemory>
    ensures bytes { IfOk result (λ v. v.items ≡ names imports.now) }
    ensures len { IfOk result (λ v. length v.items ≤ 1 + 4097 * length imports.now) }
{
    let mut out = vec![in alloc; 0]?;
    for import in imports {
        out.extend_from_slice(import.name())?;
        out.push(0)?;
    }
    Ok(out)
}

#[tactic(auto, unfolding(crate::specs::Tables::dynamic))]
fn push_dynamic(out: &mut Vec<u8>, count: u32, size: u32) -> Result<(), NoMemory>
    requires { count ≤ 1024 }
    ensures bytes { OnOk result (out.new.items ≡ out.old.items ++ dynamic count size) }
    ensures len { OnOk result (length out.new.items ≡ length out.old.items + 64) }
{
    let relocations_at = TABLES + 4 * count;
    let symbols_at = TABLES + 12 * count;
    let names_at = TABLES + 28 * count + 16;
    push_words(
        out,
        &[
            23,
            relocations_at,
            2,
            8 * count,
            20,
            17,
            6,
            symbols_at,
            11,
            16,
            5,
            names_at,
            10,
            size,
            0,
            0,
        ],
    )
}
