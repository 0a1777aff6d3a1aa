ghost use Rattle.std.specs.Prelude.{◌≡◌, ◌<◌, ◌^◌, IfErr, IfOk, IsTrue, None, OnOk, option_and_then, option_map, true, unwrap_or};
ghost use Rattle.std.specs.BTreeMap.{insert_entry};
ghost use Rattle.std.specs.Cmp.Lexicographic.{slice_cmp};
ghost use Rattle.std.specs.Ordering.{nat_cmp};
ghost use Rattle.stub_file.specs.Document.{natural_at, value_at};
ghost use Rattle.stub_file.specs.Entries.{AreRead, OrMemory, Puts};
ghost use Rattle.stub_file.specs.Faults.{AreFaultless, HasFault, IsFaultless, IsFirstFault, stub_fault, stubs_in, top_fault};
ghost use Rattle.stub_file.specs.Stated.{IsStub, has_own_arguments};
ghost use Rattle.stub_file.specs.Stubs.{AreStubs, IsStated, Refuses, States, align_is_kept};
ghost use Rattle.toml.specs.Data.{as_table};
ghost use Rattle.toml.specs.View.{table_view, view};

use crate::build::stub_of;
use crate::document::{natural_at, value_at};
use crate::fault::StubFault;
use crate::faults::{table_fault, top_fault};
use crate::keys::Key;
use crate::stub::Stub;
use crate::stubs::Stubs;
use memory_map::is_name;
use std::alloc::Global;
use std::collections::BTreeMap;
use toml::{Table, Value};

#[tactic(auto, unfolding(crate::specs::Faults::stub_fault))]
fn read_stub(name: &str, value: &Value) -> Result<Stub, StubFault>
    ensures faultless { OnOk result (stub_fault name.now (view value.now) ≡ None) }
    ensures stated { IfOk result (IsStub (view value.now)) }
    ensures own { IfOk result (λ stub. IsTrue (has_own_arguments stub)) }
    ensures fault { IfErr result (λ fault. stub_fault name.now (view value.now) ≡ Some fault) }
{
    if !is_name(name.as_bytes()) {
        return Err(StubFault::UnknownKey);
    }
    match value.as_table() {
        Some(table) => match table_fault(table) {
            Some(fault) => Err(fault),
            None => Ok(stub_of(table)),
        },
        None => Err(StubFault::WrongKind),
    }
}

fn insert(stubs: &mut BTreeMap<Vec<u8>, Stub>, key: Vec<u8>, stub: Stub) -> Result<(), StubFault>
    ensures ok { OnOk result (stubs.new.entries ≡ insert_entry (λ x y. slice_cmp nat_cmp x.items y.items) stubs.old.entries key stub) }
    ensures err { IfErr result (λ fault. fault ≡ StubFault.Memory) }
{
    match stubs.insert(key, stub) {
        Ok(_) => Ok(()),
        Err(_) => Err(StubFault::Memory),
    }
}

/// Puts in the stub of a value under its name.
fn put(
    alloc: Global,
    stubs: &mut BTreeMap<Vec<u8>, Stub>,
    name: &str,
    value: &Value,
) -> Result<(), StubFault>
    ensures put { OnOk result (Puts name.now (view value.now) stubs.old.entries stubs.new.entries) }
    ensures fault { IfErr result (OrMemory (λ fault. stub_fault name.now (view value.now) ≡ Some fault)) }
{
    let stub = match read_stub(name, value) {
        Ok(stub) => stub,
        Err(first) => return Err(first),
    };
    let key = match Vec::from_slice(alloc, name.as_bytes()) {
        Ok(key) => key,
        Err(_) => return Err(StubFault::Memory),
    };
    insert(stubs, key, stub)
}

/// The stubs of a table.
fn read_all(alloc: Global, table: &Table) -> Result<BTreeMap<Vec<u8>, Stub>, StubFault>
    ensures read { IfOk result (λ stubs. AreRead (table_view table.now) stubs.entries) }
    ensures fault { IfErr result (OrMemory (IsFirstFault (table_view table.now))) }
{
    let mut stubs = BTreeMap::new(alloc);
    for (name, value) in table.iter() {
        match put(alloc, &mut stubs, name.as_str(), value) {
            Ok(()) => {}
            Err(fault) => return Err(fault),
        }
    }
    Ok(stubs)
}

fn align_at(table: &Table) -> Option<u32>
    requires { unwrap_or (natural_at Key.StackAlign (table_view table.now)) 0 < 2 ^ 32 }
    ensures { result ≡ natural_at Key.StackAlign (table_view table.now) }
{
    match natural_at(table, Key::StackAlign) {
        Some(number) => Some(number as u32),
        None => None,
    }
}

/// The table of stubs at the top level.
fn stubs_at(table: &Table) -> Option<&Table>
    ensures { option_map (λ stubs. table_view stubs.now) result ≡ option_and_then as_table (value_at Key.Stub (table_view table.now)) }
{
    match value_at(table, Key::Stub) {
        Some(value) => value.as_table(),
        None => None,
    }
}

fn read_named(alloc: Global, table: &Table) -> Result<BTreeMap<Vec<u8>, Stub>, StubFault>
    ensures read { IfOk result (λ stubs. AreRead (stubs_in (table_view table.now)) stubs.entries) }
    ensures fault { IfErr result (OrMemory (IsFirstFault (stubs_in (table_view table.now)))) }
{
    match stubs_at(table) {
        Some(stubs) => read_all(alloc, stubs),
        None => Ok(BTreeMap::new(alloc)),
    }
}

fn read_parts(alloc: Global, table: &Table) -> Result<Stubs, StubFault>
    requires { top_fault (table_view table.now) ≡ None }
    ensures faultless { OnOk result (AreFaultless (stubs_in (table_view table.now))) }
    ensures stated { IfOk result (IsStated (table_view table.now)) }
    ensures fault { IfErr result (OrMemory (IsFirstFault (stubs_in (table_view table.now)))) }
{
    let align = align_at(table);
    match read_named(alloc, table) {
        Ok(stubs) => Ok(Stubs::new(align, stubs)),
        Err(fault) => Err(fault),
    }
}

fn read_document(alloc: Global, table: &Table) -> Result<Stubs, StubFault>
    ensures faultless { OnOk result (IsFaultless (table_view table.now)) }
    ensures stated { IfOk result (IsStated (table_view table.now)) }
    ensures fault { IfErr result (OrMemory (HasFault (table_view table.now))) }
{
    match top_fault(table) {
        Some(fault) => Err(fault),
        None => read_parts(alloc, table),
    }
}

/// Reads a stub file, a TOML 1.1 document: `stack_align`, a power of two from 4 to 4,096, and the table `stub`, whose
/// keys are names of imports.
///
/// A stub has `args`, the bytes of its arguments (a multiple of 4 up to 64), `cleans`, those that it takes off the
/// stack (the same, 0 where it is not there), `reply` (`any`, `number`, `block`, `never` or `enter`) and up to four
/// tables in `writes`. With `number` comes `number`, with `block` one of `size` (1 to 67,108,864) and `size_arg` and,
/// if wanted, `zeroed` and `may_fail`, with `enter` comes `enter_arg`. A write has `arg` and one of `length` (0 to
/// 67,108,864) and `length_arg`. Keys that end in `arg` are indices of arguments, below `args` / 4.
///
/// The first fault is told, at the top level first and then at the first stub in byte order of the names that has one.
pub fn read_stubs(alloc: Global, bytes: &[u8]) -> Result<Stubs, StubFault>
    ensures stated { IfOk result (States bytes.now) }
    ensures refused { IfErr result (Refuses bytes.now) }
{
    match toml::table_from_slice(alloc, bytes) {
        Ok(table) => read_document(alloc, &table),
        Err(error) if error.is_memory() => Err(StubFault::Memory),
        Err(_) => Err(StubFault::NotToml),
    }
}
