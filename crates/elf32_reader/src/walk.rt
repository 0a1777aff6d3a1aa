ghost use Rattle.std.specs.Prelude.{◌≡◌, ◌⊎◌, ◌++◌, ◌∷◌, [], Ok, Err, Some, IsTrue, MatchResult, OnOk};
ghost use Rattle.memory_map.specs.Name.{is_name};
ghost use Rattle.elf32_reader.specs.Symbols.{import_name};
ghost use Rattle.elf32_reader.specs.KnownNames.{AreKnown, HasIndex};
ghost use Rattle.elf32_reader.specs.Walk.{all_entries, entries, nothing, step, step_import, step_symbol, steps, walk};

use crate::entry::{Entry, entry_at};
use crate::known_names::KnownNames;
use crate::lookup::Lookup;
use crate::relocation::{
    NONE, imported, is_import, kind_of, own_symbol, place_of, reloc_of, size_of,
};
use crate::symbol::Symbol;
use crate::{ElfFault, ElfReloc};
use file_pieces::{NameFault, SeenNames};
use std::alloc::Global;
use std::marker::Model;

// Relocations and the names that they import, as far as they are read.
#[derive(Drop)]
pub struct Walk {
    relocs: Vec<ElfReloc>,
    names: SeenNames,
}

impl Model for Walk {
    ghost use Rattle.elf32_reader.specs.Walk.{Walked};
    ghost use Rattle.elf32_reader.specs.WalkedOn.{walked};

    ghost Value = { Walked };

    ghost view = { walked };
}

impl Walk {
    fn new(alloc: Global) -> Walk
        ensures { result ≡ nothing }
    {
        Walk {
            relocs: Vec::new(alloc),
            names: SeenNames::new(alloc),
        }
    }

    // The relocations and the names apart.
    pub fn into_parts(self) -> (Vec<ElfReloc>, SeenNames)
        ensures relocs { result.0.items ≡ self.relocs }
        ensures names { result.1 ≡ self.names }
    {
        let Walk { relocs, names } = self;
        (relocs, names)
    }

    fn push(&mut self, reloc: ElfReloc) -> Result<(), ElfFault>
        ensures { MatchResult result (λ _. self.new ≡ record { relocs = self.old.relocs ++ reloc ∷ []; names = self.old.names }) (λ e. e ≡ ElfFault.Memory) }
    {
        self.relocs.push(reloc)?;
        Ok(())
    }

    // An import whose name has an index already.
    fn push_known(
        &mut self,
        lookup: &Lookup,
        entry: &Entry,
        symbol: &Symbol,
        index: u32,
    ) -> Result<(), ElfFault>
        requires { HasIndex lookup.now self.old.names symbol.now.name index }
        ensures exact { MatchResult result (λ _. step_import lookup.now self.old entry.now symbol.now (import_name lookup.now symbol.now) ≡ Ok self.new) (λ e. e ≡ ElfFault.Memory) }
        ensures names { OnOk result (self.new.names ≡ self.old.names) }
    {
        let meaning = imported(symbol, index);
        self.push(reloc_of(lookup.bias(), entry, symbol, meaning))
    }

    fn push_import(
        &mut self,
        alloc: Global,
        lookup: &Lookup,
        known: &mut KnownNames,
        entry: &Entry,
        symbol: &Symbol,
        name: &[u8],
    ) -> Result<(), ElfFault>
        requires name { IsTrue (is_name name.now) }
        requires found { import_name lookup.now symbol.now ≡ Some name.now }
        requires known { AreKnown lookup.now self.old.names known.old }
        ensures exact { MatchResult result (λ _. step_import lookup.now self.old entry.now symbol.now (Some name.now) ≡ Ok self.new) (λ e. (e ≡ ElfFault.Memory) ⊎ (step_import lookup.now self.old entry.now symbol.now (Some name.now) ≡ Err e)) }
        ensures known { OnOk result (AreKnown lookup.now self.new.names known.new) }
    {
        match self.names.index_of(alloc, name) {
            Ok(index) => {
                known.insert(symbol.name, index)?;
                let meaning = imported(symbol, index);
                self.push(reloc_of(lookup.bias(), entry, symbol, meaning))
            }
            Err(fault) => match fault {
                NameFault::Full => Err(ElfFault::ManyImports),
                NameFault::Memory => Err(ElfFault::Memory),
            },
        }
    }

    // A name is read for the first symbol that has it at a place of the string table, and for no other.
    fn step_import(
        &mut self,
        alloc: Global,
        lookup: &Lookup,
        known: &mut KnownNames,
        entry: &Entry,
        symbol: &Symbol,
    ) -> Result<(), ElfFault>
        requires { AreKnown lookup.now self.old.names known.old }
        ensures exact { MatchResult result (λ _. step_import lookup.now self.old entry.now symbol.now (import_name lookup.now symbol.now) ≡ Ok self.new) (λ e. (e ≡ ElfFault.Memory) ⊎ (step_import lookup.now self.old entry.now symbol.now (import_name lookup.now symbol.now) ≡ Err e)) }
        ensures known { OnOk result (AreKnown lookup.now self.new.names known.new) }
    {
        if let Some(index) = known.get(symbol.name) {
            return self.push_known(lookup, entry, symbol, index);
        }
        match lookup.import_name(symbol) {
            Some(name) => self.push_import(alloc, lookup, known, entry, symbol, name),
            None => Err(ElfFault::Name),
        }
    }

    fn step_symbol(
        &mut self,
        alloc: Global,
        lookup: &Lookup,
        known: &mut KnownNames,
        entry: &Entry,
        symbol: &Symbol,
    ) -> Result<(), ElfFault>
        requires { AreKnown lookup.now self.old.names known.old }
        ensures exact { MatchResult result (λ _. step_symbol lookup.now self.old entry.now (Some symbol.now) ≡ Ok self.new) (λ e. (e ≡ ElfFault.Memory) ⊎ (step_symbol lookup.now self.old entry.now (Some symbol.now) ≡ Err e)) }
        ensures known { OnOk result (AreKnown lookup.now self.new.names known.new) }
    {
        let kind = kind_of(entry);
        if !lookup.is_in_one(place_of(lookup.bias(), entry), size_of(kind, symbol)) {
            return Err(ElfFault::RelocOutside);
        }
        if is_import(kind, symbol) {
            return self.step_import(alloc, lookup, known, entry, symbol);
        }
        let meaning = own_symbol(lookup.bias(), kind, symbol);
        self.push(reloc_of(lookup.bias(), entry, symbol, meaning))
    }

    #[tactic(auto, unfolding(crate::specs::Walk::step))]
    fn step(
        &mut self,
        alloc: Global,
        lookup: &Lookup,
        known: &mut KnownNames,
        entry: &Entry,
    ) -> Result<(), ElfFault>
        requires { AreKnown lookup.now self.old.names known.old }
        ensures exact { MatchResult result (λ _. step lookup.now self.old entry.now ≡ Ok self.new) (λ e. (e ≡ ElfFault.Memory) ⊎ (step lookup.now self.old entry.now ≡ Err e)) }
        ensures known { OnOk result (AreKnown lookup.now self.new.names known.new) }
    {
        if kind_of(entry) == NONE {
            return Ok(());
        }
        match lookup.symbol_for(entry) {
            Some(symbol) => self.step_symbol(alloc, lookup, known, entry, &symbol),
            None => Err(ElfFault::Dynamic),
        }
    }

    // The entries of a table, one after another.
    fn steps(
        &mut self,
        alloc: Global,
        lookup: &Lookup,
        known: &mut KnownNames,
        table: &[u8],
    ) -> Result<(), ElfFault>
        requires { AreKnown lookup.now self.old.names known.old }
        ensures exact { MatchResult result (λ _. steps lookup.now (Ok self.old) (entries table.now) ≡ Ok self.new) (λ e. (e ≡ ElfFault.Memory) ⊎ (steps lookup.now (Ok self.old) (entries table.now) ≡ Err e)) }
        ensures known { OnOk result (AreKnown lookup.now self.new.names known.new) }
    {
        for i in 0..table.len() / 8 {
            if let Err(fault) = self.step(alloc, lookup, known, &entry_at(table, i)) {
                return Err(fault);
            }
        }
        Ok(())
    }

    fn both_tables(&mut self, alloc: Global, lookup: &Lookup) -> Result<(), ElfFault>
        ensures { MatchResult result (λ _. steps lookup.now (Ok self.old) (all_entries lookup.now) ≡ Ok self.new) (λ e. (e ≡ ElfFault.Memory) ⊎ (steps lookup.now (Ok self.old) (all_entries lookup.now) ≡ Err e)) }
    {
        let mut known = KnownNames::new(alloc);
        if let Err(fault) = self.steps(alloc, lookup, &mut known, lookup.rel_table()) {
            return Err(fault);
        }
        self.steps(alloc, lookup, &mut known, lookup.jmprel_table())
    }
}

// All relocations of a file.
#[tactic(auto, unfolding(crate::specs::Walk::walk))]
pub fn walk_all(alloc: Global, lookup: &Lookup) -> Result<Walk, ElfFault>
    ensures { MatchResult result (λ w. walk lookup.now ≡ Ok w) (λ e. (e ≡ ElfFault.Memory) ⊎ (walk lookup.now ≡ Err e)) }
{
    let mut walk = Walk::new(alloc);
    match walk.both_tables(alloc, lookup) {
        Ok(()) => Ok(walk),
        Err(fault) => Err(fault),
    }
}
