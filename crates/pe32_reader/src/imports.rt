ghost use Rattle.std.specs.Prelude.{◌≡◌, ◌≢◌, ◌⊎◌, ◌≤◌, ◌<◌, ◌^◌, ◌==◌, map, nat_le, length, IsTrue, IfOk, MatchResult, Ok, Err, OnOk, if◌then◌else◌};
ghost use Rattle.memory_map.specs.Map.{range_of};
ghost use Rattle.memory_map.specs.Name.{is_name};
ghost use Rattle.file_pieces.specs.Found.{is_in_one, name_from};
ghost use Rattle.file_pieces.specs.Names.{index_of, with_name};
ghost use Rattle.pe32_reader.specs.Imports.{ended, descriptor_step, descriptors, each_entry, import_place, imports_of, library_thunks, nothing, thunk_step, thunks, with_import, with_some_name, MOST_DESCRIPTORS, NAME_ROOM, TOO_MANY_THUNKS};
ghost use Rattle.pe32_reader.specs.NamedPlaces.{AreNamed};
ghost use Rattle.pe32_reader.specs.Walk.{seen_by, ComesTo, HasSlots};

use crate::descriptor::{DESCRIPTOR_SIZE, Descriptor, descriptor_at, word_in};
use crate::named_places::NamedPlaces;
use crate::names::{NAME_BYTES, import_name};
use crate::slots::{Slot, slot_address};
use file_pieces::{NameFault, SeenNames, name_from};
use memory_map::{Name, Segments, USER_END};
use pe_headers::{PeFault, address_from};
use std::alloc::{AllocError, Global};

const THUNK_ROUNDS: u64 = 65_536;

const DESCRIPTOR_ROUNDS: u64 = 214_748_365;

/// What is imported so far: names in first-seen order, and slots with the places that they are to receive.
#[derive(Drop)]
pub struct ImportTable {
    pub names: SeenNames,
    pub slots: Vec<Slot>,
}

fn import_place(index: u32) -> u32
    requires { index < 65535 }
    ensures { result ≡ import_place index }
{
    USER_END + 16 + 16 * index
}

// Whether a descriptor has a FirstThunk and no thunk word.
fn has_no_thunk(segments: &Segments, base: u32, descriptor: Descriptor) -> bool
    ensures none { IsTrue result → library_thunks (map range_of segments.now) base descriptor ≡ ended }
    ensures first { IsTrue result → descriptor.first_thunk ≢ 0 }
{
    if descriptor.first_thunk == 0 {
        return false;
    }
    let list = address_from(base, descriptor.name_list());
    match word_in(segments, u64::from(list)) {
        Some(word) => word == 0,
        None => false,
    }
}

impl ImportTable {
    fn new(alloc: Global) -> ImportTable
        ensures seen { seen_by result ≡ nothing }
        ensures few { HasSlots result }
    {
        ImportTable {
            names: SeenNames::new(alloc),
            slots: Vec::new(alloc),
        }
    }

    // The index of a name among those so far, to which it goes.
    fn index_of(&mut self, alloc: Global, name: &Name) -> Result<u32, AllocError>
        requires { length self.old.names < 65535 }
        ensures index { IfOk result (λ i. i ≡ index_of self.old.names name.now) }
        ensures names { OnOk result (self.new.names ≡ with_name self.old.names name.now) }
        ensures within { IfOk result (λ i. i < length self.new.names) }
        ensures slots { self.new.slots ≡ self.old.slots }
    {
        match self.names.index_of(alloc, name.as_slice()) {
            Ok(index) => Ok(index),
            Err(fault) => match fault {
                NameFault::Memory => Err(AllocError),
                NameFault::Full => unreachable!(),
            },
        }
    }

    // One more import.
    fn add(&mut self, alloc: Global, name: &Name, at: u32) -> Result<(), AllocError>
        requires slots { HasSlots self.old }
        requires room { length self.old.slots.items < 65535 }
        ensures seen { OnOk result (seen_by self.new ≡ with_import name.now at (seen_by self.old)) }
        ensures few { OnOk result (HasSlots self.new) }
    {
        let index = self.index_of(alloc, name)?;
        let place = import_place(index);
        self.slots.push(Slot { at, place })?;
        Ok(())
    }

    // A thunk word of a library, whose slot is at an address.
    fn take_thunk(
        &mut self,
        alloc: Global,
        segments: &Segments,
        base: u32,
        library: &[u8],
        word: u32,
        slot: u64,
    ) -> Result<(), PeFault>
        requires slots { HasSlots self.old }
        requires small { slot < 2 ^ 63 }
        ensures exact { ComesTo (thunk_step (map range_of segments.now) base library.now (record { word = word; slot = slot }) (seen_by self.old)) (seen_by self.new) result }
        ensures few { OnOk result (HasSlots self.new) }
    {
        if self.slots.len() as u64 + 1 >= THUNK_ROUNDS {
            return Err(PeFault::ManyImports);
        }
        match import_name(alloc, segments, base, library, word)? {
            None => Err(PeFault::Name),
            Some(name) => {
                let Some(at) = slot_address(segments, slot) else {
                    return Err(PeFault::Imports);
                };
                self.add(alloc, &name, at)?;
                Ok(())
            }
        }
    }

    // The thunk words from one address on, whose slots are from another on.
    fn take_thunks(
        &mut self,
        alloc: Global,
        segments: &Segments,
        base: u32,
        library: &[u8],
        list: u32,
        slots: u32,
    ) -> Result<(), PeFault>
        requires { HasSlots self.old }
        ensures exact { ComesTo (each_entry (thunk_step (map range_of segments.now) base library.now) (thunks (map range_of segments.now) TOO_MANY_THUNKS list slots) (seen_by self.old)) (seen_by self.new) result }
        ensures few { OnOk result (HasSlots self.new) }
    {
        for i in 0..THUNK_ROUNDS {
            match word_in(segments, u64::from(list) + 4 * i) {
                None => return Err(PeFault::Imports),
                Some(0) => return Ok(()),
                Some(word) => {
                    let slot = u64::from(slots) + 4 * i;
                    self.take_thunk(alloc, segments, base, library, word, slot)?;
                }
            }
        }
        Err(PeFault::Imports)
    }

    // A descriptor: its library's name, its FirstThunk and its thunk words. A name that no import is to have is read once.
    fn take_descriptor(
        &mut self,
        alloc: Global,
        segments: &Segments,
        base: u32,
        named: &mut NamedPlaces,
        descriptor: Descriptor,
    ) -> Result<(), PeFault>
        requires slots { HasSlots self.old }
        requires named { AreNamed (map range_of segments.now) named.old }
        ensures exact { ComesTo (descriptor_step (map range_of segments.now) base descriptor (seen_by self.old)) (seen_by self.new) result }
        ensures few { OnOk result (HasSlots self.new) }
        ensures named { OnOk result (AreNamed (map range_of segments.now) named.new) }
    {
        let at = address_from(base, descriptor.name);
        if named.has(at) && has_no_thunk(segments, base, descriptor) {
            return Ok(());
        }
        match name_from(segments, u64::from(at), NAME_BYTES) {
            None => Err(PeFault::Name),
            Some(library) => {
                named.insert(at)?;
                if descriptor.first_thunk == 0 {
                    return Err(PeFault::Imports);
                }
                let list = address_from(base, descriptor.name_list());
                let slots = address_from(base, descriptor.first_thunk);
                self.take_thunks(alloc, segments, base, library, list, slots)
            }
        }
    }

    // The descriptors from an address on.
    fn take_descriptors(
        &mut self,
        alloc: Global,
        segments: &Segments,
        base: u32,
        directory: u32,
    ) -> Result<(), PeFault>
        requires { HasSlots self.old }
        ensures exact { ComesTo (each_entry (descriptor_step (map range_of segments.now) base) (descriptors (map range_of segments.now) MOST_DESCRIPTORS directory) (seen_by self.old)) (seen_by self.new) result }
        ensures few { OnOk result (HasSlots self.new) }
    {
        let mut named = NamedPlaces::new(alloc);
        for i in 0..DESCRIPTOR_ROUNDS {
            match descriptor_at(segments, u64::from(directory) + DESCRIPTOR_SIZE * i) {
                None => return Err(PeFault::Imports),
                Some(None) => return Ok(()),
                Some(Some(descriptor)) => {
                    self.take_descriptor(alloc, segments, base, &mut named, descriptor)?;
                }
            }
        }
        Err(PeFault::Imports)
    }
}

/// What an image imports whose directory has this place, or that has none.
pub fn imports_of(
    alloc: Global,
    segments: &Segments,
    base: u32,
    directory: Option<u32>,
) -> Result<ImportTable, PeFault>
    ensures exact { MatchResult result (λ imported. imports_of (map range_of segments.now) base directory ≡ Ok (seen_by imported)) (λ e. (e ≡ PeFault.Memory) ⊎ (imports_of (map range_of segments.now) base directory ≡ Err e)) }
    ensures few { IfOk result HasSlots }
{
    let mut imported = ImportTable::new(alloc);
    match directory {
        None => Ok(imported),
        Some(directory) => {
            let at = address_from(base, directory);
            imported.take_descriptors(alloc, segments, base, at)?;
            Ok(imported)
        }
    }
}
