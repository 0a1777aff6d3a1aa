ghost use Rattle.std.specs.Prelude.{◌≡◌, IfOk, IfSome, OnErr, OnOk, map, pos, ◌≤ℤ◌, false};
ghost use Rattle.std.specs.Option.{ForSome};
ghost use Rattle.bit_words.specs.Width.{bytes_of};
ghost use Rattle.memory_map.specs.Map.{range_of};
ghost use Rattle.memory_map.specs.Registers.{register, with_register};
ghost use Rattle.address_regions.specs.Extents.{has_one_base};
ghost use Rattle.domain_laws.specs.Made.{values_of};
ghost use Rattle.domain_laws.specs.Reached.{named};
ghost use Rattle.partitioned_memory.specs.Areas.{IsInside, block_in, interval_at, interval_to};
ghost use Rattle.partitioned_memory.specs.Held.{after_block, after_exact, after_forgetting, after_inside};
ghost use Rattle.partitioned_memory.specs.Well.{HasCount, MayHold};
ghost use Rattle.abstract_state.specs.Accessing.{value_at};
ghost use Rattle.abstract_state.specs.Notes.{IsWellNote, is_in_bytes, note_unless};
ghost use Rattle.abstract_state.specs.State.{IsSmall, covers_state, start_parts, start_state, with_direction, with_flags, with_note, with_parts, with_register_value};

use crate::access::number;
use crate::flags::Truths;
use crate::note::{Note, covers as note_covers, without_bytes, without_register};
use crate::registers::covers as registers_cover;
use crate::truth::Truth;
use address_regions::Region;
use bit_words::{NoMemory, Width};
use domain_laws::Domain;
use image_loader::Image;
use memory_map::{Format, Regs, USER_END};
use partitioned_memory::{Area, Parts};
use std::alloc::Global;
use std::marker::Model;

/// What is known where a run may stand: values of the registers, truths of the flags, the comparison that gave the flags, and what is known of memory.
///
/// Each block region that a register's value names has a count, and a number that a register has is a word.
/// A noted register is one of the eight, and a noted word lies in the stack's extent.
#[derive(Drop)]
pub struct State<D: Domain> {
    pub(crate) regs: Regs<D>,
    pub(crate) flags: Truths,
    pub(crate) note: Option<Note>,
    pub(crate) parts: Parts<D>,
}

impl<D: Domain> Model for State<D> {
    ghost use Rattle.domain_laws.specs.Made.{values_of};
    ghost use Rattle.abstract_state.specs.State.{IsWellState, Known};

    ghost Value = { Known D };

    ghost view = { λ s. record { regs = s.regs; flags = s.flags; note = s.note; parts = s.parts } };

    ghost invariant = { λ s. IsWellState (values_of D.Domain D.eq) (record { regs = s.regs; flags = s.flags; note = s.note; parts = s.parts }) };
}

// What is known of memory at the start: the word at the stack's base, where it is the exit place.
fn start_parts<D: Domain>(alloc: Global, image: &Image) -> Result<Parts<D>, NoMemory>
    ensures { IfOk result (λ parts. parts ≡ start_parts (values_of D.Domain.own D.eq) image.now) }
{
    let mut parts = Parts::new(alloc);
    match image.format() {
        Format::Elf => {}
        Format::Pe => {
            let word = number(&parts, USER_END);
            parts.write_exact(Area::In(Region::Stack), 0, Width::B32, word)?;
        }
    }
    Ok(parts)
}

// The region itself: the size of a block is a word.
fn sized(region: Region) -> Region
    ensures same { result ≡ region }
    ensures small { IsSmall result }
{
    match region {
        Region::Stack | Region::Fs | Region::Gs => region,
        Region::Block { site, size, zeroed } => Region::Block { site, size, zeroed },
    }
}

impl<D: Domain> State<D> {
    /// What is known at every start: ESP is the base of the stack, DF is clear, and the exit place is in the word there for a PE image.
    #[tactic(auto, unfolding(crate::specs::State::start_state))]
    pub fn start(alloc: Global, image: &Image) -> Result<State<D>, NoMemory>
        ensures { IfOk result (λ s. s ≡ start_state (values_of D.Domain.own D.eq) image.now) }
    {
        let parts = start_parts(alloc, image)?;
        let mut regs = Regs::all(D::any());
        regs.esp = D::place(Region::Stack, 0);
        Ok(State {
            regs,
            flags: Truths::unknown(Truth::No),
            note: None,
            parts,
        })
    }

    /// The same state again.
    pub fn copy(&self) -> Result<State<D>, NoMemory>
        ensures { IfOk result (λ copy. copy ≡ self.now) }
    {
        Ok(State {
            regs: self.regs,
            flags: self.flags,
            note: self.note,
            parts: self.parts.copy()?,
        })
    }

    /// Whether this stands for all for which `s` does.
    #[tactic(auto, unfolding(crate::specs::State::covers_state))]
    pub fn covers(&self, s: &State<D>) -> bool
        ensures { result ≡ covers_state (values_of D.Domain.own D.eq) self.now s.now }
    {
        registers_cover(&self.regs, &s.regs)
            && (self.flags.covers(&s.flags)
                && (note_covers(self.note, s.note) && self.parts.covers(&s.parts)))
    }

    /// The value of the register of a number, 0 to 7; above 7, that of EDI. It may be held in a word.
    pub fn register(&self, r: u8) -> D
        ensures value { result ≡ register self.now.regs r }
        ensures holds { MayHold (values_of D.Domain.own D.eq) self.now.parts.blocks Width.B32 result }
    {
        self.regs.get(r)
    }

    /// Gives the register of a number another value; above 7, there is none. A note of the register goes.
    pub fn set_register(&mut self, r: u8, v: D)
        requires { MayHold (values_of D.Domain.own D.eq) self.old.parts.blocks Width.B32 v }
        ensures { self.new ≡ with_register_value r v self.old }
    {
        self.regs.set(r, v);
        self.note = without_register(self.note, r);
    }

    /// What is known of the flags.
    pub fn flags(&self) -> Truths
        ensures { result ≡ self.now.flags }
    {
        self.flags
    }

    /// Other flags, where one of the six but DF was written: the note goes.
    pub fn set_flags(&mut self, flags: Truths)
        ensures { self.new ≡ with_flags flags self.old }
    {
        self.flags = flags;
        self.note = None;
    }

    /// Another direction flag; the note stays.
    pub fn set_direction(&mut self, direction: Truth)
        ensures { self.new ≡ with_direction direction self.old }
    {
        self.flags.direction = direction;
    }

    /// The comparison that gave the flags, where one is noted.
    pub fn note(&self) -> Option<Note>
        ensures note { result ≡ self.now.note }
        ensures well { ForSome result IsWellNote }
    {
        self.note
    }

    /// Another note, or none.
    pub fn set_note(&mut self, note: Option<Note>)
        requires { ForSome note IsWellNote }
        ensures { self.new ≡ with_note note self.old }
    {
        self.note = note;
    }

    // What is known of the bytes at one place.
    pub(crate) fn value_at(&self, image: &Image, area: Area, low: i64, w: Width) -> D
        requires { IsInside (interval_at area low (pos (bytes_of w))) }
        ensures value { result ≡ value_at (values_of D.Domain.own D.eq) image.now area low w self.now }
        ensures holds { MayHold (values_of D.Domain.own D.eq) self.now.parts.blocks w result }
    {
        self.parts
            .read(image.segments(), image.unset(), area, low, w)
    }

    /// What is known of memory.
    pub fn parts(&self) -> &Parts<D>
        ensures { result.now ≡ self.now.parts }
    {
        &self.parts
    }

    /// A further block of a region: it counts One where it had no count, and else Many, and then its facts go.
    /// After want of memory the state is as it was.
    pub fn add_block(&mut self, region: Region) -> Result<(), NoMemory>
        requires { has_one_base region ≡ false }
        ensures ok { OnOk result (self.new ≡ with_parts (after_block region self.old.parts) self.old) }
        ensures err { OnErr result (self.new ≡ self.old) }
    {
        let region = sized(region);
        self.parts.add_block(region)?;
        Ok(())
    }

    /// The facts of the stack that have a byte below an offset go. After want of memory the state is as it was.
    pub fn forget_below(&mut self, high: i64) -> Result<(), NoMemory>
        ensures ok { OnOk result (self.new ≡ with_parts (after_forgetting high self.old.parts) self.old) }
        ensures err { OnErr result (self.new ≡ self.old) }
    {
        self.parts.forget_below(high)?;
        Ok(())
    }

    // A value stored at one place.
    pub(crate) fn write_exact(
        &mut self,
        area: Area,
        low: i64,
        w: Width,
        v: D,
    ) -> Result<(), NoMemory>
        requires inside { IsInside (interval_at area low (pos (bytes_of w))) }
        requires counted { HasCount self.old.parts.blocks (block_in area) }
        requires value { MayHold (values_of D.Domain.own D.eq) self.old.parts.blocks w v }
        ensures ok { OnOk result (self.new ≡ with_parts (after_exact (values_of D.Domain.own D.eq) area low w v self.old.parts) self.old) }
        ensures err { OnErr result (self.new ≡ self.old) }
    {
        self.parts.write_exact(area, low, w, v)?;
        Ok(())
    }

    // Any bytes stored from one offset to another, both included.
    pub(crate) fn write_inside(&mut self, area: Area, low: i64, high: i64) -> Result<(), NoMemory>
        requires inside { low ≤ℤ high → IsInside (interval_to area low high) }
        requires counted { HasCount self.old.parts.blocks (block_in area) }
        ensures ok { OnOk result (self.new ≡ with_parts (after_inside area low high self.old.parts) self.old) }
        ensures err { OnErr result (self.new ≡ self.old) }
    {
        self.parts.write_inside(area, low, high)?;
        Ok(())
    }

    // Another value in a register; a note of it stays.
    pub(crate) fn refine_register(&mut self, r: u8, v: D)
        requires { MayHold (values_of D.Domain.own D.eq) self.old.parts.blocks Width.B32 v }
        ensures { self.new ≡ record self.old { regs = with_register self.old.regs r v } }
    {
        self.regs.set(r, v);
    }

    // A note goes of a word that has a byte of a region from one offset on and below another.
    pub(crate) fn drop_note_in(&mut self, region: Region, low: i64, end: i128)
        ensures { self.new ≡ with_note (note_unless (is_in_bytes (Area.In region) low end) self.old.note) self.old }
    {
        self.note = without_bytes(self.note, region, low, end);
    }
}
