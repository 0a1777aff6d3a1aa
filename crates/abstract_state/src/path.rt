ghost use Rattle.std.specs.Prelude.{◌≡◌, ◌+◌, ◌<◌, ◌≤◌, ◌^◌, IfOk, OnOk, [], ◌∷◌, map, true, pos, ◌≤ℤ◌, ◌+ℤ◌};
ghost use Rattle.partitioned_memory.specs.Lists.{Every};
ghost use Rattle.bit_words.specs.Width.{bytes_of};
ghost use Rattle.memory_map.specs.Map.{range_of};
ghost use Rattle.memory_map.specs.Range.{may_write};
ghost use Rattle.memory_map.specs.Spans.{runs_of};
ghost use Rattle.domain_laws.specs.Made.{values_of};
ghost use Rattle.domain_laws.specs.Reached.{named};
ghost use Rattle.partitioned_memory.specs.Areas.{block_in};
ghost use Rattle.partitioned_memory.specs.Well.{HasCount, MayHold};
ghost use Rattle.abstract_state.specs.Accessing.{cause_outside, lies_in_extent, put_in, region_put, stored, stored_among, stored_at, stored_from, with_spans, word_put};
ghost use Rattle.abstract_state.specs.State.{with_parts};
ghost use Rattle.abstract_state.specs.Expanding.{ended, lands, starts, stopped};

use crate::access::{end_after, is_in_fault_zone, lies_in_region, touches_fault_zone};
use crate::expansion::{Expansion, record_write};
use crate::state::State;
use crate::stored::Stored;
use address_regions::Region;
use bit_words::{NoMemory, Width};
use domain_laws::{Domain, Reach};
use flow_log::Cause;
use image_loader::Image;
use memory_map::{Ranges, Segments, Span};
use partitioned_memory::Area;
use std::alloc::Global;
use std::marker::Model;

/// A path on its way through an instruction: its state, and the ranges of the image that it has written, each once, by its low address and its size.
#[derive(Drop)]
pub struct Path<D: Domain> {
    pub state: State<D>,
    pub writes: Vec<(u32, u32)>,
}

impl<D: Domain> Model for Path<D> {
    ghost use Rattle.abstract_state.specs.Expanding.{Path as PathOf};

    ghost Value = { PathOf D };

    ghost view = { λ p. record { state = p.state; writes = p.writes.items } };
}

// The longest runs of bytes that may be written, among `n` from an address on, ascending.
fn writable_runs(alloc: Global, segments: &Segments, a: u32, n: u64) -> Result<Ranges, NoMemory>
    requires { a + n < 2 ^ 32 }
    ensures runs { IfOk result (λ runs. runs ≡ runs_of (may_write (map range_of segments.now)) a n) }
    ensures within { IfOk result (λ runs. Every (λ s. s.low + s.size ≤ 2 ^ 32) runs) }
{
    let low = u64::from(a);
    Ok(segments.writable_runs(alloc, low, low + n)?)
}

// Why a location is left open by a store that is not wholly in its region.
pub(crate) fn cause_outside(region: Region) -> Cause
    ensures { result ≡ cause_outside region }
{
    match region {
        Region::Stack => Cause::Stack,
        Region::Fs | Region::Gs => Cause::Store,
        Region::Block { .. } => Cause::Block,
    }
}

impl<D: Domain> Path<D> {
    /// A path that begins with a state, and has written nothing; takes no memory.
    pub fn start(alloc: Global, state: State<D>) -> Path<D>
        ensures { result ≡ starts state }
    {
        Path {
            state,
            writes: Vec::new(alloc),
        }
    }

    fn alloc(&self) -> Global {
        *self.writes.allocator()
    }

    /// The same path again.
    pub fn copy(&self) -> Result<Path<D>, NoMemory>
        ensures { IfOk result (λ copy. copy ≡ self.now) }
    {
        Ok(Path {
            state: self.state.copy()?,
            writes: Vec::from_slice(self.alloc(), &self.writes)?,
        })
    }

    /// The end of a path with no next state; takes no memory.
    pub fn ended(self) -> Expansion<D>
        ensures { result ≡ ended self.writes }
    {
        let alloc = self.alloc();
        let Path { writes, .. } = self;
        Expansion::new(Vec::new(alloc), Vec::new(alloc), writes)
    }

    /// The end of a path with a cause.
    pub fn stopped(self, cause: Cause) -> Result<Expansion<D>, NoMemory>
        ensures { IfOk result (λ x. x ≡ stopped cause self.writes) }
    {
        let alloc = self.alloc();
        let mut causes = Vec::new(alloc);
        causes.push(cause)?;
        let Path { writes, .. } = self;
        Ok(Expansion::new(Vec::new(alloc), causes, writes))
    }

    /// The end of a path with one next pair.
    pub fn lands(self, target: u32) -> Result<Expansion<D>, NoMemory>
        ensures { IfOk result (λ x. x ≡ lands target self) }
    {
        let alloc = self.alloc();
        let Path { state, writes } = self;
        let mut next = Vec::new(alloc);
        next.push((target, state))?;
        Ok(Expansion::new(next, Vec::new(alloc), writes))
    }

    /// A store of a value at an address of which a value is known. Where it was not done the path is as it was.
    ///
    /// At one number that touches the fault zone it faults, and at image bytes too where one of them may not be written; other image bytes get the value.
    /// At one of several numbers it faults where all bytes are in the fault zone, or are image bytes none of which may be written;
    /// where they are image bytes otherwise, those that may be written become unknown.
    /// At places whose bytes are in their region those of one place get the value, and those of several become unknown.
    /// All else is a cause. What is written of the image is recorded, and a noted word that is written is noted no more.
    /// After want of memory the path may have been written in part.
    #[tactic(auto, unfolding(crate::specs::Accessing::stored))]
    pub fn store(&mut self, image: &Image, w: Width, address: D, v: D) -> Result<Stored, NoMemory>
        requires address { HasCount self.old.state.parts.blocks (named (D.reach address)) }
        requires value { MayHold (values_of D.Domain.own D.eq) self.old.state.parts.blocks w v }
        ensures { IfOk result (λ done. (done, self.new) ≡ stored (values_of D.Domain.own D.eq) image.now w address v self.old) }
    {
        match address.reach() {
            Reach::Number { low, high } => self.store_from(image, low, high, w, v),
            Reach::Place { region, low, high } => self.store_in(region, low, high, w, v),
            Reach::Anywhere => Ok(Stored::Stopped(Cause::Store)),
        }
    }

    fn store_from(
        &mut self,
        image: &Image,
        low: u32,
        high: u32,
        w: Width,
        v: D,
    ) -> Result<Stored, NoMemory>
        requires { MayHold (values_of D.Domain.own D.eq) self.old.state.parts.blocks w v }
        ensures { IfOk result (λ done. (done, self.new) ≡ stored_from (values_of D.Domain.own D.eq) image.now low high w v self.old) }
    {
        if low == high {
            self.store_at(image, low, w, v)
        } else {
            let end = u64::from(high) + u64::from(w.bytes());
            self.store_among(image, low, end.saturating_sub(u64::from(low)))
        }
    }

    fn store_at(&mut self, image: &Image, a: u32, w: Width, v: D) -> Result<Stored, NoMemory>
        requires { MayHold (values_of D.Domain.own D.eq) self.old.state.parts.blocks w v }
        ensures { IfOk result (λ done. (done, self.new) ≡ stored_at (values_of D.Domain.own D.eq) image.now a w v self.old) }
    {
        let n = u64::from(w.bytes());
        if touches_fault_zone(u64::from(a), n) {
            return Ok(Stored::Faults);
        }
        if !image.segments().maps_all(u64::from(a), n) {
            return Ok(Stored::Stopped(Cause::Store));
        }
        if !image.segments().may_write_each(u64::from(a), n) {
            return Ok(Stored::Faults);
        }
        self.write_word(a, w, v)?;
        Ok(Stored::Done)
    }

    // The value at one address of the image.
    fn write_word(&mut self, a: u32, w: Width, v: D) -> Result<(), NoMemory>
        requires inside { a + bytes_of w ≤ 2 ^ 32 }
        requires value { MayHold (values_of D.Domain.own D.eq) self.old.state.parts.blocks w v }
        ensures { OnOk result (self.new ≡ word_put (values_of D.Domain.own D.eq) a w v self.old) }
    {
        self.state.write_exact(Area::Image, i64::from(a), w, v)?;
        record_write(&mut self.writes, a, w.bytes())
    }

    /// A store of a value at one place of a region, or at one from an offset to another: where the bytes lie in the region it is done, by which
    /// those of one place get the value and those of several become unknown; else it is a cause, and the path is as it was.
    pub fn store_in(
        &mut self,
        region: Region,
        low: i32,
        high: i32,
        w: Width,
        v: D,
    ) -> Result<Stored, NoMemory>
        requires ordered { low ≤ℤ high }
        requires region { HasCount self.old.state.parts.blocks (block_in (Area.In region)) }
        requires value { MayHold (values_of D.Domain.own D.eq) self.old.state.parts.blocks w v }
        ensures { IfOk result (λ done. (done, self.new) ≡ put_in (values_of D.Domain.own D.eq) region low high w v self.old) }
    {
        if lies_in_region(region, i64::from(low), i64::from(high), w) {
            self.write_region(region, low, high, w, v)?;
            self.state
                .drop_note_in(region, i64::from(low), end_after(i64::from(high), w));
            Ok(Stored::Done)
        } else {
            Ok(Stored::Stopped(cause_outside(region)))
        }
    }

    fn write_region(
        &mut self,
        region: Region,
        low: i32,
        high: i32,
        w: Width,
        v: D,
    ) -> Result<(), NoMemory>
        requires inside { lies_in_extent region low (high +ℤ pos (bytes_of w)) ≡ true }
        requires ordered { low ≤ℤ high }
        requires region { HasCount self.old.state.parts.blocks (block_in (Area.In region)) }
        requires value { MayHold (values_of D.Domain.own D.eq) self.old.state.parts.blocks w v }
        ensures { OnOk result (self.new ≡ record self.old { state = with_parts (region_put (values_of D.Domain.own D.eq) region low high w v self.old.state.parts) self.old.state }) }
    {
        if low == high {
            self.state.write_word_in(region, i64::from(low), w, v)
        } else {
            self.state
                .write_some_in(region, i64::from(low), i64::from(high), w.bytes())
        }
    }

    // Any bytes of a range of the image.
    fn write_span(&mut self, s: Span) -> Result<(), NoMemory>
        requires { s.low + s.size ≤ 2 ^ 32 }
        ensures { OnOk result (self.new ≡ with_spans (s ∷ []) self.old) }
    {
        let low = i64::from(s.low);
        self.state
            .write_inside(Area::Image, low, low + i64::from(s.size) - 1)?;
        record_write(&mut self.writes, s.low, s.size)
    }

    fn write_spans(&mut self, spans: &[Span]) -> Result<(), NoMemory>
        requires { Every (λ s. s.low + s.size ≤ 2 ^ 32) spans.now }
        ensures { OnOk result (self.new ≡ with_spans spans.now self.old) }
    {
        for s in spans {
            self.write_span(*s)?;
        }
        Ok(())
    }

    // A store of any bytes somewhere among `size` bytes from an address on.
    pub(crate) fn store_among(
        &mut self,
        image: &Image,
        a: u32,
        size: u64,
    ) -> Result<Stored, NoMemory>
        requires { a + size < 2 ^ 34 }
        ensures { IfOk result (λ done. (done, self.new) ≡ stored_among (values_of D.Domain.own D.eq) image.now a size self.old) }
    {
        let low = u64::from(a);
        if is_in_fault_zone(low, size) {
            return Ok(Stored::Faults);
        }
        if !image.segments().maps_all(low, size) {
            return Ok(Stored::Stopped(Cause::Store));
        }
        let runs = writable_runs(self.alloc(), image.segments(), a, size)?;
        if runs.as_slice().is_empty() {
            return Ok(Stored::Faults);
        }
        self.write_spans(runs.as_slice())?;
        Ok(Stored::Done)
    }
}
