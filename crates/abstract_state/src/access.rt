ghost use Rattle.std.specs.Prelude.{◌≡◌, ◌+◌, ◌<◌, ◌≤◌, ◌^◌, true, IfSome, OnOk, pos, neg_ℤ, ◌+ℤ◌, ◌-ℤ◌, ◌≤ℤ◌};
ghost use Rattle.bit_words.specs.Width.{bytes_of};
ghost use Rattle.domain_laws.specs.Made.{values_of};
ghost use Rattle.partitioned_memory.specs.Areas.{block_in};
ghost use Rattle.partitioned_memory.specs.Held.{after_exact, after_inside};
ghost use Rattle.partitioned_memory.specs.Well.{HasCount, MayHold};
ghost use Rattle.abstract_state.specs.Accessing.{is_in_fault_zone, lies_in_extent, loaded, loaded_at, loaded_beyond, loaded_between, loaded_from, loaded_in, touches_fault_zone, value_at};
ghost use Rattle.abstract_state.specs.State.{with_parts};

use crate::state::State;
use address_regions::Region;
use bit_words::{NoMemory, Width};
use domain_laws::{Domain, Reach};
use image_loader::Image;
use memory_map::{USER_END, USER_LOW};
use partitioned_memory::{Area, Parts};

// Whether some of `n` bytes from an address on, `n` at least 1, is one of the addresses at which nothing is ever mapped.
pub(crate) fn touches_fault_zone(a: u64, n: u64) -> bool
    requires { a + n < 2 ^ 64 }
    ensures { result ≡ touches_fault_zone a n }
{
    a < u64::from(USER_LOW) || u64::from(USER_END) < a + n
}

// Whether each of them is.
pub(crate) fn is_in_fault_zone(a: u64, n: u64) -> bool
    requires { a + n < 2 ^ 64 }
    ensures { result ≡ is_in_fault_zone a n }
{
    a + n <= u64::from(USER_LOW) || u64::from(USER_END) <= a
}

// The offset after the last of `n` bytes at `high`.
pub(crate) fn end_of(high: i64, n: u32) -> i128
    ensures { result ≡ high +ℤ pos n }
{
    i128::from(high) + i128::from(n)
}

// The offset after the last byte of an access at `high`.
pub(crate) fn end_after(high: i64, w: Width) -> i128
    ensures { result ≡ high +ℤ pos (bytes_of w) }
{
    end_of(high, w.bytes())
}

// The offset of the last of `n` bytes at `high`.
fn last_of(high: i64, n: u32) -> i64
    requires greatest { high ≤ℤ pos (2 ^ 32) }
    requires least { neg_ℤ (pos (2 ^ 32)) ≤ℤ high }
    ensures { result ≡ (high +ℤ pos n) -ℤ pos 1 }
{
    high + i64::from(n) - 1
}

// Whether the bytes from one offset on and below another are bytes of a region.
pub(crate) fn lies_in_extent(region: Region, low: i64, end: i128) -> bool
    ensures { result ≡ lies_in_extent region low end }
{
    let (least, limit) = region.extent();
    least <= low && end <= i128::from(limit)
}

// Whether the bytes of an access at an offset from `low` to `high` are all bytes of a region.
pub(crate) fn lies_in_region(region: Region, low: i64, high: i64, w: Width) -> bool
    ensures { result ≡ lies_in_extent region low (high +ℤ pos (bytes_of w)) }
{
    lies_in_extent(region, low, end_after(high, w))
}

// The value of a number, which may be held in a word.
pub(crate) fn number<D: Domain>(parts: &Parts<D>, n: u32) -> D
    ensures value { result ≡ D.number n }
    ensures holds { MayHold (values_of D.Domain.own D.eq) parts.now.blocks Width.B32 result }
{
    let _ = parts.fact_spots();
    D::number(n)
}

impl<D: Domain> State<D> {
    // The value of every number, which may be held at each width.
    fn anything(&self, w: Width) -> D
        ensures value { result ≡ D.any }
        ensures holds { MayHold (values_of D.Domain.own D.eq) self.now.parts.blocks w result }
    {
        let _ = w;
        D::any()
    }

    /// A load at an address of which a value is known: what is known of the word there, or None where the load faults.
    ///
    /// At one number that touches the fault zone it faults, and at image bytes it gives what is known of them.
    /// At one place whose bytes are in its region it gives what is known of these. All else gives any.
    #[tactic(auto, unfolding(crate::specs::Accessing::loaded))]
    pub fn load(&self, image: &Image, address: D, w: Width) -> Option<D>
        ensures value { result ≡ loaded (values_of D.Domain.own D.eq) image.now w address self.now }
        ensures holds { IfSome result (λ v. MayHold (values_of D.Domain.own D.eq) self.now.parts.blocks w v) }
    {
        match address.reach() {
            Reach::Number { low, high } => self.load_from(image, low, high, w),
            Reach::Place { region, low, high } => {
                Some(self.load_between(image, region, low, high, w))
            }
            Reach::Anywhere => Some(self.anything(w)),
        }
    }

    fn load_from(&self, image: &Image, low: u32, high: u32, w: Width) -> Option<D>
        ensures value { result ≡ loaded_from (values_of D.Domain.own D.eq) image.now low high w self.now }
        ensures holds { IfSome result (λ v. MayHold (values_of D.Domain.own D.eq) self.now.parts.blocks w v) }
    {
        if low == high {
            self.load_at(image, low, w)
        } else {
            Some(self.anything(w))
        }
    }

    fn load_at(&self, image: &Image, a: u32, w: Width) -> Option<D>
        ensures value { result ≡ loaded_at (values_of D.Domain.own D.eq) image.now a w self.now }
        ensures holds { IfSome result (λ v. MayHold (values_of D.Domain.own D.eq) self.now.parts.blocks w v) }
    {
        if touches_fault_zone(u64::from(a), u64::from(w.bytes())) {
            None
        } else {
            self.load_beyond(image, a, w)
        }
    }

    fn load_beyond(&self, image: &Image, a: u32, w: Width) -> Option<D>
        requires { a + bytes_of w ≤ 2 ^ 32 }
        ensures value { result ≡ loaded_beyond (values_of D.Domain.own D.eq) image.now a w self.now }
        ensures holds { IfSome result (λ v. MayHold (values_of D.Domain.own D.eq) self.now.parts.blocks w v) }
    {
        if image
            .segments()
            .maps_all(u64::from(a), u64::from(w.bytes()))
        {
            Some(self.value_at(image, Area::Image, i64::from(a), w))
        } else {
            Some(self.anything(w))
        }
    }

    fn load_between(&self, image: &Image, region: Region, low: i32, high: i32, w: Width) -> D
        ensures value { result ≡ loaded_between (values_of D.Domain.own D.eq) image.now region low high w self.now }
        ensures holds { MayHold (values_of D.Domain.own D.eq) self.now.parts.blocks w result }
    {
        if low == high {
            self.load_in(image, region, i64::from(low), w)
        } else {
            self.anything(w)
        }
    }

    /// A load at one place of a region: what is known of the bytes there, and any where some are not the region's.
    pub fn load_in(&self, image: &Image, region: Region, low: i64, w: Width) -> D
        ensures value { result ≡ loaded_in (values_of D.Domain.own D.eq) image.now region low w self.now }
        ensures holds { MayHold (values_of D.Domain.own D.eq) self.now.parts.blocks w result }
    {
        if lies_in_region(region, low, low, w) {
            self.value_in(image, region, low, w)
        } else {
            self.anything(w)
        }
    }

    // What is known of the bytes at one place of a region.
    fn value_in(&self, image: &Image, region: Region, low: i64, w: Width) -> D
        requires { lies_in_extent region low (low +ℤ pos (bytes_of w)) ≡ true }
        ensures value { result ≡ value_at (values_of D.Domain.own D.eq) image.now (Area.In region) low w self.now }
        ensures holds { MayHold (values_of D.Domain.own D.eq) self.now.parts.blocks w result }
    {
        let _bounds = Area::In(region).bounds();
        self.value_at(image, Area::In(region), low, w)
    }

    // A value stored at one place of a region.
    pub(crate) fn write_word_in(
        &mut self,
        region: Region,
        low: i64,
        w: Width,
        v: D,
    ) -> Result<(), NoMemory>
        requires inside { lies_in_extent region low (low +ℤ pos (bytes_of w)) ≡ true }
        requires counted { HasCount self.old.parts.blocks (block_in (Area.In region)) }
        requires value { MayHold (values_of D.Domain.own D.eq) self.old.parts.blocks w v }
        ensures { OnOk result (self.new ≡ with_parts (after_exact (values_of D.Domain.own D.eq) (Area.In region) low w v self.old.parts) self.old) }
    {
        let _bounds = Area::In(region).bounds();
        self.write_exact(Area::In(region), low, w, v)
    }

    // Any bytes stored in a region by an access to `n` bytes at an offset from `low` to `high`.
    pub(crate) fn write_some_in(
        &mut self,
        region: Region,
        low: i64,
        high: i64,
        n: u32,
    ) -> Result<(), NoMemory>
        requires inside { lies_in_extent region low (high +ℤ pos n) ≡ true }
        requires ordered { low ≤ℤ high }
        requires greatest { high ≤ℤ pos (2 ^ 32) }
        requires least { neg_ℤ (pos (2 ^ 32)) ≤ℤ high }
        requires counted { HasCount self.old.parts.blocks (block_in (Area.In region)) }
        ensures { OnOk result (self.new ≡ with_parts (after_inside (Area.In region) low ((high +ℤ pos n) -ℤ pos 1) self.old.parts) self.old) }
    {
        let _bounds = Area::In(region).bounds();
        self.write_inside(Area::In(region), low, last_of(high, n))
    }
}
