ghost use Rattle.std.specs.Prelude.{◌≡◌, ◌<◌, ◌^◌, IfSome, map, pos};
ghost use Rattle.bit_words.specs.Width.{bits_of, bytes_of};
ghost use Rattle.memory_map.specs.Map.{range_of};
ghost use Rattle.partitioned_memory.specs.Areas.{IsInside, IsOffset, interval_at};
ghost use Rattle.partitioned_memory.specs.declared.area.Area.TheVariants.{Image};
ghost use Rattle.partitioned_memory.specs.Held.{dirty_at, first_byte, known_byte, known_half, known_number, loaded_byte};

use crate::area::{Area, is_zeroed};
use crate::dirty_list::is_dirty;
use crate::spots::Spots;
use bit_words::Width;
use memory_map::{Ranges, Segments};

/// What is known of an area's bytes without a fact.
#[derive(Clone, Copy)]
pub(crate) struct AreaBytes<'a> {
    pub(crate) segments: &'a Segments,
    pub(crate) unset: &'a Ranges,
    pub(crate) dirty: &'a Spots<i64>,
    pub(crate) area: Area,
}

// The byte of the image as it was loaded, but for unset ranges.
fn loaded_byte(segments: &Segments, unset: &Ranges, o: i64) -> Option<u8>
    requires { IsOffset Image o }
    ensures { result ≡ loaded_byte (map range_of segments.now) unset.now o }
{
    let a = o as u32;
    if unset.has(u64::from(a)) {
        None
    } else {
        segments.byte_at(a)
    }
}

fn first_byte(segments: &Segments, unset: &Ranges, area: Area, o: i64) -> Option<u8>
    requires { IsOffset area o }
    ensures { result ≡ first_byte (map range_of segments.now) unset.now area o }
{
    match area {
        Area::Image => loaded_byte(segments, unset, o),
        Area::In(region) if is_zeroed(region) => Some(0),
        Area::In(_) => None,
    }
}

impl AreaBytes<'_> {
    pub(crate) fn byte(&self, o: i64) -> Option<u8>
        requires { IsOffset self.now.area o }
        ensures { result ≡ known_byte (map range_of self.now.segments.now) self.now.unset.now (map dirty_at self.now.dirty.now) self.now.area o }
    {
        if is_dirty(self.dirty, self.area, o) {
            None
        } else {
            first_byte(self.segments, self.unset, self.area, o)
        }
    }

    // The number of two bytes, the lowest first.
    fn half(&self, o: i64) -> Option<u16>
        requires { IsInside (interval_at self.now.area o (pos 2)) }
        ensures { result ≡ known_half (known_byte (map range_of self.now.segments.now) self.now.unset.now (map dirty_at self.now.dirty.now) self.now.area) o }
    {
        match (self.byte(o), self.byte(o + 1)) {
            (Some(low), Some(high)) => Some(u16::from(low) + 256 * u16::from(high)),
            _ => None,
        }
    }

    // The number of four bytes, the lowest first.
    fn word(&self, o: i64) -> Option<u32>
        requires { IsInside (interval_at self.now.area o (pos 4)) }
        ensures { result ≡ known_number (known_byte (map range_of self.now.segments.now) self.now.unset.now (map dirty_at self.now.dirty.now) self.now.area) o Width.B32 }
    {
        match (self.half(o), self.half(o + 2)) {
            (Some(low), Some(high)) => Some(u32::from(low) + 65536 * u32::from(high)),
            _ => None,
        }
    }

    /// The number of the bytes of a width, where all are known.
    pub(crate) fn number(&self, o: i64, w: Width) -> Option<u32>
        requires { IsInside (interval_at self.now.area o (pos (bytes_of w))) }
        ensures value { result ≡ known_number (known_byte (map range_of self.now.segments.now) self.now.unset.now (map dirty_at self.now.dirty.now) self.now.area) o w }
        ensures fits { IfSome result (λ n. n < 2 ^ bits_of w) }
    {
        match w {
            Width::B8 => Some(u32::from(self.byte(o)?)),
            Width::B16 => Some(u32::from(self.half(o)?)),
            Width::B32 => self.word(o),
        }
    }
}
