ghost use Rattle.std.specs.Prelude.{◌≡◌, ◌<◌, ◌^◌, map, Some, None, if◌then◌else◌};
ghost use Rattle.memory_map.specs.Map.{range_of};
ghost use Rattle.file_pieces.specs.Found.{is_in_one};
ghost use Rattle.pe32_reader.specs.Image.{with_slots};

use file_pieces::is_in_one;
use memory_map::Segments;

/// A word of the image that is to receive the place of an import.
#[derive(Clone, Copy)]
pub struct Slot {
    pub at: u32,
    pub place: u32,
}

/// The address, where four bytes from it on are in one segment.
pub fn slot_address(segments: &Segments, at: u64) -> Option<u32>
    requires { at < 2 ^ 63 }
    ensures { result ≡ (if is_in_one (map range_of segments.now) at 4 then Some at else None) }
{
    let _list = segments.as_slice();
    if is_in_one(segments, at, 4) {
        Some(at as u32)
    } else {
        None
    }
}

/// Puts each place into its slot, in turn.
pub fn fill_slots(segments: &mut Segments, slots: &[Slot])
    ensures { map range_of segments.new ≡ with_slots (map range_of segments.old) slots.now }
{
    for slot in slots {
        segments.put_word(slot.at, slot.place);
    }
}
