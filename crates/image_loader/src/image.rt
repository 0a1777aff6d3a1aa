ghost use Rattle.std.specs.Prelude.{◌≡◌, IfSome, IsTrue, length, map, option_copied};
ghost use Rattle.std.specs.List.{list_all};
ghost use Rattle.std.specs.Option.{SomeIff};
ghost use Rattle.memory_map.specs.Name.{is_name};
ghost use Rattle.memory_map.specs.Range.{code_run};
ghost use Rattle.memory_map.specs.Image.{is_mapped, name_at, IsLoaded};
ghost use Rattle.memory_map.specs.Map.{range_of};
ghost use Rattle.image_loader.specs.Shown.{shown_of};

use arrayvec::ArrayVec;
use memory_map::{
    Format, ImportName, Items, MOST_NAMES, Ranges, Segments, Span, USER_END, is_alignment,
};
use std::marker::Model;

/// An image as it is loaded: its segments, the bytes of these that are anything at the start, its entry, its format, the
/// names that it imports in the order of their places, and the number of which the stack pointer is a multiple at the start.
/// Each unset byte is one of a segment's, there are at most 65,535 names, and the alignment is a power of two from 4 to 4,096.
#[derive(Drop)]
pub struct Image {
    segments: Segments,
    unset: Ranges,
    entry: u32,
    format: Format,
    names: Items<ImportName>,
    align: u32,
}

impl Model for Image {
    ghost use Rattle.memory_map.specs.Image.{Image as LoadedImage};

    ghost Value = { LoadedImage };

    ghost use Rattle.image_loader.specs.Loaded.{shown, IsKept};

    ghost view = { shown };

    ghost invariant = { IsKept };
}

fn is_mapped(segments: &Segments, s: &Span) -> bool
    ensures { result ≡ is_mapped (map range_of segments.now) s.now }
{
    segments.maps_all(u64::from(s.low), u64::from(s.size))
}

fn are_mapped(segments: &Segments, unset: &Ranges) -> bool
    ensures { result ≡ list_all (is_mapped (map range_of segments.now)) unset.now }
{
    unset.as_slice().iter().all(|s| is_mapped(segments, s))
}

impl Image {
    /// The image of these parts; None exactly where an unset byte is none of a segment's, there are more than 65,535 names,
    /// or the alignment is no power of two from 4 to 4,096. Takes no memory.
    pub fn new(
        segments: Segments,
        unset: Ranges,
        entry: u32,
        format: Format,
        names: Items<ImportName>,
        align: u32,
    ) -> Option<Image>
        ensures { SomeIff result (IsLoaded (shown_of segments unset entry format names align)) (shown_of segments unset entry format names align) }
    {
        if !are_mapped(&segments, &unset) {
            return None;
        }
        if names.len() > MOST_NAMES || !is_alignment(u64::from(align)) {
            return None;
        }
        Some(Image {
            segments,
            unset,
            entry,
            format,
            names,
            align,
        })
    }

    /// What is mapped.
    pub fn segments(&self) -> &Segments
        ensures segments { map range_of result.now ≡ self.now.segments }
        ensures loaded { IsLoaded self.now }
    {
        &self.segments
    }

    /// The ranges whose bytes are anything at the start.
    pub fn unset(&self) -> &Ranges
        ensures { result.now ≡ self.now.unset }
    {
        &self.unset
    }

    /// The address of the first instruction.
    pub fn entry(&self) -> u32
        ensures entry { result ≡ self.now.entry }
        ensures loaded { IsLoaded self.now }
    {
        self.entry
    }

    /// The format of its file.
    pub fn format(&self) -> Format
        ensures { result ≡ self.now.format }
    {
        self.format
    }

    /// The imported names, in the order of their places.
    pub fn names(&self) -> &[ImportName]
        ensures { result.now ≡ self.now.names }
    {
        self.names.as_slice()
    }

    /// The number of which the stack pointer is a multiple at the start.
    pub fn align(&self) -> u32
        ensures align { result ≡ self.now.align }
        ensures loaded { IsLoaded self.now }
    {
        self.align
    }

    /// The executable bytes from an address on, at most 15.
    pub fn fetch(&self, a: u32) -> ArrayVec<u8, 15>
        ensures { result.items ≡ code_run self.now.segments a }
    {
        self.segments.fetch(a)
    }

    /// The imported name whose place an address is: places stand 16 bytes apart, the first one 16 bytes after the exit place.
    pub fn name_at(&self, place: u32) -> Option<&[u8]>
        ensures found { option_copied result ≡ name_at self.now place }
        ensures name { IfSome result (λ n. IsTrue (is_name n.now)) }
    {
        if place < USER_END + 16 {
            return None;
        }
        if (place - USER_END) % 16 != 0 {
            return None;
        }
        match self
            .names
            .as_slice()
            .get(((place - USER_END) / 16 - 1) as usize)
        {
            Some(import) => Some(import.name.as_slice()),
            None => None,
        }
    }
}
