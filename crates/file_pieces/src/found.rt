ghost use Rattle.std.specs.Prelude.{◌≡◌, ◌+◌, ◌<◌, ◌^◌, length, map, find, is_some, option_copied, take, drop, ◌-◌, nat_le, ◌&&◌, IfSome, IsTrue};
ghost use Rattle.std.specs.Option.{option_map};
ghost use Rattle.memory_map.specs.Map.{range_of};
ghost use Rattle.memory_map.specs.Name.{is_name};
ghost use Rattle.memory_map.specs.Range.{holds};
ghost use Rattle.file_pieces.specs.Found.{bytes_at, is_in_one, name_from, passes_end, rest_at, text_of, IsHeld};

use memory_map::{LONGEST_NAME, Segment, Segments, is_name};

/// Whether a range of file bytes is not empty and passes the file's end.
pub fn passes_end(file: &[u8], offset: u64, size: u64) -> bool
    requires { offset + size < 2 ^ 64 }
    ensures { result ≡ passes_end (length file.now) offset size }
{
    size != 0 && offset + size > file.len() as u64
}

fn holds(segment: &Segment, a: u64, n: u64) -> bool
    requires { a + n < 2 ^ 64 }
    ensures { result ≡ holds a n (range_of segment.now) }
{
    u64::from(segment.low) <= a && a + n <= segment.end()
}

// The first segment that has all of `n` addresses from one on.
fn segment_with(list: &[Segment], a: u64, n: u64) -> Option<&Segment>
    requires { a + n < 2 ^ 64 }
    ensures { option_map range_of (option_copied result) ≡ find (holds a n) (map range_of list.now) }
{
    let mut left = list;
    while let Some((first, rest)) = left.split_first() {
        if holds(first, a, n) {
            return Some(first);
        }
        left = rest;
    }
    None
}

// The bytes from one of its addresses on.
fn rest_of(segment: &Segment, a: u64) -> &[u8]
    requires { IsHeld a 1 (range_of segment.now) }
    ensures { result.now ≡ drop (a - segment.now.low) segment.now.bytes }
{
    &segment.bytes.as_slice()[(a - u64::from(segment.low)) as usize..]
}

// The bytes at `n` of its addresses.
fn part_of(segment: &Segment, a: u64, n: u64) -> &[u8]
    requires { IsHeld a n (range_of segment.now) }
    ensures { result.now ≡ take n (drop (a - segment.now.low) segment.now.bytes) }
{
    let from = (a - u64::from(segment.low)) as usize;
    &segment.bytes.as_slice()[from..from + n as usize]
}

/// Whether `n` addresses from one on are all in one segment; none at all are.
pub fn is_in_one(segments: &Segments, a: u64, n: u64) -> bool
    requires { a + n < 2 ^ 64 }
    ensures { result ≡ is_in_one (map range_of segments.now) a n }
{
    n == 0 || segment_with(segments.as_slice(), a, n).is_some()
}

/// The bytes at `n` addresses from one on, where all are in one segment.
pub fn bytes_at(segments: &Segments, a: u64, n: u64) -> Option<&[u8]>
    requires { a + n < 2 ^ 64 }
    ensures { option_copied result ≡ bytes_at (map range_of segments.now) a n }
{
    if n == 0 {
        return Some(&[]);
    }
    match segment_with(segments.as_slice(), a, n) {
        Some(segment) => Some(part_of(segment, a, n)),
        None => None,
    }
}

// The bytes from an address to the end of its segment.
fn rest_at(segments: &Segments, a: u64) -> &[u8]
    requires { a + 1 < 2 ^ 64 }
    ensures { result.now ≡ rest_at (map range_of segments.now) a }
{
    match segment_with(segments.as_slice(), a, 1) {
        Some(segment) => rest_of(segment, a),
        None => &[],
    }
}

fn text_of(bytes: &[u8]) -> Option<&[u8]>
    ensures { option_copied result ≡ text_of bytes.now }
{
    for (i, b) in bytes.iter().enumerate() {
        if *b == 0 {
            return Some(&bytes[..i]);
        }
    }
    None
}

fn front(bytes: &[u8], most: usize) -> &[u8]
    ensures { result.now ≡ take most bytes.now }
{
    &bytes[..bytes.len().min(most)]
}

/// The name of an import that begins at an address, where a 0 ends it within `most` bytes and within one segment.
/// A byte after the longest name is not looked at.
pub fn name_from(segments: &Segments, a: u64, most: u64) -> Option<&[u8]>
    requires { a + 1 < 2 ^ 64 }
    ensures exact { option_copied result ≡ name_from (map range_of segments.now) a most }
    ensures name { IfSome result (λ name. IsTrue (is_name name.now)) }
{
    let bound = most.min(LONGEST_NAME as u64 + 1);
    match text_of(front(rest_at(segments, a), bound as usize)) {
        Some(name) => { if is_name(name) { Some(name) } else { None } }
        None => None,
    }
}
