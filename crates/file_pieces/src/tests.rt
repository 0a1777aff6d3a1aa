ghost use Rattle.std.specs.Prelude.{◌≡◌, ◌<◌, ◌^◌};

use super::*;
use memory_map::{MapFault, Perm, Segments};
use std::alloc::Global;
use std::test::Fail;

const FILE: &[u8; 14] = b"abcd\0puts\0x y\0";

// A piece with no byte of the file.
fn zeros(address: u64, size: u32) -> Piece
    requires { address < 2 ^ 63 }
    ensures file { result.file_size ≡ 0 }
    ensures address { result.address < 2 ^ 63 }
{
    Piece {
        address,
        offset: u32::MAX,
        file_size: 0,
        size,
        perm: Perm::READ,
    }
}

fn fault(alloc: Global, first: (u64, u32), second: (u64, u32)) -> Result<Option<MapFault>, Fail> {
    let mut pieces = Vec::new(alloc);
    pieces.push(zeros(first.0 % 0x2_0000_0000, first.1))?;
    pieces.push(zeros(second.0 % 0x2_0000_0000, second.1))?;
    Ok(map_pieces(alloc, FILE, pieces).err())
}

#[test]
fn layouts_are_refused_in_order_before_they_are_made(rt: HostRuntime) -> Result<(), Fail> {
    let alloc = rt.alloc();
    for (first, second, want) in [
        ((0x1000, 2), (0x1002, 2), None),
        ((0x1000, 2), (0x1001, 2), Some(MapFault::Overlap)),
        ((0x0FFF, 2), (0x1000, 2), Some(MapFault::OutOfRange)),
        ((0xEFFF_FFFF, 1), (0x1000, 1), None),
        ((0xEFFF_FFFF, 2), (0x1000, 1), Some(MapFault::OutOfRange)),
        ((0x1_0000_1000, 1), (0x1000, 1), Some(MapFault::OutOfRange)),
        ((0x1000, u32::MAX), (0x1000, 1), Some(MapFault::OutOfRange)),
        ((0x1000, 0xE000_0000), (0x2000, 1), Some(MapFault::Overlap)),
        ((0x1000, 0xE000_0000), (0x100, 0), Some(MapFault::TooLarge)),
        (
            (0x1000, 67_108_864),
            (0xE000_0000, 1),
            Some(MapFault::TooLarge),
        ),
        ((0, 0), (0x1000, 1), None),
    ] {
        assert_eq!(rt; fault(alloc, first, second)?, want, "{first:?}, {second:?}");
    }
    Ok(())
}

// "abcd", 0, "puts", 0, "x y", 0 and two zeros from 00002000 on.
fn sample(alloc: Global) -> Result<Segments, Fail> {
    let mut pieces = Vec::new(alloc);
    pieces.push(Piece {
        address: 0x2000,
        offset: 0,
        file_size: 14,
        size: 16,
        perm: Perm::new(true, false),
    })?;
    pieces.push(zeros(0x3000, 1))?;
    match map_pieces(alloc, FILE, pieces) {
        Ok(segments) => Ok(segments),
        Err(_) => Err(Fail::from("refused")),
    }
}

#[test]
fn pieces_are_file_bytes_and_zeros(rt: HostRuntime) -> Result<(), Fail> {
    let segments = sample(rt.alloc())?;
    assert_eq!(rt; segments.as_slice().len(), 2);
    for (a, n, want) in [
        (0x2000, 4, Some(b"abcd".as_slice())),
        (0x200C, 4, Some(b"y\0\0\0")),
        (0x200C, 5, None),
        (0x1FFF, 2, None),
        (0x1FFF, 0, Some(b"")),
        (0x3000, 1, Some(b"\0")),
        (0xFFFF_FFFF, 2, None),
    ] {
        assert!(rt; bytes_at(&segments, a, n) == want, "{n} at {a}");
        assert_eq!(rt; is_in_one(&segments, a, n), want.is_some(), "{n} at {a}");
    }
    assert!(rt; segments.allows(0x2000, 16, Perm::new(true, false)));
    assert!(rt; !segments.allows(0x3000, 1, Perm::new(true, false)));
    Ok(())
}

#[test]
fn names_end_by_0_within_a_bound(rt: HostRuntime) -> Result<(), Fail> {
    let segments = sample(rt.alloc())?;
    for (a, most, want) in [
        (0x2005, 5, Some(b"puts".as_slice())),
        (0x2005, u64::MAX, Some(b"puts")),
        (0x2005, 4, None),
        (0x2004, 9, None),
        (0x200A, 9, None),
        (0x1FFF, 9, None),
    ] {
        assert!(rt; name_from(&segments, a, most) == want, "{most} at {a}");
    }
    Ok(())
}

#[test]
fn file_ranges_may_touch_the_end(rt: HostRuntime) -> Result<(), Fail> {
    assert!(rt; !passes_end(FILE, 13, 1));
    assert!(rt; passes_end(FILE, 13, 2));
    assert!(rt; passes_end(FILE, 0xFFFF_FFFF, 1));
    assert!(rt; !passes_end(FILE, 0xFFFF_FFFF, 0));
    Ok(())
}

#[test]
fn names_keep_their_first_index(rt: HostRuntime) -> Result<(), Fail> {
    let alloc = rt.alloc();
    let mut seen = SeenNames::new(alloc);
    assert_eq!(rt; seen.index_of(alloc, b"puts").ok(), Some(0));
    assert_eq!(rt; seen.index_of(alloc, b"exit").ok(), Some(1));
    assert_eq!(rt; seen.index_of(alloc, b"puts").ok(), Some(0));
    let names = seen.into_names(alloc)?;
    assert_eq!(rt; names.len(), 2);
    assert_eq!(rt; names.as_slice()[1].as_slice(), b"exit".as_slice());
    Ok(())
}
