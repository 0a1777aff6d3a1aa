use super::*;
use bitflags::Flags;
use std::alloc::{AllocError, Global};
use std::test::Fail;

fn segment(alloc: Global, low: u32, size: usize, perm: Perm) -> Result<Segment, AllocError> {
    let mut held = Vec::with_capacity(alloc, size)?;
    for i in 0..size {
        held.push((i % 256) as u8)?;
    }
    Ok(Segment {
        low,
        bytes: Bytes::from_vec(held),
        perm,
    })
}

fn map(alloc: Global, ranges: &[(u32, usize)]) -> Result<Option<MapFault>, AllocError> {
    let mut list = Vec::new(alloc);
    for (low, size) in ranges.iter().copied() {
        list.push(Segment {
            low,
            bytes: Bytes::from_vec(vec![in alloc; 0; size]?),
            perm: Perm::READ,
        })?;
    }
    Ok(Segments::new(list).err())
}

#[test]
fn segments_are_refused_in_order(rt: HostRuntime) -> Result<(), Fail> {
    let alloc = rt.alloc();
    assert_eq!(rt;
        map(alloc, &[(0x1000, 2), (0x1001, 2)])?,
        Some(MapFault::Overlap)
    );
    assert_eq!(rt;
        map(alloc, &[(0x1001, 2), (0x1000, 2)])?,
        Some(MapFault::Overlap)
    );
    assert_eq!(rt;
        map(alloc, &[(0x1000, 8), (0x2000, 1), (0x1002, 1)])?,
        Some(MapFault::Overlap)
    );
    assert_eq!(rt; map(alloc, &[(0x1000, 2), (0x1002, 2)])?, None);
    assert_eq!(rt; map(alloc, &[(0x0FFF, 1)])?, Some(MapFault::OutOfRange));
    assert_eq!(rt;
        map(alloc, &[(0x1000, 2), (0x0FFF, 2)])?,
        Some(MapFault::OutOfRange)
    );
    assert_eq!(rt;
        map(alloc, &[(0xEFFF_FFFF, 2)])?,
        Some(MapFault::OutOfRange)
    );
    assert_eq!(rt;
        map(alloc, &[(0xFFFF_FFFF, 2)])?,
        Some(MapFault::OutOfRange)
    );
    assert_eq!(rt; map(alloc, &[(0xEFFF_FFFF, 1)])?, None);
    assert_eq!(rt; map(alloc, &[(0x1000, 2), (0x1001, 0), (0, 0)])?, None);
    assert_eq!(rt; map(alloc, &[(0x1000, 67_108_864)])?, None);
    assert_eq!(rt;
        map(alloc, &[(0x1000, 67_108_864), (0xE000_0000, 1)])?,
        Some(MapFault::TooLarge)
    );
    Ok(())
}

// 16 bytes 00 to 0F that may be executed, 8 bytes 00 to 07 right after them that may be written, and two at the highest place.
fn sample(alloc: Global) -> Result<Segments, Fail> {
    let mut list = Vec::new(alloc);
    list.push(segment(alloc, 0x2000, 16, Perm::new(false, true))?)?;
    list.push(segment(alloc, 0x3000, 0, Perm::READ)?)?;
    list.push(segment(alloc, 0x2010, 8, Perm::new(true, false))?)?;
    list.push(segment(alloc, 0xEFFF_FFFE, 2, Perm::new(false, true))?)?;
    match Segments::new(list) {
        Ok(segments) => Ok(segments),
        Err(_) => Err(Fail::from("refused")),
    }
}

#[test]
fn look_ups_go_by_segments(rt: HostRuntime) -> Result<(), Fail> {
    let segments = sample(rt.alloc())?;
    assert_eq!(rt; segments.as_slice().len(), 3);
    for (a, want) in [
        (0x1FFF, None),
        (0x2000, Some(0)),
        (0x200F, Some(15)),
        (0x2010, Some(0)),
        (0x2017, Some(7)),
        (0x2018, None),
        (0xEFFF_FFFF, Some(1)),
        (0xF000_0000, None),
    ] {
        assert_eq!(rt; segments.byte_at(a), want, "at {a}");
    }
    assert_eq!(rt;
        segments.fetch(0x2000).as_slice(),
        [0, 1, 2, 3, 4, 5, 6, 7, 8, 9, 10, 11, 12, 13, 14].as_slice()
    );
    assert_eq!(rt; segments.fetch(0x200E).as_slice(), [14, 15].as_slice());
    assert_eq!(rt; segments.fetch(0xEFFF_FFFF).as_slice(), [1].as_slice());
    assert!(rt; segments.fetch(0x2010).is_empty());
    assert!(rt; segments.fetch(0xFFFF_FFFF).is_empty());
    for (a, n, write, execute, want) in [
        (0x2000, 24, false, false, true),
        (0x2000, 25, false, false, false),
        (0x2000, 16, false, true, true),
        (0x2000, 17, false, true, false),
        (0x200F, 2, true, false, false),
        (0x2010, 8, true, false, true),
        (0x2010, 8, true, true, false),
        (0x1FFF, 2, false, false, false),
        (0xEFFF_FFFE, 2, false, true, true),
        (0xEFFF_FFFE, 3, false, true, false),
        (0xFFFF_FFFF, 2, false, false, false),
        (0xFFFF_FFFF, 0, true, true, true),
    ] {
        assert_eq!(rt;
            segments.allows(a, n, Perm::new(write, execute)),
            want,
            "{n} at {a}"
        );
    }
    Ok(())
}

#[test]
fn ranges_are_asked_for_by_segments(rt: HostRuntime) -> Result<(), Fail> {
    let alloc = rt.alloc();
    let mut list = Vec::new(alloc);
    list.push(segment(alloc, 0x2010, 8, Perm::new(true, false))?)?;
    list.push(segment(alloc, 0x2020, 16, Perm::new(true, true))?)?;
    list.push(segment(alloc, 0x2000, 16, Perm::new(false, true))?)?;
    list.push(segment(alloc, 0x2018, 4, Perm::new(true, false))?)?;
    let segments = match Segments::new(list) {
        Ok(segments) => segments,
        Err(_) => return Err(Fail::from("refused")),
    };
    for (a, n, mapped, each, some) in [
        (0x2000, 0x1C, true, false, true),
        (0x2000, 16, true, false, false),
        (0x2010, 12, true, true, true),
        (0x2010, 13, false, false, true),
        (0x1FFF, 0x11, false, false, false),
        (0x201C, 4, false, false, false),
        (0x3000, 0, true, true, false),
    ] {
        assert_eq!(rt; segments.maps_all(a, n), mapped, "{n} at {a}");
        assert_eq!(rt; segments.may_write_each(a, n), each, "{n} at {a}");
        assert_eq!(rt; segments.may_write_any(a, n), some, "{n} at {a}");
    }
    let low = Span {
        low: 0x2010,
        size: 12,
    };
    let high = Span {
        low: 0x2020,
        size: 5,
    };
    let runs = segments.writable_runs(alloc, 0, 0x2025)?;
    assert_eq!(rt; runs.as_slice(), [low, high].as_slice());
    assert_eq!(rt;
        segments
            .writable_runs(alloc, 0x2028, 0x1_0000_0000)?
            .as_slice()
            .len(),
        1
    );
    assert_eq!(rt; segments.into_vec().len(), 4);
    Ok(())
}

#[test]
fn names_are_printable(rt: HostRuntime) -> Result<(), Fail> {
    let alloc = rt.alloc();
    for (text, want) in [
        (b"malloc".as_slice(), true),
        (b"!~", true),
        (b"", false),
        (b"a b", false),
        (b"\x7F", false),
    ] {
        let name = Name::new(text.to_vec(alloc)?);
        assert_eq!(rt; name.is_some(), want);
        if let Some(name) = name {
            assert_eq!(rt; name.as_slice(), text);
        }
    }
    assert!(rt; Name::new(vec![in alloc; b'x'; 4096]?).is_some());
    assert!(rt; Name::new(vec![in alloc; b'x'; 4097]?).is_none());
    Ok(())
}

#[test]
fn small_types_give_back_what_they_hold(rt: HostRuntime) -> Result<(), Fail> {
    let alloc = rt.alloc();
    let bytes = Bytes::from_vec([7, 8].to_vec(alloc)?);
    assert_eq!(rt; bytes.len(), 2);
    assert!(rt; !bytes.is_empty());
    assert_eq!(rt; bytes.into_vec().as_slice(), [7, 8].as_slice());
    let items: Items<u32> = Items::from_vec([3, 1].to_vec(alloc)?);
    assert_eq!(rt; items.len(), 2);
    assert_eq!(rt; items.as_slice(), [3, 1].as_slice());
    assert_eq!(rt; items.into_vec().as_slice(), [3, 1].as_slice());
    for (n, want) in [
        (2, false),
        (4, true),
        (12, false),
        (4096, true),
        (8192, false),
    ] {
        assert_eq!(rt; is_alignment(n), want, "{n}");
    }
    assert_eq!(rt; half_at(&[1, 2, 3], 1), 0x0302);
    assert_eq!(rt; word_at(&[1, 2, 3, 0x84, 5], 0), 0x8403_0201);
    assert!(rt; Perm::new(true, true) == (Perm::READ | Perm::WRITE | Perm::EXECUTE));
    assert_eq!(rt; Perm::new(false, true).bits(), 5);
    Ok(())
}

#[test]
fn an_address_is_in_a_range_from_its_low_to_below_its_end(rt: HostRuntime) -> Result<(), Fail> {
    let alloc = rt.alloc();
    let high = Span {
        low: 0xFFFF_FFFE,
        size: 2,
    };
    let none = Span { low: 8, size: 0 };
    let ranges = Ranges::from_vec([Span { low: 4, size: 2 }, none, high].to_vec(alloc)?);
    for (a, want) in [
        (3, false),
        (4, true),
        (5, true),
        (6, false),
        (8, false),
        (0xFFFF_FFFD, false),
        (0xFFFF_FFFF, true),
        (0x1_0000_0000, false),
    ] {
        assert_eq!(rt; ranges.has(a), want, "at {a}");
    }
    assert_eq!(rt; ranges.into_vec().len(), 3);
    Ok(())
}

// One long range, and 30 below one another of 0 to 9 addresses.
fn many_ranges(alloc: Global) -> Result<Ranges, Fail> {
    let mut spans = Vec::new(alloc);
    spans.push(Span { low: 700, size: 55 })?;
    for i in 0..30u32 {
        spans.push(Span {
            low: 1000 - 10 * i,
            size: i % 10,
        })?;
    }
    Ok(Ranges::from_vec(spans))
}

#[test]
fn an_address_is_found_among_many_ranges(rt: HostRuntime) -> Result<(), Fail> {
    let ranges = many_ranges(rt.alloc())?;
    for (a, want) in [
        (699, false),
        (700, true),
        (739, true),
        (754, true),
        (755, false),
        (763, true),
        (764, false),
        (900, false),
        (918, true),
        (919, false),
        (990, true),
        (1000, false),
        (0x1_0000_0000, false),
    ] {
        assert_eq!(rt; ranges.has(a), want, "at {a}");
    }
    assert_eq!(rt; ranges.into_vec().len(), 31);
    Ok(())
}
