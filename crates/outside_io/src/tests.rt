use crate::*;
use std::io::Write;
use std::test::Fail;
use std::{fs, io};

#[test]
fn a_shelf_in_memory_fails_at_its_calls_and_for_names_that_were_not_put(
    rt: HostRuntime,
) -> Result<(), Fail> {
    let alloc = rt.alloc();
    let mut shelf = MemoryShelf::new(alloc, vec![in alloc; 2]?);
    shelf.put("a", Vec::from_slice(alloc, b"zz")?)?;
    shelf.put("a", Vec::from_slice(alloc, b"abc")?)?;
    let rows: [(&str, u64, Result<&[u8], ShelfFault>); 5] = [
        ("a", 3, Ok(b"abc")),
        ("a", 3, Err(ShelfFault::Failed)),
        ("a", 2, Err(ShelfFault::TooLong { seen: 3 })),
        ("b", 3, Err(ShelfFault::Failed)),
        ("a", 4, Ok(b"abc")),
    ];
    for (name, limit, want) in rows {
        match shelf.read_whole(alloc, name, limit) {
            Ok(content) => assert_eq!(rt; Ok(content.as_slice()), want, "{name} up to {limit}"),
            Err(fault) => assert_eq!(rt; Err(fault), want, "{name} up to {limit}"),
        }
    }
    Ok(())
}

#[test]
fn a_sink_in_memory_takes_the_least_of_piece_and_room_and_its_share(
    rt: HostRuntime,
) -> Result<(), Fail> {
    let alloc = rt.alloc();
    let mut sink = MemorySink::new(alloc, 5, 3, vec![in alloc; 2]?)?;
    let rows: [(&[u8], Result<usize, SinkFailed>); 6] = [
        (b"abcd", Ok(3)),
        (b"d", Err(SinkFailed)),
        (b"defg", Ok(2)),
        (b"", Ok(0)),
        (b"f", Err(SinkFailed)),
        (b"", Ok(0)),
    ];
    for (piece, want) in rows {
        assert_eq!(rt; sink.write(piece), want, "{piece:?}");
    }
    assert_eq!(rt; sink.written(), b"abcde".as_slice());
    Ok(())
}

#[test]
fn all_is_written_in_pieces_until_a_call_fails(rt: HostRuntime) -> Result<(), Fail> {
    let alloc = rt.alloc();
    let bytes: Vec<u8> = vec![in alloc; 7; 65_537]?;
    for (fail_at, want, held) in [(2, Err(SinkFailed), 65_536), (3, Ok(()), 65_537)] {
        let mut sink = MemorySink::new(alloc, 100_000, usize::MAX, vec![in alloc; fail_at]?)?;
        assert_eq!(rt; write_all(&mut sink, bytes.as_slice()), want);
        assert_eq!(rt; sink.written().len(), held);
    }
    let mut short = MemorySink::new(alloc, 9, 2, Vec::new(alloc))?;
    assert_eq!(rt; write_all(&mut short, b"seven b"), Ok(()));
    assert_eq!(rt; short.written(), b"seven b".as_slice());
    Ok(())
}

#[test]
fn the_sure_forms_never_fail(rt: HostRuntime) -> Result<(), Fail> {
    let alloc = rt.alloc();
    let mut shelf = SureShelf::new(alloc);
    shelf.put("a", Vec::from_slice(alloc, b"abc")?)?;
    for (name, want) in [("a", b"abc".as_slice()), ("b", b"".as_slice())] {
        assert_eq!(rt; shelf.read_whole(alloc, name, 3)?.as_slice(), want);
    }
    assert_eq!(rt; SureSink.write(b"abc"), Ok(3));
    Ok(())
}

#[test]
fn files_are_read_up_to_the_limit(rt: HostRuntime) -> Result<(), Fail> {
    let alloc = rt.alloc();
    let mut shelf = FileShelf::new(&rt);
    fs::write(&rt, "held.txt", "abc")?;
    assert_eq!(rt;
        shelf.read_whole(alloc, "held.txt", 3)?.as_slice(),
        b"abc".as_slice()
    );
    let rows = [
        ("held.txt", ShelfFault::TooLong { seen: 3 }),
        ("missing.txt", ShelfFault::Failed),
    ];
    for (name, want) in rows {
        assert_eq!(rt;
            shelf.read_whole(alloc, name, 2).err(),
            Some(want),
            "{name}"
        );
    }
    fs::remove_file(&rt, "held.txt")?;
    Ok(())
}

/// A stream that takes so many bytes in a call, and flushes or not.
#[derive(Drop)]
struct Narrow {
    most: usize,
    flushes: bool,
}

impl Write for Narrow {
    fn write(&mut self, bytes: &[u8]) -> io::Result<usize> {
        Ok(bytes.len().min(self.most))
    }

    fn flush(&mut self) -> io::Result<()> {
        if self.flushes {
            Ok(())
        } else {
            Err(io::Error::from(io::ErrorKind::Other))
        }
    }
}

#[test]
fn a_stream_fails_where_it_takes_nothing_or_does_not_flush(rt: HostRuntime) {
    let rows: [(usize, bool, &[u8], Result<usize, SinkFailed>); 5] = [
        (9, true, b"abc", Ok(3)),
        (2, true, b"abc", Ok(2)),
        (0, true, b"abc", Err(SinkFailed)),
        (0, true, b"", Ok(0)),
        (9, false, b"abc", Err(SinkFailed)),
    ];
    for (most, flushes, piece, want) in rows {
        let mut sink = StreamSink::new(Narrow { most, flushes });
        assert_eq!(rt; sink.write(piece), want, "{most} {flushes} {piece:?}");
    }
    for stream in [
        StandardStream::Output(rt.stdout()),
        StandardStream::Error(rt.stderr()),
    ] {
        assert_eq!(rt; StreamSink::new(stream).write(b""), Ok(0));
    }
}
