use crate::*;
use std::alloc::Global;
use std::test::Fail;

// Reads at most two lines of more than one byte, and then one of one byte, which ends the text.
#[derive(Drop)]
struct Counter {
    seen: u8,
    ended: bool,
}

impl LineReader for Counter {
    ghost use Rattle.std.specs.Prelude.{◌+◌, ◌==◌, nat_lt, length, true, Ok, Err, if◌then◌else◌};

    ghost grammar = { record {
      step = λ s line. if length line == 0 then Err 2 else (if length line == 1 then Ok (record s { ended = true }) else (if nat_lt s.seen 2 then Ok (record s { seen = s.seen + 1 }) else Err 4));
      is_ended = λ s. s.ended;
    } };

    fn read_line(&mut self, _alloc: Global, line: &[u8]) -> Result<(), LineRefusal> {
        match line.len() {
            0 => return Err(LineRefusal::Kind(2)),
            1 => self.ended = true,
            _ if self.seen < 2 => self.seen += 1,
            _ => return Err(LineRefusal::Kind(4)),
        }
        Ok(())
    }

    fn is_ended(&self) -> bool {
        self.ended
    }
}

const TEXTS: [(&[u8], Result<u8, (u64, u8)>); 13] = [
    (b"", Err((1, 7))),
    (b"x", Err((1, 7))),
    (b"ab", Err((1, 7))),
    (b"ab\n", Err((2, 7))),
    (b"x\n", Ok(0)),
    (b"ab\nab\nx\n", Ok(2)),
    (b"\n", Err((1, 2))),
    (b"ab\n\nx", Err((2, 2))),
    (b"ab\nab\nab\nx\n", Err((3, 4))),
    (b"ab\nx\nab\n", Err((3, 7))),
    (b"x\n\n", Err((2, 7))),
    (b"x\n ", Err((2, 7))),
    (b"ab\nab\nab", Err((3, 7))),
];

#[test]
fn a_text_is_refused_at_its_first_bad_line(rt: HostRuntime) -> Result<(), Fail> {
    for (text, want) in TEXTS {
        let reader = Counter {
            seen: 0,
            ended: false,
        };
        let read = match read_lines(rt.alloc(), reader, text) {
            Ok(reader) => Ok(reader.seen),
            Err(TextFault::Line(fault)) => Err((fault.line, fault.kind)),
            Err(TextFault::Memory) => Err((0, 0)),
        };
        assert_eq!(rt; read, want, "{text:?}");
    }
    Ok(())
}

#[test]
fn lines_and_fields_are_split(rt: HostRuntime) {
    assert!(rt; split_line(b"ab\n\nc") == Some((b"ab", b"\nc")));
    assert!(rt; split_line(b"ab c").is_none());
    assert!(rt; split_field(b"ab  c") == Some((b"ab", b" c")));
    assert!(rt; split_field(b" ") == Some((b"", b"")));
    assert!(rt; split_field(b"").is_none());
}

#[test]
fn numbers_are_written_as_texts(rt: HostRuntime) -> Result<(), Fail> {
    let mut text = Vec::new(rt.alloc());
    for n in [0, 0x0804_8000, 0x89AB_CDEF, 0xF000_0000] {
        push_hex8(&mut text, n)?;
        push_bytes(&mut text, b" ")?;
    }
    push_hex2(&mut text, 0x0F)?;
    push_bytes(&mut text, b" ")?;
    push_hex_bytes(&mut text, &[0xEB, 0xFE, 0x0A])?;
    for n in [0, 10, 4_294_967_295, 18_446_744_073_709_551_615] {
        push_bytes(&mut text, b" ")?;
        push_decimal(&mut text, n)?;
    }
    let want =
        b"00000000 08048000 89ABCDEF F0000000 0F EBFE0A 0 10 4294967295 18446744073709551615";
    assert_eq!(rt; text.as_slice(), want.as_slice());
    Ok(())
}

#[test]
fn numbers_are_read_from_texts(rt: HostRuntime) -> Result<(), Fail> {
    let words: [(&[u8], Option<u32>, Option<u32>); 5] = [
        (b"089ABCDF", Some(0x089A_BCDF), Some(0x089A_BCDF)),
        (b"089abCDf", None, Some(0x089A_BCDF)),
        (b"89ABCDF", None, None),
        (b"089ABCDFF", None, None),
        (b"089ABCDG", None, None),
    ];
    for (text, upper, any_case) in words {
        assert_eq!(rt; parse_hex8(text), upper, "{text:?}");
        assert_eq!(rt; parse_hex8_any_case(text), any_case, "{text:?}");
    }
    assert_eq!(rt; parse_hex2(b"EB"), Some(0xEB));
    assert_eq!(rt; parse_hex2(b"eb"), None);
    let numbers: [(&[u8], Option<u32>, Option<u64>); 8] = [
        (b"0", Some(0), Some(0)),
        (b"10", Some(10), Some(10)),
        (b"0000000032", Some(32), None),
        (b"00000000032", None, None),
        (b"4294967295", Some(4_294_967_295), Some(4_294_967_295)),
        (b"4294967296", None, Some(4_294_967_296)),
        (b"+1", None, None),
        (b"", None, None),
    ];
    for (text, number, decimal) in numbers {
        assert_eq!(rt; parse_number(text), number, "{text:?}");
        assert_eq!(rt; parse_decimal(text), decimal, "{text:?}");
    }
    assert_eq!(rt; decimal_is(b"10", 10), Some(true));
    assert_eq!(rt; decimal_is(b"99999999999999999999999", 10), Some(false));
    assert_eq!(rt; decimal_is(b"010", 10), None);
    assert_eq!(rt; decimal_is(b"1O", 1), None);
    let bytes = parse_hex_bytes(rt.alloc(), b"EBFE0A")?.ok_or("no bytes")?;
    assert_eq!(rt; bytes.as_slice(), [0xEB, 0xFE, 0x0A].as_slice());
    assert!(rt; parse_hex_bytes(rt.alloc(), b"EBF")?.is_none());
    Ok(())
}
