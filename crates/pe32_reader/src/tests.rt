use super::*;
use demo_images::form_p;
use memory_map::Perm;
use std::alloc::Global;
use std::test::Fail;

const CODE: [u8; 9] = [0x6A, 0x00, 0xFF, 0x15, 0x34, 0x20, 0x40, 0x00, 0xCC];

// Places of the worked file: NumberOfSections, the section headers, and fields of these.
const SECTIONS: usize = 70;

const TEXT: usize = 200;

const IDATA: usize = 240;

const VIRTUAL_SIZE: usize = 8;

const RAW_SIZE: usize = 16;

const RAW_PLACE: usize = 20;

// Bytes put at places of the worked file, and the fault that it then has, or that it is read.
// The headers' fields stand there at: e_lfanew 60, the signature 64, Machine 68, NumberOfSections 70, SizeOfOptionalHeader 84, Magic 88, ImageBase 116, SizeOfHeaders 148, NumberOfRvaAndSizes 180, the import table's address 192.
// The section headers of `.text` and `.idata` begin at 200 and 240: VirtualSize 208 and 248, VirtualAddress 212 and 252, SizeOfRawData 216 and 256, PointerToRawData 220 and 260.
// The code is at 280. `.idata`, RVA 2000, is at 289: the descriptor's name list there, its Name at 301, its FirstThunk at 305, a zero descriptor at 309, the thunk words at 329, the library's name at 353, the import's name at 361.
const DAMAGED: &str = "\
|read
0 4E|Magic
1 7A|Magic
0 5A 4D; 60 FF FF FF FF|Magic
# the signature: past the end by one byte, up to the end, another
60 FF FF FF FF|Signature
60 5E 01; 350 50 45 00 00|Signature
60 5D 01; 349 50 45 00 00|Machine
64 50 45 00 01|Signature
64 4E 45; 68 00|Signature
68 4D|Machine
68 64 86|Machine
68 00; 88 00|Machine
# the optional header: 95 and 96 bytes, up to the end, past it by one byte, of PE32+
84 5F|Optional
84 60|RawOutside
84 1D 01|Sections
84 1E 01|Optional
88 0B 02|Optional
88 0B 02; 70 00|Optional
# sections: none, a table inside the file, past its end
70 00|Sections
70 03|Overlap
70 04|RawOutside
70 05|Sections
70 61|Sections
70 00; 260 FF|Sections
# file bytes: those that are used count
248 55; 256 55|RawOutside
256 55|read
256 FF FF FF FF|read
248 00|read
248 00; 256 55|RawOutside
260 22|RawOutside
260 FF FF FF FF|RawOutside
216 00; 220 FF FF FF FF|read
260 22; 116 00 00 00 00|RawOutside
# addresses: below 4096 and from there on, up to F0000000 and past it, past 2^32
116 00 00 00 00|Address
116 00 00 00 00; 148 00 00|read
116 FF 0F 00 00|Address
116 00 10 00 00|read
116 00 F0 FF EF|Address
116 AC DF FF EF|read
116 AD DF FF EF|Address
212 00 F0 FF FF|Address
208 FF FF FF FF|Address
116 00 00 00 00; 212 00 00|Address
# overlaps: the headers' last byte and the address after it, a section's
212 00 00|Overlap
212 17 01|Overlap
212 18 01|read
148 FF FF FF FF|read
148 00 00|read
252 08 10|Overlap
252 09 10|Imports
208 01 00 00 04|Overlap
# mapped bytes: one more than 67,108,864
208 95 FE FF 03 00 00 01 00|TooLarge
208 95 FE FF 03 00 00 01 00; 305 00 00|TooLarge
# the import directory: there or not, in one segment or not
180 01; 289 FF FF FF FF|read
192 00 00; 289 FF FF FF FF|read
192 40 20|Name
192 41 20|Imports
192 54 20|Imports
192 FF FF FF FF|Imports
309 28 20 00 00 00 00 00 00 00 00 00 00 40 20 00 00 34 20 00 00|Name
317 01|Imports
# the name list and the slots
289 00 00 00 00|read
289 04 00|read
289 FF FF FF FF|Imports
289 50|Name
289 51|Imports
305 00 00|Imports
305 04 00|read
305 28|read
305 FF FF FF FF|Imports
305 4C|read
305 50|Imports
305 50; 333 00 00 00 00|read
305 51; 333 00 00 00 00|Imports
305 FF FF FF FF; 361 00|Name
305 FF FF FF FF; 329 00 00 00 00|read
# a library's name: unmapped, empty, with other bytes; before FirstThunk and the words
301 54 20|Name
301 FF FF FF FF|Name
301 45|Name
301 44|read
353 20|Name
353 7F|Name
353 7E|read
301 54 20; 305 00 00|Name
301 54 20; 289 FF FF FF FF|Name
305 00 00; 361 00|Imports
# an import's name: unmapped, empty, not ended in its segment, ended by the zeros after its file bytes
329 52 20|Name
329 FF FF FF 7F|Name
361 00|Name
361 80|Name
372 78|Name
372 78; 248 55|read
333 FF FF FF FF|read
280 61 62 00; 329 FE 0F|read
280 61 62 63 64 65 66 67 68 69; 329 FE 0F|Name
289 08 10; 288 01|Imports
";

fn put(file: &mut [u8], at: usize, bytes: &[u8]) {
    for (place, b) in file.iter_mut().skip(at).zip(bytes.iter()) {
        *place = *b;
    }
}

fn outcome(alloc: Global, file: &[u8]) -> Option<PeFault> {
    read_pe(alloc, file).err()
}

#[test]
fn the_worked_file_is_laid_out(rt: HostRuntime) -> Result<(), Fail> {
    let alloc = rt.alloc();
    let file = form_p(alloc, &CODE)?;
    assert_eq!(rt; file.len(), 373);
    let headers = file.get(..280).ok_or("too short")?;
    let mut data = file[289..].to_vec(alloc)?;
    put(&mut data, 0x34, &[0x10, 0, 0, 0xF0, 0x20, 0, 0, 0xF0]);
    let Ok(image) = read_pe(alloc, &file) else {
        return Err(Fail::from("refused"));
    };
    assert_eq!(rt; image.base, 0x0040_0000);
    assert_eq!(rt; image.entry, 0x0040_1000);
    let segments = image.segments.as_slice();
    assert_eq!(rt; segments.len(), 3);
    for (segment, (low, bytes, perm)) in segments.iter().zip([
        (0x0040_0000, headers, Perm::new(false, false)),
        (0x0040_1000, CODE.as_slice(), Perm::new(false, true)),
        (0x0040_2000, data.as_slice(), Perm::new(true, false)),
    ]) {
        assert_eq!(rt; segment.low, low);
        assert_eq!(rt; segment.bytes.as_slice(), bytes);
        assert!(rt; segment.perm == perm);
    }
    let names = image.names.as_slice();
    assert_eq!(rt; names.len(), 2);
    for (name, want) in names.iter().zip([b"ExitProcess".as_slice(), b"k.dll#7"]) {
        assert_eq!(rt; name.as_slice(), want);
    }
    Ok(())
}

#[test]
fn fronts_are_refused(rt: HostRuntime) -> Result<(), Fail> {
    let file = form_p(rt.alloc(), &CODE)?;
    for n in 0..file.len() {
        let want = match n {
            0..64 => PeFault::Short,
            64..88 => PeFault::Signature,
            88..200 => PeFault::Optional,
            200..280 => PeFault::Sections,
            _ => PeFault::RawOutside,
        };
        assert_eq!(rt; outcome(rt.alloc(), &file[..n]), Some(want), "{n} bytes");
    }
    Ok(())
}

fn fault_named(name: &str) -> Option<PeFault> {
    match name {
        "Magic" => Some(PeFault::Magic),
        "Signature" => Some(PeFault::Signature),
        "Machine" => Some(PeFault::Machine),
        "Optional" => Some(PeFault::Optional),
        "Sections" => Some(PeFault::Sections),
        "RawOutside" => Some(PeFault::RawOutside),
        "Address" => Some(PeFault::Address),
        "Overlap" => Some(PeFault::Overlap),
        "TooLarge" => Some(PeFault::TooLarge),
        "Imports" => Some(PeFault::Imports),
        "Name" => Some(PeFault::Name),
        _ => None,
    }
}

// Puts each place's bytes into a file.
fn damage(alloc: Global, file: &mut [u8], places: &str) -> Result<(), Fail> {
    for place in places.split(';') {
        let mut words = place.split_whitespace();
        if let Some(at) = words.next() {
            let at = at.parse::<usize>()?;
            let mut bytes = Vec::new(alloc);
            for word in words {
                bytes.push(u8::from_str_radix(word, 16)?)?;
            }
            put(file, at, &bytes);
        }
    }
    Ok(())
}

#[test]
fn damaged_files_have_their_first_fault(rt: HostRuntime) -> Result<(), Fail> {
    let alloc = rt.alloc();
    for line in DAMAGED.lines() {
        if let Some((places, name)) = line.split_once('|') {
            let mut file = form_p(alloc, &CODE)?;
            damage(alloc, &mut file, places)?;
            assert_eq!(rt; outcome(alloc, &file), fault_named(name), "{line}");
        }
    }
    Ok(())
}

// The worked file with these bytes as its section at RVA 2000.
fn with_data(alloc: Global, data: &[u8]) -> Result<Vec<u8>, Fail> {
    let mut file = form_p(alloc, &CODE)?;
    let size = u32::try_from(data.len()).map_err(|_| Fail::from("too long"))?;
    let place = u32::try_from(file.len()).map_err(|_| Fail::from("too long"))?;
    put(&mut file, IDATA + VIRTUAL_SIZE, &size.to_le_bytes());
    put(&mut file, IDATA + RAW_SIZE, &size.to_le_bytes());
    put(&mut file, IDATA + RAW_PLACE, &place.to_le_bytes());
    file.extend_from_slice(data)?;
    Ok(file)
}

// One library: its descriptor and the end, its thunk words and 0 at RVA 2030, which are its slots too, and behind them its name of so many bytes.
fn one_library(alloc: Global, words: &[u32], name: usize) -> Result<Vec<u8>, Fail> {
    let place = u32::try_from(0x2034usize.saturating_add(words.len().saturating_mul(4))).map_err(
        |_| Fail::from("too long"),
    )?;
    let mut data = Vec::new(alloc);
    for word in [0x2030, 0, 0, place, 0x2030, 0, 0, 0, 0, 0, 0, 0u32] {
        data.extend_from_slice(&word.to_le_bytes())?;
    }
    for word in words {
        data.extend_from_slice(&word.to_le_bytes())?;
    }
    data.extend_from_slice(&[0; 4])?;
    for _ in 0..name {
        data.push(b'a')?;
    }
    data.push(0)?;
    with_data(alloc, &data)
}

#[test]
fn limits_are_kept(rt: HostRuntime) -> Result<(), Fail> {
    let alloc = rt.alloc();
    for (count, last, name, want) in [
        (0usize, 0x8000_0007u32, 4096, None),
        (0, 0x8000_0007, 4097, Some(PeFault::Name)),
        (1, 0x8000_0007, 4094, None),
        (1, 0x8000_0007, 4095, Some(PeFault::Name)),
        (1, 0x8001_FFFF, 4090, None),
        (1, 0x8001_FFFF, 4091, Some(PeFault::Name)),
        (65_535, 0x8000_0007, 1, None),
        (65_535, 0x7FFF_FFFF, 1, Some(PeFault::Name)),
        (65_536, 0x8000_0007, 1, Some(PeFault::ManyImports)),
        (65_536, 0x7FFF_FFFF, 1, Some(PeFault::ManyImports)),
    ] {
        let mut words = vec![in alloc; 0x8000_0007; count]?;
        if let Some(word) = words.last_mut() {
            *word = last;
        }
        let file = one_library(alloc, &words, name)?;
        assert_eq!(rt; outcome(alloc, &file), want, "{count} words, {name} bytes");
    }
    for (count, want) in [(b'\x60', None), (b'\x61', Some(PeFault::Sections))] {
        let mut file = form_p(alloc, &[0; 4000])?;
        put(&mut file, SECTIONS, &[count]);
        assert_eq!(rt; outcome(alloc, &file), want, "{count} sections");
    }
    let mut file = form_p(alloc, &CODE)?;
    put(
        &mut file,
        TEXT + VIRTUAL_SIZE,
        b"\x94\xFE\xFF\x03\0\0\x01\0",
    );
    assert_eq!(rt; outcome(alloc, &file), None);
    Ok(())
}

#[test]
fn libraries_share_the_place_of_a_name(rt: HostRuntime) -> Result<(), Fail> {
    let alloc = rt.alloc();
    let mut data = Vec::new(alloc);
    for word in [
        0x203C,
        0,
        0,
        0x2060,
        0x2048,
        0x203C,
        0,
        0,
        0x2066,
        0x2054,
        0,
        0,
        0,
        0,
        0,
        0x206C,
        0x8001_0007,
        0,
        0,
        0,
        0,
        0,
        0,
        0u32,
    ] {
        data.extend_from_slice(&word.to_le_bytes())?;
    }
    data.extend_from_slice(b"a.dll\0b.dll\0\0\0f\0")?;
    let Ok(image) = read_pe(alloc, &with_data(alloc, &data)?) else {
        return Err(Fail::from("refused"));
    };
    put(&mut data, 0x48, &[0x10, 0, 0, 0xF0, 0x20, 0, 0, 0xF0]);
    put(&mut data, 0x54, &[0x10, 0, 0, 0xF0, 0x30, 0, 0, 0xF0]);
    let segments = image.segments.as_slice();
    assert_eq!(rt; segments.len(), 3);
    assert_eq!(rt; segments[2].bytes.as_slice(), data.as_slice());
    let names = image.names.as_slice();
    assert_eq!(rt; names.len(), 3);
    for (name, want) in names.iter().zip([b"f".as_slice(), b"a.dll#7", b"b.dll#7"]) {
        assert_eq!(rt; name.as_slice(), want);
    }
    Ok(())
}
