// Damaged images and texts, and an outside that fails, for each command.
use crate::calls::{
    Content, File, SURE, call, call_over, changed, check_ended, file_with, shelf_of,
};
use crate::run_tests::{CODE, OTHER_RECORD, RECORD, START, UNALIGNED_RECORD, UNALIGNED_START};
use crate::table_tests::{MISCOUNTED, NO_ROW, ONE_ROW};
use crate::tests::{OVERLAP, SELF_JUMP};
use crate::{Input, Status};
use demo_images::form_p;
use outside_io::{Shelf, ShelfFault};
use std::alloc::Global;
use std::process::Abort;
use std::test::Fail;
use std::thread::Threads;

// ---- damaged files

// The lengths to which a file is cut, the first and the last; a place in it and the bytes that stand there instead; and
// the number of the fault that it then has.
type Damage = (usize, usize, usize, &'static [u8], u32);

// A jump to itself, of 86 bytes. The fields of its header: e_phoff 28, e_phnum 44; and of its program header: p_offset 56,
// p_vaddr 60, p_filesz 68, p_memsz 72.
static ELF: [Damage; 15] = [
    (0, 3, 0, b"", 200),
    (4, 51, 0, b"", 1),
    (52, 83, 0, b"", 8),
    (84, 85, 0, b"", 9),
    (86, 86, 28, b"\xFF\xFF\xFF\xFF", 8),
    (86, 86, 44, b"\x40", 8),
    (86, 86, 44, b"\x41", 7),
    (86, 86, 56, b"\xFF\xFF\xFF\xFF", 9),
    (86, 86, 68, b"\xFF\xFF\xFF\xFF", 9),
    (86, 86, 72, b"\x01", 10),
    (86, 86, 60, b"\xFF\x0F\0\0", 11),
    (86, 86, 60, b"\xFF\xFF\xFF\xEF", 11),
    (86, 86, 60, b"\xFF\xFF\xFF\xFF", 11),
    (86, 86, 72, b"\xFF\xFF\xFF\xFF", 11),
    (86, 86, 72, b"\x01\0\0\x04", 13),
];

// The worked PE file, of 373 bytes. Its fields: e_lfanew 60, ImageBase 116; and those of its import descriptor:
// OriginalFirstThunk 289, Name 301, FirstThunk 305.
static PE: [Damage; 12] = [
    (0, 1, 0, b"", 200),
    (2, 63, 0, b"", 101),
    (64, 87, 0, b"", 103),
    (88, 199, 0, b"", 105),
    (200, 279, 0, b"", 106),
    (280, 372, 0, b"", 107),
    (373, 373, 60, b"\xFF\xFF\xFF\xFF", 103),
    (373, 373, 116, b"\0\0\0\0", 108),
    (373, 373, 116, b"\0\xF0\xFF\xEF", 108),
    (373, 373, 289, b"\xFF\xFF\xFF\xFF", 111),
    (373, 373, 305, b"\0\0\0\0", 111),
    (373, 373, 301, b"\x54\x20\0\0", 112),
];

// Recovers a file that is to be refused.
fn check_refused<R: Abort + Threads + Sync>(
    rt: &R,
    alloc: Global,
    file: &[u8],
    number: u32,
) -> Result<(), Fail> {
    let size = file.len();
    let ended = call_over(rt, alloc, &["recover", "i"], file, "")?;
    assert_eq!(rt; ended.status, Status::ImageRefused(number), "{size} bytes");
    assert!(rt; ended.out.written().is_empty(), "{size} bytes");
    let line = format!(in alloc; "jakstab: image refused {number}\n")?;
    assert_eq!(rt; ended.note.written(), line.as_bytes(), "{size} bytes");
    Ok(())
}

fn check_damage<R: Abort + Threads + Sync>(
    rt: &R,
    alloc: Global,
    file: &[u8],
    damage: &Damage,
) -> Result<(), Fail> {
    let (least, most, at, bytes, number) = damage;
    let file = changed(Vec::from_slice(alloc, file)?, *at, bytes);
    assert!(rt; file.len() >= *most, "{most} bytes");
    for size in *least..=*most {
        check_refused(rt, alloc, &file[..size.min(file.len())], *number)?;
    }
    Ok(())
}

fn check_each<R: Abort + Threads + Sync>(
    rt: &R,
    alloc: Global,
    file: &[u8],
    damages: &[Damage],
) -> Result<(), Fail> {
    for damage in damages {
        check_damage(rt, alloc, file, damage)?;
    }
    Ok(())
}

#[test]
fn damaged_images_are_refused_for_their_first_fault(rt: HostRuntime) -> Result<(), Fail> {
    let alloc = rt.alloc();
    let file = file_with(alloc, b"\xEB\xFE")?;
    check_each(&rt, alloc, &file, &ELF)?;
    let file = form_p(alloc, b"\x6A\0\xFF\x15\x34\x20\x40\0\xCC")?;
    check_each(&rt, alloc, &file, &PE)
}

// ---- each command

const IMAGE: File = ("i", Content::Code(b"\xEB\xFE"));

const MOVING: File = ("i", Content::Code(CODE));

const EMPTY: File = ("i", Content::Bytes(b""));

const STUBS: File = ("s", Content::Text("stack_align = 16\n"));

const BAD_STUBS: File = ("s", Content::Text("["));

const STARTED: File = ("t", Content::Text(START));

const TOLD: File = ("a", Content::Text(OVERLAP));

const RECORDED: File = ("r", Content::Text(RECORD));

const TABLE: File = ("t", Content::Text(ONE_ROW));

const LISTED: &str = "\
jakstab-list 1
format elf32
entry 08048000
segment 08048000 00000002 r-x
end
";

const DECODED: &str = "jakstab-decode 1\n08048000 EBFE jmp 08048000\nend 1\n";

const SUMMARY: &str = "demo 1 rows 27 locations 16 edges 19 opens 0\n";

// The words of a command, the files, the inputs in the order in which they are read, the status and the text.
type Command = (
    &'static [&'static str],
    &'static [File],
    &'static [Input],
    Status,
    &'static str,
);

static COMMANDS: [Command; 12] = [
    (
        &["recover", "i"],
        &[IMAGE],
        &[Input::Image],
        Status::Done,
        SELF_JUMP,
    ),
    (
        &["recover", "--stubs", "s", "i"],
        &[IMAGE, STUBS],
        &[Input::Image, Input::Stubs],
        Status::Done,
        SELF_JUMP,
    ),
    (
        &["list", "--stubs", "s", "i"],
        &[IMAGE, STUBS],
        &[Input::Image, Input::Stubs],
        Status::Done,
        LISTED,
    ),
    (
        &["decode", "i", "08048000", "1"],
        &[IMAGE],
        &[Input::Image],
        Status::Done,
        DECODED,
    ),
    (
        &["run", "i", "--stubs", "s", "t", "10"],
        &[MOVING, STUBS, STARTED],
        &[Input::Image, Input::Stubs, Input::First],
        Status::Done,
        RECORD,
    ),
    (
        &["replay", "i", "a", "r", "--stubs", "s"],
        &[MOVING, STUBS, TOLD, RECORDED],
        &[Input::Image, Input::Stubs, Input::First, Input::Second],
        Status::Done,
        "inside 2\n",
    ),
    (
        &["replay", "i", "a", "r"],
        &[MOVING, TOLD, ("r", Content::Text(OTHER_RECORD))],
        &[Input::Image, Input::First, Input::Second],
        Status::VerdictNo,
        "notarun 1 to\n",
    ),
    (
        &["replay", "i", "a", "r"],
        &[MOVING, ("a", Content::Text(SELF_JUMP)), RECORDED],
        &[Input::Image, Input::First, Input::Second],
        Status::VerdictNo,
        "notanedge 0 08048000 08048001\n",
    ),
    (
        &["table", "--stubs", "s", "i"],
        &[IMAGE, STUBS],
        &[Input::Image, Input::Stubs],
        Status::Done,
        ONE_ROW,
    ),
    (
        &["check", "i", "t", "--stubs", "s"],
        &[IMAGE, STUBS, TABLE],
        &[Input::Image, Input::Stubs, Input::First],
        Status::Done,
        "yes 1 1\n",
    ),
    (
        &["check", "i", "t"],
        &[IMAGE, ("t", Content::Text(NO_ROW))],
        &[Input::Image, Input::First],
        Status::VerdictNo,
        "no 0 1\n",
    ),
    (&["demo", "1"], &[], &[], Status::Done, SUMMARY),
];

fn unread_line(input: Input) -> &'static str {
    match input {
        Input::Image => "jakstab: cannot read image\n",
        Input::Stubs => "jakstab: cannot read stubs\n",
        Input::First => "jakstab: cannot read first\n",
        Input::Second => "jakstab: cannot read second\n",
    }
}

// The read of this number fails, which is that of an input.
fn check_unread<R: Abort + Threads + Sync>(
    rt: &R,
    alloc: Global,
    words: &[&str],
    files: &[File],
    read: u64,
    input: Input,
) -> Result<(), Fail> {
    let mut shelf = shelf_of(alloc, files, read)?;
    let ended = call(rt, alloc, words, &mut shelf, SURE)?;
    assert_eq!(rt; ended.status, Status::ReadFault(input), "read {read}");
    assert!(rt; ended.out.written().is_empty(), "read {read}");
    assert_eq!(rt; ended.note.written(), unread_line(input).as_bytes());
    Ok(())
}

fn check_reads<R: Abort + Threads + Sync>(
    rt: &R,
    alloc: Global,
    command: &Command,
) -> Result<(), Fail> {
    let (words, files, inputs, _, _) = command;
    for (i, input) in inputs.iter().enumerate() {
        let read = (i as u64).saturating_add(1);
        check_unread(rt, alloc, words, files, read, *input)?;
    }
    Ok(())
}

#[test]
fn each_read_that_fails_is_told(rt: HostRuntime) -> Result<(), Fail> {
    let alloc = rt.alloc();
    for command in &COMMANDS {
        check_reads(&rt, alloc, command)?;
    }
    Ok(())
}

// What is not read is not tried: the automaton, whose second line is not in its form, cannot be read.
#[test]
fn a_read_that_fails_tells_nothing_of_the_text(rt: HostRuntime) -> Result<(), Fail> {
    let alloc = rt.alloc();
    let files = &[MOVING, STUBS, ("a", Content::Text(NO_DIGIT)), RECORDED];
    check_unread(&rt, alloc, REPLAY, files, 3, Input::First)
}

// Writes take 16 bytes, and that of the index i fails, before which 16 * i bytes were written.
fn check_unwritten<R: Abort + Threads + Sync>(
    rt: &R,
    alloc: Global,
    command: &Command,
    i: usize,
) -> Result<(), Fail> {
    let (words, files, _, status, text) = command;
    let held = i.saturating_mul(16).min(text.len());
    let (want, told) = if held < text.len() {
        (Status::WriteFault, "jakstab: cannot write\n")
    } else {
        (*status, "")
    };
    let mut shelf = shelf_of(alloc, files, 0)?;
    let sinks = ((i as u64).saturating_add(1), 0, 16);
    let ended = call(rt, alloc, words, &mut shelf, sinks)?;
    assert_eq!(rt; ended.status, want, "write {i}");
    assert_eq!(rt; ended.out.written(), &text.as_bytes()[..held], "write {i}");
    assert_eq!(rt; ended.note.written(), told.as_bytes(), "write {i}");
    Ok(())
}

fn check_writes<R: Abort + Threads + Sync>(
    rt: &R,
    alloc: Global,
    command: &Command,
) -> Result<(), Fail> {
    for i in 0..=command.4.len().div_ceil(16) {
        check_unwritten(rt, alloc, command, i)?;
    }
    Ok(())
}

#[test]
fn each_write_that_fails_ends_the_text(rt: HostRuntime) -> Result<(), Fail> {
    let alloc = rt.alloc();
    for command in &COMMANDS {
        check_writes(&rt, alloc, command)?;
    }
    Ok(())
}

fn check_short_writes<R: Abort + Threads + Sync>(
    rt: &R,
    alloc: Global,
    command: &Command,
) -> Result<(), Fail> {
    let (words, files, _, status, text) = command;
    for per_write in 1..=text.len() {
        let mut shelf = shelf_of(alloc, files, 0)?;
        let ended = call(rt, alloc, words, &mut shelf, (0, 0, per_write))?;
        check_ended(rt, &ended, *status, text);
    }
    Ok(())
}

#[test]
fn short_writes_write_the_whole_text(rt: HostRuntime) -> Result<(), Fail> {
    let alloc = rt.alloc();
    for command in &COMMANDS {
        check_short_writes(&rt, alloc, command)?;
    }
    Ok(())
}

// ---- the order of refusals

// The words, the files, how many reads are made, the status, and the line on `note`.
type Refusal = (
    &'static [&'static str],
    &'static [File],
    u64,
    Status,
    &'static str,
);

const RECOVER: &[&str] = &["recover", "--stubs", "s", "i"];

const LIST: &[&str] = &["list", "--stubs", "s", "i"];

const DECODE: &[&str] = &["decode", "i", "08048000", "1"];

const RUN: &[&str] = &["run", "i", "t", "10", "--stubs", "s"];

const REPLAY: &[&str] = &["replay", "i", "a", "r", "--stubs", "s"];

const TABULATE: &[&str] = &["table", "i", "--stubs", "s"];

const CHECK: &[&str] = &["check", "i", "t", "--stubs", "s"];

const USAGE: &str = "jakstab: usage\n";

const NO_IMAGE: &str = "jakstab: cannot read image\n";

const NO_STUBS: &str = "jakstab: cannot read stubs\n";

const NO_FORMAT: &str = "jakstab: image refused 200\n";

const NO_TOML: &str = "jakstab: stubs refused 1\n";

// No file is there where the words are refused.
static USAGES: [Refusal; 11] = [
    (&[], &[], 0, Status::Usage, USAGE),
    (&["recover", "--stubs", "s"], &[], 0, Status::Usage, USAGE),
    (&["list", "--stubs", "i"], &[], 0, Status::Usage, USAGE),
    (
        &["decode", "i", "08048000", "0"],
        &[],
        0,
        Status::Usage,
        USAGE,
    ),
    (&["run", "i", "t", "1000001"], &[], 0, Status::Usage, USAGE),
    (&["replay", "i", "a"], &[], 0, Status::Usage, USAGE),
    (
        &["table", "i", "--domain", "flat"],
        &[],
        0,
        Status::Usage,
        USAGE,
    ),
    (&["check", "i"], &[], 0, Status::Usage, USAGE),
    (
        &["check", "i", "t", "--k", "4"],
        &[],
        0,
        Status::Usage,
        USAGE,
    ),
    (&["demo", "2001"], &[], 0, Status::Usage, USAGE),
    (&["demo", "1", "--stubs", "s"], &[], 0, Status::Usage, USAGE),
];

// The image is read and tried before the stub file is read, and that is tried before any further input is read.
static FIRST_REFUSALS: [Refusal; 26] = [
    (RECOVER, &[], 1, Status::ReadFault(Input::Image), NO_IMAGE),
    (LIST, &[], 1, Status::ReadFault(Input::Image), NO_IMAGE),
    (DECODE, &[], 1, Status::ReadFault(Input::Image), NO_IMAGE),
    (RUN, &[], 1, Status::ReadFault(Input::Image), NO_IMAGE),
    (REPLAY, &[], 1, Status::ReadFault(Input::Image), NO_IMAGE),
    (TABULATE, &[], 1, Status::ReadFault(Input::Image), NO_IMAGE),
    (CHECK, &[], 1, Status::ReadFault(Input::Image), NO_IMAGE),
    (RECOVER, &[EMPTY], 1, Status::ImageRefused(200), NO_FORMAT),
    (LIST, &[EMPTY], 1, Status::ImageRefused(200), NO_FORMAT),
    (DECODE, &[EMPTY], 1, Status::ImageRefused(200), NO_FORMAT),
    (RUN, &[EMPTY], 1, Status::ImageRefused(200), NO_FORMAT),
    (REPLAY, &[EMPTY], 1, Status::ImageRefused(200), NO_FORMAT),
    (TABULATE, &[EMPTY], 1, Status::ImageRefused(200), NO_FORMAT),
    (CHECK, &[EMPTY], 1, Status::ImageRefused(200), NO_FORMAT),
    (
        TABULATE,
        &[IMAGE],
        2,
        Status::ReadFault(Input::Stubs),
        NO_STUBS,
    ),
    (
        CHECK,
        &[IMAGE, TABLE],
        2,
        Status::ReadFault(Input::Stubs),
        NO_STUBS,
    ),
    (
        TABULATE,
        &[IMAGE, BAD_STUBS],
        2,
        Status::StubsRefused(1),
        NO_TOML,
    ),
    (
        CHECK,
        &[IMAGE, BAD_STUBS],
        2,
        Status::StubsRefused(1),
        NO_TOML,
    ),
    (
        RECOVER,
        &[IMAGE],
        2,
        Status::ReadFault(Input::Stubs),
        NO_STUBS,
    ),
    (LIST, &[IMAGE], 2, Status::ReadFault(Input::Stubs), NO_STUBS),
    (RUN, &[IMAGE], 2, Status::ReadFault(Input::Stubs), NO_STUBS),
    (
        REPLAY,
        &[IMAGE],
        2,
        Status::ReadFault(Input::Stubs),
        NO_STUBS,
    ),
    (
        RECOVER,
        &[IMAGE, BAD_STUBS],
        2,
        Status::StubsRefused(1),
        NO_TOML,
    ),
    (
        LIST,
        &[IMAGE, BAD_STUBS],
        2,
        Status::StubsRefused(1),
        NO_TOML,
    ),
    (
        RUN,
        &[IMAGE, BAD_STUBS],
        2,
        Status::StubsRefused(1),
        NO_TOML,
    ),
    (
        REPLAY,
        &[IMAGE, BAD_STUBS],
        2,
        Status::StubsRefused(1),
        NO_TOML,
    ),
];

const REPLAY_ALONE: &[&str] = &["replay", "i", "a", "r"];

const NO_DIGIT: &str = "jakstab-automaton 1\nentry 0804800\n";

const OTHER_ENTRY: &str = "\
jakstab-automaton 2
entry 08048001
loc 08048000
edge 08048000 08048000 EBFE jmp 08048000
end 1 1 0
";

const ONE_BYTE_MORE: &str = "\
jakstab-automaton 2
entry 08048000
loc 08048000
edge 08048000 08048000 EBFE jmp 08048000
end 1 1 0
x";

// Each further input is tried before the next one is read, and then the start.
static LATER_REFUSALS: [Refusal; 14] = [
    (
        RUN,
        &[MOVING, STUBS],
        3,
        Status::ReadFault(Input::First),
        "jakstab: cannot read first\n",
    ),
    (
        RUN,
        &[MOVING, STUBS, ("t", Content::Text(RECORD))],
        3,
        Status::InputRefused { line: 1, kind: 1 },
        "jakstab: input refused 1 1\n",
    ),
    (
        RUN,
        &[MOVING, STUBS, ("t", Content::Text(UNALIGNED_START))],
        3,
        Status::InputRefused { line: 2, kind: 11 },
        "jakstab: input refused 2 11\n",
    ),
    (
        REPLAY,
        &[MOVING, STUBS],
        3,
        Status::ReadFault(Input::First),
        "jakstab: cannot read first\n",
    ),
    (
        REPLAY,
        &[MOVING, STUBS, ("a", Content::Text(NO_DIGIT))],
        3,
        Status::InputRefused { line: 2, kind: 3 },
        "jakstab: input refused 2 3\n",
    ),
    (
        CHECK,
        &[IMAGE, STUBS],
        3,
        Status::ReadFault(Input::First),
        "jakstab: cannot read first\n",
    ),
    (
        CHECK,
        &[IMAGE, STUBS, ("t", Content::Text(START))],
        3,
        Status::InputRefused { line: 1, kind: 1 },
        "jakstab: input refused 1 1\n",
    ),
    (
        CHECK,
        &[IMAGE, STUBS, ("t", Content::Text(MISCOUNTED))],
        3,
        Status::InputRefused { line: 6, kind: 5 },
        "jakstab: input refused 6 5\n",
    ),
    (
        REPLAY_ALONE,
        &[MOVING, ("a", Content::Text(OTHER_ENTRY))],
        2,
        Status::InputRefused { line: 2, kind: 6 },
        "jakstab: input refused 2 6\n",
    ),
    (
        REPLAY_ALONE,
        &[MOVING, ("a", Content::Text(ONE_BYTE_MORE))],
        2,
        Status::InputRefused { line: 6, kind: 7 },
        "jakstab: input refused 6 7\n",
    ),
    (
        REPLAY,
        &[MOVING, STUBS, TOLD],
        4,
        Status::ReadFault(Input::Second),
        "jakstab: cannot read second\n",
    ),
    (
        REPLAY,
        &[MOVING, STUBS, TOLD, ("r", Content::Text(START))],
        4,
        Status::InputRefused { line: 1, kind: 1 },
        "jakstab: input refused 1 1\n",
    ),
    (
        REPLAY,
        &[MOVING, STUBS, TOLD, ("r", Content::Text(UNALIGNED_RECORD))],
        4,
        Status::InputRefused { line: 2, kind: 11 },
        "jakstab: input refused 2 11\n",
    ),
    (
        REPLAY_ALONE,
        &[
            MOVING,
            ("a", Content::Text(NO_DIGIT)),
            ("r", Content::Text(UNALIGNED_RECORD)),
        ],
        2,
        Status::InputRefused { line: 2, kind: 3 },
        "jakstab: input refused 2 3\n",
    ),
];

// The read behind the last one of the call is the test's own, which fails by its number.
fn check_refusal<R: Abort + Threads + Sync>(
    rt: &R,
    alloc: Global,
    refusal: &Refusal,
) -> Result<(), Fail> {
    let (words, files, reads, want, told) = refusal;
    let mut shelf = shelf_of(alloc, files, reads.saturating_add(1))?;
    shelf.put("z", Vec::new(alloc))?;
    let ended = call(rt, alloc, words, &mut shelf, SURE)?;
    assert_eq!(rt; ended.status, *want, "{told}");
    assert!(rt; ended.out.written().is_empty(), "{told}");
    assert_eq!(rt; ended.note.written(), told.as_bytes(), "{told}");
    let read = shelf.read_whole(alloc, "z", 9).err();
    assert_eq!(rt; read, Some(ShelfFault::Failed), "{told}");
    Ok(())
}

fn check_refusals<R: Abort + Threads + Sync>(
    rt: &R,
    alloc: Global,
    refusals: &[Refusal],
) -> Result<(), Fail> {
    for refusal in refusals {
        check_refusal(rt, alloc, refusal)?;
    }
    Ok(())
}

#[test]
fn the_first_refusal_is_told_and_nothing_more_is_read(rt: HostRuntime) -> Result<(), Fail> {
    let alloc = rt.alloc();
    check_refusals(&rt, alloc, &USAGES)?;
    check_refusals(&rt, alloc, &FIRST_REFUSALS)?;
    check_refusals(&rt, alloc, &LATER_REFUSALS)
}

// ---- lengths

// The words, the name of a file of so many bytes 0, and how its reading ends.
type Length = (
    &'static [&'static str],
    &'static str,
    usize,
    Status,
    &'static str,
);

static LENGTHS: [Length; 4] = [
    (
        RECOVER,
        "i",
        16_777_217,
        Status::TooLong(Input::Image),
        "jakstab: too long image\n",
    ),
    (
        RECOVER,
        "i",
        16_777_216,
        Status::ImageRefused(200),
        NO_FORMAT,
    ),
    (
        LIST,
        "s",
        1_048_577,
        Status::TooLong(Input::Stubs),
        "jakstab: too long stubs\n",
    ),
    (LIST, "s", 1_048_576, Status::StubsRefused(1), NO_TOML),
];

static FURTHER_LENGTHS: [Length; 2] = [
    (
        RUN,
        "t",
        67_108_865,
        Status::TooLong(Input::First),
        "jakstab: too long first\n",
    ),
    (
        REPLAY,
        "r",
        67_108_865,
        Status::TooLong(Input::Second),
        "jakstab: too long second\n",
    ),
];

fn check_length<R: Abort + Threads + Sync>(
    rt: &R,
    alloc: Global,
    length: &Length,
) -> Result<(), Fail> {
    let (words, name, size, want, told) = length;
    let mut shelf = shelf_of(alloc, &[MOVING, STUBS, STARTED, TOLD, RECORDED], 0)?;
    let zeros: Vec<u8> = vec![in alloc; 0; *size]?;
    shelf.put(name, zeros)?;
    let ended = call(rt, alloc, words, &mut shelf, SURE)?;
    assert_eq!(rt; ended.status, *want, "{name} of {size} bytes");
    assert!(rt; ended.out.written().is_empty(), "{name} of {size} bytes");
    assert_eq!(rt;
        ended.note.written(),
        told.as_bytes(),
        "{name} of {size} bytes"
    );
    Ok(())
}

#[test]
fn images_and_stub_files_are_read_up_to_their_limits(rt: HostRuntime) -> Result<(), Fail> {
    let alloc = rt.alloc();
    for length in &LENGTHS {
        check_length(&rt, alloc, length)?;
    }
    Ok(())
}

#[test]
fn further_inputs_are_read_up_to_their_limit(rt: HostRuntime) -> Result<(), Fail> {
    let alloc = rt.alloc();
    for length in &FURTHER_LENGTHS {
        check_length(&rt, alloc, length)?;
    }
    Ok(())
}

// ---- a `note` that fails

// The words, the files, the number of the write that fails, the status, and its line.
type Noting = (
    &'static [&'static str],
    &'static [File],
    u64,
    Status,
    &'static str,
);

static NOTINGS: [Noting; 9] = [
    (&[], &[], 0, Status::Usage, USAGE),
    (RECOVER, &[], 0, Status::ReadFault(Input::Image), NO_IMAGE),
    (RECOVER, &[EMPTY], 0, Status::ImageRefused(200), NO_FORMAT),
    (
        RECOVER,
        &[IMAGE, BAD_STUBS],
        0,
        Status::StubsRefused(1),
        NO_TOML,
    ),
    (
        RUN,
        &[MOVING, STUBS, ("t", Content::Text(UNALIGNED_START))],
        0,
        Status::InputRefused { line: 2, kind: 11 },
        "jakstab: input refused 2 11\n",
    ),
    (
        DECODE,
        &[IMAGE],
        1,
        Status::WriteFault,
        "jakstab: cannot write\n",
    ),
    (RECOVER, &[IMAGE, STUBS], 0, Status::Done, ""),
    (
        CHECK,
        &[IMAGE, STUBS, ("t", Content::Text(NO_ROW))],
        0,
        Status::VerdictNo,
        "",
    ),
    (
        REPLAY,
        &[MOVING, STUBS, TOLD, ("r", Content::Text(OTHER_RECORD))],
        0,
        Status::VerdictNo,
        "",
    ),
];

// Notes take 16 bytes, and that of the index i fails.
fn check_unnoted<R: Abort + Threads + Sync>(
    rt: &R,
    alloc: Global,
    noting: &Noting,
    i: usize,
) -> Result<(), Fail> {
    let (words, files, write, want, told) = noting;
    let held = i.saturating_mul(16).min(told.len());
    let mut shelf = shelf_of(alloc, files, 0)?;
    let sinks = (*write, (i as u64).saturating_add(1), 16);
    let ended = call(rt, alloc, words, &mut shelf, sinks)?;
    assert_eq!(rt; ended.status, *want, "note {i}: {told}");
    assert_eq!(rt;
        ended.note.written(),
        &told.as_bytes()[..held],
        "note {i}: {told}"
    );
    Ok(())
}

fn check_noting<R: Abort + Threads + Sync>(
    rt: &R,
    alloc: Global,
    noting: &Noting,
) -> Result<(), Fail> {
    for i in 0..=noting.4.len().div_ceil(16) {
        check_unnoted(rt, alloc, noting, i)?;
    }
    Ok(())
}

#[test]
fn notes_that_fail_change_no_status(rt: HostRuntime) -> Result<(), Fail> {
    let alloc = rt.alloc();
    for noting in &NOTINGS {
        check_noting(&rt, alloc, noting)?;
    }
    Ok(())
}
