use crate::calls::{Case, Content, call_over, check_case, check_ended, words_of};
pub use crate::calls::{changed, file_with};
use crate::{Input, OpenGate, Status, jakstab};
use bit_words::NoMemory;
use demo_images::form_e;
use outside_io::{SureShelf, SureSink};
use std::alloc::Global;
use std::process::Abort;
use std::test::Fail;
use std::thread::Threads;

// The file of code in one segment that may be read, written and executed.
pub fn writable_file(alloc: Global, code: &[u8]) -> Result<Vec<u8>, NoMemory> {
    form_e(alloc, &code[..code.len().min(4096)], 7)
}

// The stub file `s`.
pub const STUBS: &str = "\
[stub.malloc]
args = 4
reply = \"block\"
size_arg = 0
may_fail = true

[stub.exit]
args = 4
reply = \"never\"
";

// Does a command over the file `i` and the stub file, which is to write a text.
pub fn check_text<R: Abort + Threads + Sync>(
    rt: &R,
    alloc: Global,
    words: &[&str],
    file: &[u8],
    want: &str,
) -> Result<(), Fail> {
    let ended = call_over(rt, alloc, words, file, STUBS)?;
    check_ended(rt, &ended, Status::Done, want);
    Ok(())
}

pub const SELF_JUMP: &str = "\
jakstab-automaton 2
entry 08048000
loc 08048000
edge 08048000 08048000 EBFE jmp 08048000
end 1 1 0
";

const JE_NEXT: &str = "\
jakstab-automaton 2
entry 08048000
loc 08048000
loc 08048002
edge 08048000 08048002 7400 je 08048002
end 2 1 0
";

// The jump overlaps the two `nop` and the `hlt`, and leads out of the image.
const JUMP_INTO_NEXT: &str = "\
jakstab-automaton 2
entry 08048000
loc 08048000
loc 08048002
loc 08048003
loc 08048004
loc 08048005
loc 08F91097
edge 08048000 08048002 7401 je 08048003
edge 08048000 08048003 7401 je 08048003
edge 08048002 08F91097 E99090F400 jmp 08F91097
edge 08048003 08048004 90 nop
edge 08048004 08048005 90 nop
open 08F91097 bytes 4
end 6 5 1
";

// A jump to the exit place: an edge, a location with a dash, and nothing open.
const JUMP_TO_EXIT: &str = "\
jakstab-automaton 2
entry 08048000
loc 08048000
loc F0000000 -
edge 08048000 F0000000 E9FB7FFBE7 jmp F0000000
end 2 1 0
";

// A jump to the address 0, where no byte of the image is.
const JUMP_TO_ZERO: &str = "\
jakstab-automaton 2
entry 08048000
loc 00000000
loc 08048000
edge 08048000 00000000 E9FB7FFBF7 jmp 00000000
open 00000000 bytes 1
end 2 1 1
";

// The `jmp` leads into itself: its second byte begins `inc eax`.
pub const OVERLAP: &str = "\
jakstab-automaton 2
entry 08048000
loc 08048000
loc 08048001
loc 08048003
edge 08048000 08048001 EBFF jmp 08048001
edge 08048001 08048003 FFC0 inc eax
end 3 2 0
";

// The comparison is known, so the `je` is taken alone.
const KNOWN_COMPARE: &str = "\
jakstab-automaton 2
entry 08048000
loc 08048000
loc 08048005
loc 08048008
loc 0804800B
edge 08048000 08048005 B801000000 mov eax, 00000001
edge 08048005 08048008 83F801 cmp eax, 00000001
edge 08048008 0804800B 7401 je 0804800B
end 4 3 0
";

// A loop that counts: after four numbers any number is known, and the log has twelve rows.
const COUNTING_LOOP: &str = "\
jakstab-automaton 2
entry 08048000
loc 08048000
loc 08048005
loc 08048006
edge 08048000 08048005 B800000000 mov eax, 00000000
edge 08048005 08048006 40 inc eax
edge 08048006 08048005 EBFD jmp 08048005
end 3 3 0
";

const COUNTING_LOOP_SPENT: &str = "\
jakstab-automaton 2
entry 08048000
loc 08048000
loc 08048005
loc 08048006
edge 08048000 08048005 B800000000 mov eax, 00000000
edge 08048005 08048006 40 inc eax
edge 08048006 08048005 EBFD jmp 08048005
open 08048005 budget 11
end 3 3 1
";

// The sum and the difference are known, and DEC gives 0: the `jne` is not taken, and the `je` is.
const KNOWN_ARITHMETIC: &str = "\
jakstab-automaton 2
entry 08048000
loc 08048000
loc 08048005
loc 08048008
loc 0804800B
loc 0804800C
loc 0804800E
loc 08048010
edge 08048000 08048005 B802000000 mov eax, 00000002
edge 08048005 08048008 83C003 add eax, 00000003
edge 08048008 0804800B 83E804 sub eax, 00000004
edge 0804800B 0804800C 48 dec eax
edge 0804800C 0804800E 75FE jne 0804800C
edge 0804800E 08048010 7400 je 08048010
end 7 6 0
";

const COUNTING: &[u8] = b"\xB8\0\0\0\0\x40\xEB\xFD";

const PLAIN: &[&str] = &["recover", "i"];

const TWELVE: &[&str] = &["recover", "--k", "4", "--budget", "12", "i"];

const ELEVEN: &[&str] = &["recover", "i", "--k=4", "--budget=11"];

const FLAT: &[&str] = &["recover", "--domain", "flat", "i"];

// Words, code and the automaton.
static RECOVERED: [(&[&str], &[u8], &str); 11] = [
    (PLAIN, b"\xEB\xFE", SELF_JUMP),
    (PLAIN, b"\xEB\xFF\xC0\xF4", OVERLAP),
    (
        PLAIN,
        b"\xB8\x01\0\0\0\x83\xF8\x01\x74\x01\x0F\xF4",
        KNOWN_COMPARE,
    ),
    (PLAIN, b"\x74\x00\xF4", JE_NEXT),
    (PLAIN, b"\x74\x01\xE9\x90\x90\xF4\x00", JUMP_INTO_NEXT),
    (PLAIN, b"\xE9\xFB\x7F\xFB\xE7", JUMP_TO_EXIT),
    (PLAIN, b"\xE9\xFB\x7F\xFB\xF7", JUMP_TO_ZERO),
    (
        PLAIN,
        b"\xB8\x02\0\0\0\x83\xC0\x03\x83\xE8\x04\x48\x75\xFE\x74\x00\xF4",
        KNOWN_ARITHMETIC,
    ),
    (TWELVE, COUNTING, COUNTING_LOOP),
    (ELEVEN, COUNTING, COUNTING_LOOP_SPENT),
    (FLAT, COUNTING, COUNTING_LOOP),
];

#[test]
fn images_are_recovered_to_their_texts(rt: HostRuntime) -> Result<(), Fail> {
    let alloc = rt.alloc();
    for (words, code, want) in &RECOVERED {
        check_text(&rt, alloc, words, &file_with(alloc, code)?, want)?;
    }
    Ok(())
}

// A jump to itself of which the first 51 bytes are there, and one whose segment has 3 bytes in the file.
static REFUSED: [Case; 9] = [
    (
        PLAIN,
        &[("i", Content::Bytes(b""))],
        Status::ImageRefused(200),
        "",
    ),
    (
        PLAIN,
        &[("i", Content::Front(51))],
        Status::ImageRefused(1),
        "",
    ),
    (
        PLAIN,
        &[("i", Content::Bytes(b"MZ"))],
        Status::ImageRefused(101),
        "",
    ),
    (
        PLAIN,
        &[("i", Content::Damaged(68, b"\x03"))],
        Status::ImageRefused(9),
        "",
    ),
    (PLAIN, &[], Status::ReadFault(Input::Image), ""),
    (&["recover"], &[], Status::Usage, ""),
    (
        &["recover", "-i"],
        &[("-i", Content::Bytes(b""))],
        Status::Usage,
        "",
    ),
    (&["demo", "2001"], &[], Status::Usage, ""),
    (
        &["recover", "i", "i"],
        &[("i", Content::Bytes(b""))],
        Status::Usage,
        "",
    ),
];

#[test]
fn other_files_and_words_are_refused_and_write_nothing(rt: HostRuntime) -> Result<(), Fail> {
    let alloc = rt.alloc();
    for case in &REFUSED {
        check_case(&rt, alloc, case)?;
    }
    Ok(())
}

#[test]
fn what_never_fails_is_read_and_written(rt: HostRuntime) -> Result<(), Fail> {
    let alloc = rt.alloc();
    let words = words_of(alloc, &["recover", "a"])?;
    let mut shelf = SureShelf::new(alloc);
    shelf.put("a", file_with(alloc, b"\xEB\xFE")?)?;
    let status = jakstab(
        &rt,
        alloc,
        &words,
        &mut shelf,
        &mut SureSink,
        &mut SureSink,
        &OpenGate,
    );
    assert_eq!(rt; status, Status::Done);
    assert_eq!(rt; status.number(), 0);
    Ok(())
}
