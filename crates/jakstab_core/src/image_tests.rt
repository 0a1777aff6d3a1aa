use crate::tests::{SELF_JUMP, changed, check_text, file_with};
use demo_images::{Import, form_d};
use std::alloc::Global;
use std::process::Abort;
use std::test::Fail;
use std::thread::Threads;

const HIGHER: &str = "\
jakstab-automaton 2
entry 08448000
loc 08448000
edge 08448000 08448000 EBFE jmp 08448000
end 1 1 0
";

const ENTRY_AT_THE_END: &str = "\
jakstab-automaton 2
entry FFFFFFFF
loc FFFFFFFF
open FFFFFFFF bytes 0
end 1 0 1
";

const ENTRY_AT_THE_EXIT: &str = "\
jakstab-automaton 2
entry F0000000
loc F0000000 -
end 1 0 0
";

const CODE_ELSEWHERE: &str = "\
jakstab-automaton 2
entry 08048000
loc 08048000
open 08048000 bytes 0
end 1 0 1
";

// Offsets in the file of a jump to itself, the bytes that stand there instead, and the automaton.
static FIELDS: [(usize, &[u8], &str); 5] = [
    (16, b"\x03", HIGHER),
    (24, b"\xFF\xFF\xFF\xFF", ENTRY_AT_THE_END),
    (24, b"\0\0\0\xF0", ENTRY_AT_THE_EXIT),
    (60, b"\xFE\xFF\xFF\xEF", CODE_ELSEWHERE),
    (72, b"\0\0\0\x04", SELF_JUMP),
];

#[test]
fn fields_at_their_ends_are_recovered(rt: HostRuntime) -> Result<(), Fail> {
    let alloc = rt.alloc();
    for (at, bytes, want) in &FIELDS {
        let file = changed(file_with(alloc, b"\xEB\xFE")?, *at, bytes);
        check_text(&rt, alloc, &["recover", "i"], &file, want)?;
    }
    Ok(())
}

const PUTS_LIST: &str = "\
jakstab-list 1
format elf32
entry 08048000
segment 08048000 00000007 r-x
segment 09000000 00000072 rw-
import F0000010 puts nostub
end
";

const PUTS: &str = "\
jakstab-automaton 2
entry 08048000
loc 08048000
loc F0000010 puts
edge 08048000 F0000010 FF1500000009 call dword [09000000]
open F0000010 nostub 1
end 2 1 1
";

const UNKNOWN_LIST: &str = "\
jakstab-list 1
format elf32
entry 08048000
segment 08048000 00000007 r-x
segment 09000000 00000072 rw-
unset 09000000 00000004
end
";

const UNKNOWN: &str = "\
jakstab-automaton 2
entry 08048000
loc 08048000
open 08048000 target 0
end 1 0 1
";

const WEAK_LIST: &str = "\
jakstab-list 1
format elf32
entry 08048000
segment 08048000 0000000B r-x
segment 09000000 0000007C rw-
import F0000010 __gmon_start__ zero
end
";

// The slot holds 0, so the `int3` at 08048009 is stepped over.
const WEAK: &str = "\
jakstab-automaton 2
entry 08048000
loc 08048000
loc 08048005
loc 08048007
loc 0804800A
edge 08048000 08048005 A100000009 mov eax, dword [09000000]
edge 08048005 08048007 85C0 test eax, eax
edge 08048007 0804800A 7401 je 0804800A
end 4 3 0
";

const CALL_SLOT: &[u8] = b"\xFF\x15\0\0\0\x09\xF4";

const TEST_SLOT: &[u8] = b"\xA1\0\0\0\x09\x85\xC0\x74\x01\xCC\xF4";

fn check_both<R: Abort + Threads + Sync>(
    rt: &R,
    alloc: Global,
    file: &[u8],
    listed: &str,
    recovered: &str,
) -> Result<(), Fail> {
    check_text(rt, alloc, &["list", "i"], file, listed)?;
    check_text(rt, alloc, &["recover", "i"], file, recovered)
}

// The type of the relocation of the slot is byte 163 of the file that calls it.
#[test]
fn slots_are_relocated(rt: HostRuntime) -> Result<(), Fail> {
    let alloc = rt.alloc();
    let puts = [Import::new(b"puts", false)];
    let file = form_d(alloc, CALL_SLOT, &puts)?;
    check_both(&rt, alloc, &file, PUTS_LIST, PUTS)?;
    let file = changed(file, 163, &[10]);
    check_both(&rt, alloc, &file, UNKNOWN_LIST, UNKNOWN)?;
    let weak = [Import::new(b"__gmon_start__", true)];
    let file = form_d(alloc, TEST_SLOT, &weak)?;
    check_both(&rt, alloc, &file, WEAK_LIST, WEAK)
}

const PUTS_FIRST: &str = "\
jakstab-automaton 1
entry 08048000
loc 08048000
loc F0000010 puts
edge 08048000 F0000010 FF1500000009 call dword [09000000]
open F0000010 nostub
end 2 1 1
";

const UNKNOWN_FIRST: &str = "\
jakstab-automaton 1
entry 08048000
loc 08048000
open 08048000 target
end 1 0 1
";

#[test]
fn slots_are_told_without_rows(rt: HostRuntime) -> Result<(), Fail> {
    let alloc = rt.alloc();
    let first: &[&str] = &["recover", "--text", "1", "i"];
    let puts = [Import::new(b"puts", false)];
    let file = form_d(alloc, CALL_SLOT, &puts)?;
    check_text(&rt, alloc, first, &file, PUTS_FIRST)?;
    let file = changed(file, 163, &[10]);
    check_text(&rt, alloc, first, &file, UNKNOWN_FIRST)
}
