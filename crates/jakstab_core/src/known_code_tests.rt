use crate::tests::{changed, check_text, writable_file};
use demo_images::{Import, form_d};
use std::test::Fail;

// The store changes the `hlt` behind it to `nop`, and behind that no byte is.
const SELF_PATCH: &str = "\
jakstab-automaton 2
entry 08048000
loc 08048000
loc 08048007
loc 08048008
edge 08048000 08048007 C6050780040890 mov byte [08048007], 90
edge 08048007 08048008 90 nop
open 08048008 bytes 2
end 3 2 1
";

const SELF_PATCH_FIRST: &str = "\
jakstab-automaton 1
entry 08048000
loc 08048000
loc 08048007
loc 08048008
edge 08048000 08048007 C6050780040890 mov byte [08048007], 90
edge 08048007 08048008 90 nop
open 08048008 bytes
end 3 2 1
";

// The `nop` is changed to `inc eax` after it was run, and run again.
const LATE_PATCH: &str = "\
jakstab-automaton 2
entry 08048000
loc 08048000
loc 08048001
loc 08048008
edge 08048000 08048001 40 inc eax
edge 08048000 08048001 90 nop
edge 08048001 08048008 C6050080040840 mov byte [08048000], 40
edge 08048008 08048000 EBF6 jmp 08048000
end 3 4 0
";

const LATE_PATCH_FIRST: &str = "\
jakstab-automaton 1
entry 08048000
loc 08048000
loc 08048001
loc 08048008
edge 08048000 08048001 40 inc eax
edge 08048000 08048001 90 nop
edge 08048001 08048008 C6050080040840 mov byte [08048000], 40
edge 08048008 08048000 EBF6 jmp 08048000
end 3 4 0
";

// The byte that is stored is not known.
const UNKNOWN_BYTE: &str = "\
jakstab-automaton 2
entry 08048000
loc 08048000
loc 08048005
edge 08048000 08048005 A205800408 mov byte [08048005], al
open 08048005 code 1
end 2 1 1
";

const UNKNOWN_BYTE_FIRST: &str = "\
jakstab-automaton 1
entry 08048000
loc 08048000
loc 08048005
edge 08048000 08048005 A205800408 mov byte [08048005], al
open 08048005 code
end 2 1 1
";

// The second byte of the jump is not known.
const UNKNOWN_OFFSET: &str = "\
jakstab-automaton 2
entry 08048000
loc 08048000
loc 08048005
edge 08048000 08048005 A206800408 mov byte [08048006], al
open 08048005 code 1
end 2 1 1
";

const UNKNOWN_OFFSET_FIRST: &str = "\
jakstab-automaton 1
entry 08048000
loc 08048000
loc 08048005
edge 08048000 08048005 A206800408 mov byte [08048006], al
open 08048005 code
end 2 1 1
";

// The number that was loaded is changed in the instruction that loads it.
const NEW_NUMBER: &str = "\
jakstab-automaton 2
entry 08048000
loc 08048000
loc 08048005
loc 0804800C
edge 08048000 08048005 B801000000 mov eax, 00000001
edge 08048000 08048005 B802000000 mov eax, 00000002
edge 08048005 0804800C C6050180040802 mov byte [08048001], 02
edge 0804800C 08048000 EBF2 jmp 08048000
end 3 4 0
";

const NEW_NUMBER_FIRST: &str = "\
jakstab-automaton 1
entry 08048000
loc 08048000
loc 08048005
loc 0804800C
edge 08048000 08048005 B801000000 mov eax, 00000001
edge 08048000 08048005 B802000000 mov eax, 00000002
edge 08048005 0804800C C6050180040802 mov byte [08048001], 02
edge 0804800C 08048000 EBF2 jmp 08048000
end 3 4 0
";

// The first instruction is split: its second byte, a number at first, is run as `hlt`.
const SPLIT: &str = "\
jakstab-automaton 2
entry 08048000
loc 08048000
loc 08048001
loc 08048002
loc 08048009
edge 08048000 08048001 90 nop
edge 08048000 08048002 B0F4 mov al, F4
edge 08048002 08048009 C6050080040890 mov byte [08048000], 90
edge 08048009 08048000 EBF5 jmp 08048000
end 4 4 0
";

const SPLIT_FIRST: &str = "\
jakstab-automaton 1
entry 08048000
loc 08048000
loc 08048001
loc 08048002
loc 08048009
edge 08048000 08048001 90 nop
edge 08048000 08048002 B0F4 mov al, F4
edge 08048002 08048009 C6050080040890 mov byte [08048000], 90
edge 08048009 08048000 EBF5 jmp 08048000
end 4 4 0
";

// On one way to the `nop` it is changed, and on the other it is not.
const TWO_WAYS: &str = "\
jakstab-automaton 2
entry 08048000
loc 08048000
loc 08048002
loc 08048009
loc 0804800A
edge 08048000 08048002 7407 je 08048009
edge 08048000 08048009 7407 je 08048009
edge 08048002 08048009 C6050980040840 mov byte [08048009], 40
edge 08048009 0804800A 40 inc eax
edge 08048009 0804800A 90 nop
end 4 5 0
";

const TWO_WAYS_FIRST: &str = "\
jakstab-automaton 1
entry 08048000
loc 08048000
loc 08048002
loc 08048009
loc 0804800A
edge 08048000 08048002 7407 je 08048009
edge 08048000 08048009 7407 je 08048009
edge 08048002 08048009 C6050980040840 mov byte [08048009], 40
edge 08048009 0804800A 40 inc eax
edge 08048009 0804800A 90 nop
end 4 5 0
";

const SELF_JUMP: &str = "\
jakstab-automaton 2
entry 08048000
loc 08048000
edge 08048000 08048000 EBFE jmp 08048000
end 1 1 0
";

const SELF_JUMP_FIRST: &str = "\
jakstab-automaton 1
entry 08048000
loc 08048000
edge 08048000 08048000 EBFE jmp 08048000
end 1 1 0
";

// Code that may be written, and its automaton in both versions.
static PATCHED: [(&[u8], &str, &str); 8] = [
    (b"\xEB\xFE", SELF_JUMP, SELF_JUMP_FIRST),
    (
        b"\xC6\x05\x07\x80\x04\x08\x90\xF4",
        SELF_PATCH,
        SELF_PATCH_FIRST,
    ),
    (
        b"\x90\xC6\x05\0\x80\x04\x08\x40\xEB\xF6",
        LATE_PATCH,
        LATE_PATCH_FIRST,
    ),
    (
        b"\xA2\x05\x80\x04\x08\xF4",
        UNKNOWN_BYTE,
        UNKNOWN_BYTE_FIRST,
    ),
    (
        b"\xA2\x06\x80\x04\x08\xEB\xFE",
        UNKNOWN_OFFSET,
        UNKNOWN_OFFSET_FIRST,
    ),
    (
        b"\xB8\x01\0\0\0\xC6\x05\x01\x80\x04\x08\x02\xEB\xF2",
        NEW_NUMBER,
        NEW_NUMBER_FIRST,
    ),
    (
        b"\xB0\xF4\xC6\x05\0\x80\x04\x08\x90\xEB\xF5",
        SPLIT,
        SPLIT_FIRST,
    ),
    (
        b"\x74\x07\xC6\x05\x09\x80\x04\x08\x40\x90\xF4",
        TWO_WAYS,
        TWO_WAYS_FIRST,
    ),
];

#[test]
fn changed_code_is_followed(rt: HostRuntime) -> Result<(), Fail> {
    let alloc = rt.alloc();
    for (code, second, first) in &PATCHED {
        let file = writable_file(alloc, code)?;
        check_text(&rt, alloc, &["recover", "i"], &file, second)?;
        check_text(&rt, alloc, &["recover", "--text=2", "i"], &file, second)?;
        check_text(&rt, alloc, &["recover", "--text", "1", "i"], &file, first)?;
    }
    Ok(())
}

const UNSET_LIST: &str = "\
jakstab-list 1
format elf32
entry 08048000
segment 08048000 00000007 r-x
segment 09000000 00000072 rw-
unset 08048002 00000004
end
";

const UNSET: &str = "\
jakstab-automaton 2
entry 08048000
loc 08048000
open 08048000 code 0
end 1 0 1
";

// The relocation of the slot, at byte 159 of the file, is one of the address in the call instead, and its type, 4 bytes behind, is unknown.
#[test]
fn unset_code_is_not_known(rt: HostRuntime) -> Result<(), Fail> {
    let alloc = rt.alloc();
    let puts = [Import::new(b"puts", false)];
    let file = form_d(alloc, b"\xFF\x15\0\0\0\x09\xF4", &puts)?;
    let file = changed(file, 159, b"\x02\x80\x04\x08\x0A");
    check_text(&rt, alloc, &["list", "i"], &file, UNSET_LIST)?;
    check_text(&rt, alloc, &["recover", "i"], &file, UNSET)
}

// The slot is changed by nothing, and no executable byte is there.
const IN_DATA: &str = "\
jakstab-automaton 2
entry 08048000
loc 08048000
loc 08048005
loc 09000000
edge 08048000 08048005 B800000009 mov eax, 09000000
edge 08048005 09000000 FFE0 jmp eax
open 09000000 bytes 2
end 3 2 1
";

#[test]
fn what_may_not_be_executed_is_no_code(rt: HostRuntime) -> Result<(), Fail> {
    let alloc = rt.alloc();
    let puts = [Import::new(b"puts", false)];
    let file = form_d(alloc, b"\xB8\0\0\0\x09\xFF\xE0", &puts)?;
    check_text(&rt, alloc, &["recover", "i"], &file, IN_DATA)
}

// The byte that is stored begins instructions, and no byte is behind it.
const TOO_SHORT: &str = "\
jakstab-automaton 2
entry 08048000
loc 08048000
loc 08048007
edge 08048000 08048007 C605078004080F mov byte [08048007], 0F
open 08048007 bytes 1
end 2 1 1
";

// A number in an instruction is counted up, until its fifth value is widened away.
const WIDENED: &str = "\
jakstab-automaton 2
entry 08048000
loc 08048000
loc 08048006
loc 08048008
edge 08048000 08048006 FE0507800408 inc byte [08048007]
edge 08048006 08048008 B001 mov al, 01
edge 08048006 08048008 B002 mov al, 02
edge 08048006 08048008 B003 mov al, 03
edge 08048006 08048008 B004 mov al, 04
edge 08048008 08048000 EBF6 jmp 08048000
open 08048006 code 13
end 3 6 1
";

const BUDGET: &str = "\
jakstab-automaton 2
entry 08048000
loc 08048000
loc 08048002
edge 08048000 08048002 7400 je 08048002
open 08048002 budget 1
end 2 1 1
";

// Commands on code that may be written, and their texts.
static ENDS_OF_CODE: [(&[&str], &[u8], &str); 3] = [
    (
        &["recover", "i"],
        b"\xC6\x05\x07\x80\x04\x08\x0F\xF4",
        TOO_SHORT,
    ),
    (
        &["recover", "i", "--k", "4"],
        b"\xFE\x05\x07\x80\x04\x08\xB0\0\xEB\xF6",
        WIDENED,
    ),
    (&["recover", "i", "--budget", "1"], b"\x74\x00\xF4", BUDGET),
];

#[test]
fn code_that_ends_is_open(rt: HostRuntime) -> Result<(), Fail> {
    let alloc = rt.alloc();
    for (words, code, want) in &ENDS_OF_CODE {
        let file = writable_file(alloc, code)?;
        check_text(&rt, alloc, words, &file, want)?;
    }
    Ok(())
}
