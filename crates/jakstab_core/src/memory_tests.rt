use crate::calls::{check_end, file_with};
use std::alloc::{AllocError, Global};
use std::process::Abort;
use std::test::Fail;
use std::thread::Threads;

// A switch whose table has 40 words, behind a comparison with 39.
fn switch_forty(alloc: Global) -> Result<Vec<u8>, AllocError> {
    let mut code = b"\x83\xF8\x27\x77\x07\xFF\x24\x85\x35\x80\x04\x08".to_vec(alloc)?;
    for _ in 0..41 {
        code.push(0xF4)?;
    }
    for i in 0..40u32 {
        code.extend_from_slice(&(0x0804_800D + i).to_le_bytes())?;
    }
    Ok(code)
}

// Does `recover` over code in one segment, of whose text this is to be the end.
fn check_code<R: Abort + Threads + Sync>(
    rt: &R,
    alloc: Global,
    words: &[&str],
    code: &[u8],
    end: &str,
) -> Result<(), Fail> {
    check_end(rt, alloc, words, &file_with(alloc, code)?, "", end)
}

const FIRST: &[&str] = &["recover", "--text", "1", "i"];

const FIRST_OF_FOUR: &[&str] = &["recover", "--text=1", "--k", "4", "i"];

const FIRST_OF_ELEVEN: &[&str] = &["recover", "--text=1", "--k=4", "--budget=11", "i"];

const FIRST_OF_ONE: &[&str] = &["recover", "--text=1", "--budget=1", "i"];

static WITHOUT_ROWS: [(&[&str], &[u8], &str); 8] = [
    (
        FIRST,
        b"\xFF\xE0",
        "jakstab-automaton 1\nentry 08048000\nloc 08048000\nopen 08048000 target\nend 1 0 1\n",
    ),
    (
        FIRST,
        b"\x89\x08",
        "loc 08048000\nopen 08048000 store\nend 1 0 1\n",
    ),
    (
        FIRST_OF_FOUR,
        b"\xE8\xFB\xFF\xFF\xFF",
        "open 08048000 store\nend 1 1 1\n",
    ),
    (
        FIRST,
        b"\x81\xEC\0\0\x20\0\x50",
        "open 08048006 stack\nend 2 1 1\n",
    ),
    (
        FIRST,
        b"\x74\x01\xE9\x90\x90\xF4\x00",
        "open 08F91097 bytes\nend 6 5 1\n",
    ),
    (
        FIRST,
        b"\xE9\xFB\x7F\xFB\xF7",
        "open 00000000 bytes\nend 2 1 1\n",
    ),
    (
        FIRST_OF_ELEVEN,
        b"\xB8\0\0\0\0\x40\xEB\xFD",
        "open 08048005 budget\nend 3 3 1\n",
    ),
    (
        FIRST_OF_ONE,
        b"\x74\x00\xF4",
        "open 08048002 budget\nend 2 1 1\n",
    ),
];

const TWO_CALLS: &str = "\
edge 08048000 0804800B E806000000 call 0804800B
edge 08048005 0804800B E801000000 call 0804800B
edge 0804800B 08048005 C3 ret
edge 0804800B 0804800A C3 ret
end 4 4 0
";

// The comparison bounds the index, and each target is read from the table.
const SWITCH_THREE: &str = "\
edge 08048005 0804800D FF248510800408 jmp dword [eax*4+08048010]
edge 08048005 0804800E FF248510800408 jmp dword [eax*4+08048010]
edge 08048005 0804800F FF248510800408 jmp dword [eax*4+08048010]
end 7 6 0
";

const LOOP_SELF: &str = "\
edge 08048005 08048005 E2FE loop 08048005
edge 08048005 08048007 E2FE loop 08048005
end 3 3 0
";

const REP_STOS: &str = "\
edge 08048000 08048004 8D7C24F0 lea edi, [esp+FFFFFFF0]
edge 08048004 08048009 B903000000 mov ecx, 00000003
edge 08048009 08048009 F3AA rep stosb
edge 08048009 0804800B F3AA rep stosb
end 4 4 0
";

const PLAIN: &[&str] = &["recover", "i"];

const FOUR: &[&str] = &["recover", "--k", "4", "i"];

const SIXTY_FOUR: &[&str] = &["recover", "--k", "64", "i"];

static ENDS: [(&[&str], &[u8], &str); 12] = [
    (PLAIN, b"\xE8\x06\0\0\0\xE8\x01\0\0\0\xF4\xC3", TWO_CALLS),
    (
        PLAIN,
        b"\x83\xF8\x02\x77\x07\xFF\x24\x85\x10\x80\x04\x08\xF4\xF4\xF4\xF4\x0D\x80\x04\x08\x0E\x80\x04\x08\x0F\x80\x04\x08",
        SWITCH_THREE,
    ),
    (
        PLAIN,
        b"\xFF\xE0",
        "loc 08048000\nopen 08048000 target 0\nend 1 0 1\n",
    ),
    (
        PLAIN,
        b"\x89\x08",
        "loc 08048000\nopen 08048000 store 0\nend 1 0 1\n",
    ),
    (
        PLAIN,
        b"\xC6\x05\x07\x80\x04\x08\x90\xF4",
        "loc 08048000\nend 1 0 0\n",
    ),
    (PLAIN, b"\xA3\0\0\0\0", "loc 08048000\nend 1 0 0\n"),
    (
        FOUR,
        b"\xE8\xFB\xFF\xFF\xFF",
        "open 08048000 store 4\nend 1 1 1\n",
    ),
    (
        PLAIN,
        b"\x81\xEC\0\0\x20\0\x50",
        "edge 08048000 08048006 81EC00002000 sub esp, 00200000\nopen 08048006 stack 1\nend 2 1 1\n",
    ),
    (PLAIN, b"\xB9\x02\0\0\0\xE2\xFE\xF4", LOOP_SELF),
    (
        PLAIN,
        b"\x8D\x7C\x24\xF0\xB9\x03\0\0\0\xF3\xAA\xF4",
        REP_STOS,
    ),
    (PLAIN, b"\x31\xC9\xF7\xF1\xF4", "\nend 2 1 0\n"),
    (
        PLAIN,
        b"\x31\xC0\xB9\x20\0\0\0\xD3\xE0\x74\x01\xCC\xF4",
        "edge 08048009 0804800C 7401 je 0804800C\nend 5 4 0\n",
    ),
];

#[test]
fn texts_of_memory_and_of_faults_end_so(rt: HostRuntime) -> Result<(), Fail> {
    let alloc = rt.alloc();
    let forty = switch_forty(alloc)?;
    check_code(
        &rt,
        alloc,
        PLAIN,
        &forty,
        "open 08048005 target 3\nend 4 3 1\n",
    )?;
    check_code(&rt, alloc, SIXTY_FOUR, &forty, "\nend 44 43 0\n")?;
    for (words, code, end) in &ENDS {
        check_code(&rt, alloc, words, code, end)?;
    }
    Ok(())
}

// In the first version of the text marks have no rows.
#[test]
fn texts_without_rows_end_so(rt: HostRuntime) -> Result<(), Fail> {
    let alloc = rt.alloc();
    let forty = switch_forty(alloc)?;
    check_code(
        &rt,
        alloc,
        FIRST,
        &forty,
        "open 08048005 target\nend 4 3 1\n",
    )?;
    for (words, code, end) in &WITHOUT_ROWS {
        check_code(&rt, alloc, words, code, end)?;
    }
    Ok(())
}
