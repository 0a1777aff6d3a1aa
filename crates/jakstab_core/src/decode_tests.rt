use crate::Status;
use crate::calls::{SURE, call, check_ended};
use crate::tests::file_with;
use outside_io::MemoryShelf;
use std::alloc::Global;
use std::process::Abort;
use std::test::Fail;
use std::thread::Threads;

// Code, the words, and the text; the file is there under three names.
static LISTED: [(&[u8], &[&str], &str); 14] = [
    (
        b"\xEB\xFF\xC0\xF4",
        &["decode", "a", "08048000", "3"],
        "jakstab-decode 1\n08048000 EBFF jmp 08048001\n08048002 notlisted 1\nend 1\n",
    ),
    (
        b"\xEB\xFF\xC0\xF4",
        &["decode", "a", "08049000", "1"],
        "jakstab-decode 1\n08049000 truncated\nend 0\n",
    ),
    (
        b"\xEB\xFF\xC0\xF4",
        &["decode", "a", "08048000", "1"],
        "jakstab-decode 1\n08048000 EBFF jmp 08048001\nend 1\n",
    ),
    (
        b"\xEB\xFF\xC0\xF4",
        &["decode", "a", "08048001", "0000100000"],
        "jakstab-decode 1\n08048001 FFC0 inc eax\n08048003 F4 hlt\n08048004 truncated\nend 2\n",
    ),
    (
        b"\xEB\xFF\xC0\xF4",
        &["decode", "a", "ffFFffFf", "1"],
        "jakstab-decode 1\nFFFFFFFF truncated\nend 0\n",
    ),
    (
        b"\x8B\x45\xF8\x64\xA5",
        &["decode", "a", "08048000", "2"],
        "jakstab-decode 1\n08048000 8B45F8 mov eax, dword [ebp+FFFFFFF8]\n08048003 64A5 movsd fs\nend 2\n",
    ),
    (
        b"\x66\x66\x90",
        &["decode", "--", "a", "08048000", "1"],
        "jakstab-decode 1\n08048000 666690 nop\nend 1\n",
    ),
    (
        b"\x66\x66\x66\x66\x66\x66\x66\x66\x66\x66\x66\x66\x66\x66\x90",
        &["decode", "a", "--", "08048000", "1"],
        "jakstab-decode 1\n08048000 666666666666666666666666666690 nop\nend 1\n",
    ),
    (
        b"\x66\x66\x66\x66\x66\x66\x66\x66\x66\x66\x66\x66\x66\x66\x66\x90",
        &["decode", "a", "08048000", "--", "1"],
        "jakstab-decode 1\n08048000 toolong\nend 0\n",
    ),
    (
        b"\x64\x65\x90",
        &["decode", "a", "08048000", "1", "--"],
        "jakstab-decode 1\n08048000 notlisted 1\nend 0\n",
    ),
    (
        b"\xF0\x01\xC0",
        &["decode", "a", "08048000", "1"],
        "jakstab-decode 1\n08048000 notlisted 2\nend 0\n",
    ),
    (
        b"\xFF",
        &["decode", "a", "08048000", "1"],
        "jakstab-decode 1\n08048000 truncated\nend 0\n",
    ),
    (
        b"\xF4",
        &["decode", "--", "-a", "08048000", "1"],
        "jakstab-decode 1\n08048000 F4 hlt\nend 1\n",
    ),
    (
        b"\xF4",
        &["decode", "-", "08048000", "1"],
        "jakstab-decode 1\n08048000 F4 hlt\nend 1\n",
    ),
];

fn check_listed<R: Abort + Threads + Sync>(
    rt: &R,
    alloc: Global,
    words: &[&str],
    code: &[u8],
    text: &str,
) -> Result<(), Fail> {
    let mut shelf = MemoryShelf::new(alloc, Vec::new(alloc));
    for name in ["a", "-a", "-"] {
        shelf.put(name, file_with(alloc, code)?)?;
    }
    let ended = call(rt, alloc, words, &mut shelf, SURE)?;
    check_ended(rt, &ended, Status::Done, text);
    Ok(())
}

#[test]
fn instructions_are_listed_up_to_the_first_fault(rt: HostRuntime) -> Result<(), Fail> {
    let alloc = rt.alloc();
    for (code, words, text) in &LISTED {
        check_listed(&rt, alloc, words, code, text)?;
    }
    Ok(())
}
