use crate::calls::{Content, check_end};
use crate::sample_files::GREET;
use std::test::Fail;

const MALLOC: &str = "[stub.malloc]\nargs = 4\nreply = \"block\"\nsize_arg = 0\nmay_fail = true\n";

// The row with EAX 0 faults.
const MALLOC_BLOCK: &str = "\
jakstab-automaton 2
entry 08048000
loc 08048000
loc 08048002
loc 08048008
loc 0804800B
loc F0000010 malloc
edge 08048000 08048002 6A08 push 00000008
edge 08048002 F0000010 FF1500000009 call dword [09000000]
edge 08048008 0804800B C60001 mov byte [eax], 01
edge F0000010 08048008 import malloc
end 5 4 0
";

const FILL: &str = "[stub.fill]\nargs = 4\nreply = \"any\"\n";

const FILL_WRITES: &str =
    "[stub.fill]\nargs = 4\nreply = \"any\"\nwrites = [{arg = 0, length = 4}]\n";

// The address that ESP had is what is written through, so the return address is not known.
const WRITTEN: &str = "\
edge F0000010 0804800C import fill
open 0804800D target 5
end 6 5 1
";

const UNWRITTEN: &str = "\
edge 0804800D 0804800F C3 ret
edge F0000010 0804800C import fill
end 7 6 0
";

const MAIN: &str = "[stub.__libc_start_main]\nargs = 28\nreply = \"enter\"\nenter_arg = 0\n";

const CALL_MALLOC: &[u8] = b"\x6A\x08\xFF\x15\0\0\0\x09\xC6\0\x01\xF4";

const CALL_FILL: &[u8] = b"\x68\x0F\x80\x04\x08\x54\xFF\x15\0\0\0\x09\x59\xC3\x90\xF4";

const CALL_EXIT: &[u8] = b"\x6A\0\xFF\x15\x34\x20\x40\0\xCC";

// A program that hands `main` to its library, and a `main` with a table of jumps.
const MAIN_CODE: &[u8] =
    b"\x31\xED\x5E\x89\xE1\x83\xE4\xF0\x50\x54\x52\x6A\x00\x6A\x00\x51\x56\x68\x20\x80\x04\x08\xFF\x15\x00\x00\x00\x09\xF4\x90\x90\x90\
\x55\x89\xE5\x83\xE4\xF0\x83\xEC\x10\x65\xA1\x14\x00\x00\x00\x89\x44\x24\x0C\x8B\x45\x08\x83\xF8\x02\x77\x07\xFF\x24\x85\x50\x80\x04\x08\xC9\xC3\x31\xC0\xC9\xC3\xB8\x01\x00\x00\x00\xC9\xC3\x90\
\x42\x80\x04\x08\x44\x80\x04\x08\x48\x80\x04\x08";

const LIBC_MAIN: &str = "\
edge F0000010 08048020 import __libc_start_main
end 33 35 0
";

const EXIT: &str = "[stub.ExitProcess]\nargs = 4\ncleans = 4\nreply = \"never\"\n";

const PE_EXIT: &str = "\
jakstab-automaton 2
entry 00401000
loc 00401000
loc 00401002
loc F0000010 ExitProcess
edge 00401000 00401002 6A00 push 00000000
edge 00401002 F0000010 FF1534204000 call dword [00402034]
end 3 2 0
";

const GREET_STUBS: &str =
    "[stub.malloc]\nargs = 4\nreply = \"block\"\nsize_arg = 0\nmay_fail = true\n\n[stub.puts]\nargs = 4\nreply = \"any\"\n\n[stub.exit]\nargs = 4\nreply = \"never\"\n";

// `malloc` returns behind its call, `puts` behind its own, and `exit` does not.
const GREETED: &str = "\
edge F0000010 08048210 import puts
edge F0000020 080481EA import malloc
end 26 27 0
";

const WITH_STUBS: &[&str] = &["recover", "--stubs", "s", "i"];

// Without places in the stack the first push is open, before any import.
const FLAT: &[&str] = &["recover", "--domain", "flat", "--stubs=s", "i"];

// Code that calls an import, the import, the words, the stub file, and how the text ends.
static CALLS: [(&[u8], &[u8], &[&str], &str, &str); 6] = [
    (CALL_MALLOC, b"malloc", WITH_STUBS, MALLOC, MALLOC_BLOCK),
    (
        CALL_MALLOC,
        b"malloc",
        FLAT,
        MALLOC,
        "loc 08048000\nopen 08048000 store 0\nend 1 0 1\n",
    ),
    (
        CALL_MALLOC,
        b"calloc",
        WITH_STUBS,
        MALLOC,
        "open F0000010 nostub 2\nend 3 2 1\n",
    ),
    (CALL_FILL, b"fill", WITH_STUBS, FILL_WRITES, WRITTEN),
    (CALL_FILL, b"fill", WITH_STUBS, FILL, UNWRITTEN),
    (MAIN_CODE, b"__libc_start_main", WITH_STUBS, MAIN, LIBC_MAIN),
];

#[test]
fn imports_are_followed_by_their_stubs(rt: HostRuntime) -> Result<(), Fail> {
    let alloc = rt.alloc();
    for (code, name, words, stubs, end) in &CALLS {
        let file = Content::Importing(code, name).bytes(alloc)?;
        check_end(&rt, alloc, words, &file, stubs, end)?;
    }
    Ok(())
}

#[test]
fn functions_that_do_not_return_lead_nowhere(rt: HostRuntime) -> Result<(), Fail> {
    let alloc = rt.alloc();
    let file = Content::Pe(CALL_EXIT).bytes(alloc)?;
    check_end(&rt, alloc, WITH_STUBS, &file, EXIT, PE_EXIT)?;
    check_end(&rt, alloc, WITH_STUBS, &GREET, GREET_STUBS, GREETED)
}
