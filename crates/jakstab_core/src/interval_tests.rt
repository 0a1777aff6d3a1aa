use crate::tests::{check_text, file_with, writable_file};
use std::alloc::{AllocError, Global};
use std::test::Fail;

// A comparison with 39 bounds the index of a store behind the code.
fn bounded_store(alloc: Global) -> Result<Vec<u8>, AllocError> {
    let code = b"\x83\xF8\x27\x77\x07\xC6\x80\x10\x80\x04\x08\0\xF4\xF4\xF4\xF4";
    let mut code = code.to_vec(alloc)?;
    code.resize(56, 0)?;
    Ok(code)
}

const STORED: &str = "\
jakstab-automaton 2
entry 08048000
loc 08048000
loc 08048003
loc 08048005
loc 0804800C
edge 08048000 08048003 83F827 cmp eax, 00000027
edge 08048003 08048005 7707 ja 0804800C
edge 08048003 0804800C 7707 ja 0804800C
edge 08048005 0804800C C6801080040800 mov byte [eax+08048010], 00
end 4 4 0
";

const NOT_STORED: &str = "\
jakstab-automaton 2
entry 08048000
loc 08048000
loc 08048003
loc 08048005
loc 0804800C
edge 08048000 08048003 83F827 cmp eax, 00000027
edge 08048003 08048005 7707 ja 0804800C
edge 08048003 0804800C 7707 ja 0804800C
open 08048005 store 3
end 4 3 1
";

const PUSHED: &str = "\
jakstab-automaton 2
entry 08048000
loc 08048000
edge 08048000 08048000 E8FBFFFFFF call 08048000
open 08048000 stack 4
end 1 1 1
";

#[test]
fn ranges_bound_what_is_stored(rt: HostRuntime) -> Result<(), Fail> {
    let alloc = rt.alloc();
    let interval: &[&str] = &["recover", "--domain", "interval", "i"];
    let four: &[&str] = &["recover", "--k=4", "--domain=interval", "i"];
    let file = writable_file(alloc, &bounded_store(alloc)?)?;
    check_text(&rt, alloc, interval, &file, STORED)?;
    check_text(&rt, alloc, &["recover", "i"], &file, NOT_STORED)?;
    let file = file_with(alloc, b"\xE8\xFB\xFF\xFF\xFF")?;
    check_text(&rt, alloc, four, &file, PUSHED)
}
