use crate::tests::{check_text, file_with};
use std::test::Fail;

// The least bit of 16 has the index 4, so the `je` is taken.
const BIT_SCAN: &str = "\
jakstab-automaton 2
entry 08048000
loc 08048000
loc 08048005
loc 08048008
loc 0804800B
loc 0804800E
edge 08048000 08048005 B810000000 mov eax, 00000010
edge 08048005 08048008 0FBCC8 bsf ecx, eax
edge 08048008 0804800B 83F904 cmp ecx, 00000004
edge 0804800B 0804800E 7401 je 0804800E
end 5 4 0
";

// EAX is 0 and ECX is 5: EAX becomes 5, and the `int3` is stepped over.
const COMPARE_EXCHANGE: &str = "\
jakstab-automaton 2
entry 08048000
loc 08048000
loc 08048002
loc 08048007
loc 0804800C
loc 0804800F
loc 08048012
loc 08048015
edge 08048000 08048002 31C0 xor eax, eax
edge 08048002 08048007 B905000000 mov ecx, 00000005
edge 08048007 0804800C BA07000000 mov edx, 00000007
edge 0804800C 0804800F 0FB1D1 cmpxchg ecx, edx
edge 0804800F 08048012 83F805 cmp eax, 00000005
edge 08048012 08048015 7401 je 08048015
end 7 6 0
";

const RECOVER: &[&str] = &["recover", "i"];

const DECODE: &[&str] = &["decode", "i", "08048000", "1"];

// Commands on code, and their texts.
static TEXTS: [(&[&str], &[u8], &str); 7] = [
    (
        RECOVER,
        b"\xB8\x10\0\0\0\x0F\xBC\xC8\x83\xF9\x04\x74\x01\x0F\xF4",
        BIT_SCAN,
    ),
    (
        RECOVER,
        b"\x31\xC0\xB9\x05\0\0\0\xBA\x07\0\0\0\x0F\xB1\xD1\x83\xF8\x05\x74\x01\xCC\xF4",
        COMPARE_EXCHANGE,
    ),
    (
        DECODE,
        b"\x0F\xA4\xC8\x04",
        "jakstab-decode 1\n08048000 0FA4C804 shld eax, ecx, 04\nend 1\n",
    ),
    (
        DECODE,
        b"\xF0\x0F\xB1\x0B",
        "jakstab-decode 1\n08048000 F00FB10B lock cmpxchg dword [ebx], ecx\nend 1\n",
    ),
    (
        DECODE,
        b"\x0F\xBA\xE0\x1F",
        "jakstab-decode 1\n08048000 0FBAE01F bt eax, 1F\nend 1\n",
    ),
    (
        DECODE,
        b"\x0F\xA3\x08",
        "jakstab-decode 1\n08048000 notlisted 2\nend 0\n",
    ),
    (
        DECODE,
        b"\xF3\x0F\xBC\xC1",
        "jakstab-decode 1\n08048000 notlisted 2\nend 0\n",
    ),
];

#[test]
fn the_second_list_is_decoded_and_followed(rt: HostRuntime) -> Result<(), Fail> {
    let alloc = rt.alloc();
    for (words, code, want) in &TEXTS {
        check_text(&rt, alloc, words, &file_with(alloc, code)?, want)?;
    }
    Ok(())
}
