use crate::calls::{Case, Content, check_case};
use crate::tests::{check_text, writable_file};
use crate::{Input, Status};
use std::test::Fail;

const SELF_JUMP: &str = "\
jakstab-list 1
format elf32
entry 08048000
segment 08048000 00000002 r-x
end
";

const CHANGING: &str = "\
jakstab-list 1
format elf32
entry 08048000
segment 08048000 00000002 rwx
end
";

const MALLOC_BLOCK: &str = "\
jakstab-list 1
format elf32
entry 08048000
segment 08048000 0000000C r-x
segment 09000000 00000074 rw-
import F0000010 malloc stub
end
";

const MALLOC_BLOCK_ALONE: &str = "\
jakstab-list 1
format elf32
entry 08048000
segment 08048000 0000000C r-x
segment 09000000 00000074 rw-
import F0000010 malloc nostub
end
";

const PE_EXIT: &str = "\
jakstab-list 1
format pe32
entry 00401000
segment 00400000 00000118 r--
segment 00401000 00000009 r-x
segment 00402000 00000054 rw-
import F0000010 ExitProcess stub
import F0000020 k.dll#7 nostub
end
";

const MALLOC_STUB: &str = "\
[stub.malloc]
args = 4
reply = \"block\"
size_arg = 0
may_fail = true
";

const EXIT_STUB: &str = "\
[stub.ExitProcess]
args = 4
cleans = 4
reply = \"never\"
";

const CALL_MALLOC: &[u8] = b"\x6A\x08\xFF\x15\0\0\0\x09\xC6\0\x01\xF4";

const EXIT: &[u8] = b"\x6A\0\xFF\x15\x34\x20\x40\0\xCC";

static LISTS: [Case; 5] = [
    (
        &["list", "i"],
        &[("i", Content::Code(b"\xEB\xFE"))],
        Status::Done,
        SELF_JUMP,
    ),
    (
        &["list", "--stubs", "s", "i"],
        &[
            ("i", Content::Importing(CALL_MALLOC, b"malloc")),
            ("s", Content::Text(MALLOC_STUB)),
        ],
        Status::Done,
        MALLOC_BLOCK,
    ),
    (
        &["list", "i", "--stubs=s"],
        &[
            ("i", Content::Importing(CALL_MALLOC, b"malloc")),
            ("s", Content::Text(EXIT_STUB)),
        ],
        Status::Done,
        MALLOC_BLOCK_ALONE,
    ),
    (
        &["list", "--", "i"],
        &[("i", Content::Importing(CALL_MALLOC, b"malloc"))],
        Status::Done,
        MALLOC_BLOCK_ALONE,
    ),
    (
        &["list", "i", "--stubs", "s"],
        &[("i", Content::Pe(EXIT)), ("s", Content::Text(EXIT_STUB))],
        Status::Done,
        PE_EXIT,
    ),
];

#[test]
fn images_are_listed_with_their_imports(rt: HostRuntime) -> Result<(), Fail> {
    let alloc = rt.alloc();
    for case in &LISTS {
        check_case(&rt, alloc, case)?;
    }
    let file = writable_file(alloc, b"\xEB\xFE")?;
    check_text(&rt, alloc, &["list", "i"], &file, CHANGING)
}

const LIST: &[&str] = &["list", "--stubs", "s", "i"];

// A stub file is read after the image, and refused for its first fault.
static REFUSED: [Case; 8] = [
    (
        LIST,
        &[("i", Content::Code(b"\xEB\xFE")), ("s", Content::Text("["))],
        Status::StubsRefused(1),
        "",
    ),
    (
        LIST,
        &[
            ("i", Content::Code(b"\xEB\xFE")),
            (
                "s",
                Content::Text("[stub.f]\nargs = 4\nreply = \"any\"\ncolour = 1\n"),
            ),
        ],
        Status::StubsRefused(2),
        "",
    ),
    (
        LIST,
        &[
            ("i", Content::Code(b"\xEB\xFE")),
            ("s", Content::Text("[stub.f]\nargs = 4\n")),
        ],
        Status::StubsRefused(3),
        "",
    ),
    (
        LIST,
        &[
            ("i", Content::Code(b"\xEB\xFE")),
            ("s", Content::Text("[stub.f]\nargs = 6\nreply = \"any\"\n")),
        ],
        Status::StubsRefused(4),
        "",
    ),
    (
        LIST,
        &[
            ("i", Content::Code(b"\xEB\xFE")),
            (
                "s",
                Content::Text("[stub.f]\nargs = 4\nreply = \"block\"\nsize = 8\nsize_arg = 0\n"),
            ),
        ],
        Status::StubsRefused(5),
        "",
    ),
    (
        LIST,
        &[("i", Content::Bytes(b"MZ"))],
        Status::ImageRefused(101),
        "",
    ),
    (
        LIST,
        &[("i", Content::Bytes(b""))],
        Status::ImageRefused(200),
        "",
    ),
    (
        LIST,
        &[("i", Content::Code(b"\xEB\xFE"))],
        Status::ReadFault(Input::Stubs),
        "",
    ),
];

#[test]
fn stub_files_are_read_after_the_image(rt: HostRuntime) -> Result<(), Fail> {
    let alloc = rt.alloc();
    for case in &REFUSED {
        check_case(&rt, alloc, case)?;
    }
    Ok(())
}
