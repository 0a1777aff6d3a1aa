use crate::calls::{Case, Content, Ended, File, check_case, file_with, sink, words_of};
use crate::sample_files::{DAYS, GREET, square};
use crate::tables::{check_output, table_text};
use crate::tests::STUBS;
use crate::{Input, OpenGate, Status, jakstab};
use demo_images::demo;
use flow_worklist::Limits;
use image_loader::load;
use outside_io::{MemoryShelf, MemorySink};
use std::alloc::Global;
use std::process::Abort;
use std::test::Fail;
use std::thread::Threads;
use stub_file::read_stubs;
use table_check::{print_table, read_table};

const SELF_JUMP: File = ("i", Content::Code(b"\xEB\xFE"));

const JE_NEXT: File = ("i", Content::Code(b"\x74\x00\xF4"));

const JUMP_EAX: File = ("i", Content::Code(b"\xFF\xE0"));

// The table of the jump to itself; the other two have its row too.
pub const ONE_ROW: &str = "\
jakstab-table 1
k 32
row 08048000
regs a a a a e:stack:00000000 a a a
flags ??????0
end 1
";

pub const NO_ROW: &str = "\
jakstab-table 1
k 32
end 0
";

// A start whose EAX is known.
const OTHER_START: &str = "\
jakstab-table 1
k 32
row 08048000
regs 00000000 a a a e:stack:00000000 a a a
flags ??????0
end 1
";

pub const MISCOUNTED: &str = "\
jakstab-table 1
k 32
row 08048000
regs a a a a e:stack:00000000 a a a
flags ??????0
end 2
";

const TWO_ROWS: &str = "\
jakstab-table 1
k 32
row 08048000
regs a a a a e:stack:00000000 a a a
flags ??????0
row 08048002
regs a a a a e:stack:00000000 a a a
flags ??????0
end 2
";

// The second row is not expanded.
const TWO_ROWS_SPENT: &str = "\
jakstab-table 1
k 5
open 08048002
row 08048000
regs a a a a e:stack:00000000 a a a
flags ??????0
row 08048002
regs a a a a e:stack:00000000 a a a
flags ??????0
end 2
";

const MARKED: &str = "\
jakstab-table 1
k 32
open 08048000
row 08048000
regs a a a a e:stack:00000000 a a a
flags ??????0
end 1
";

// Commands on code, and the tables that they print.
static PRINTED: [Case; 5] = [
    (&["table", "i"], &[SELF_JUMP], Status::Done, ONE_ROW),
    (
        &["table", "i", "--stubs", "s"],
        &[JE_NEXT, ("s", Content::Text(""))],
        Status::Done,
        TWO_ROWS,
    ),
    (
        &["table", "i", "--k", "5", "--budget=1"],
        &[JE_NEXT],
        Status::Done,
        TWO_ROWS_SPENT,
    ),
    (&["table", "i"], &[JUMP_EAX], Status::Done, MARKED),
    (&["table", "i", "--k", "0"], &[SELF_JUMP], Status::Usage, ""),
];

#[test]
fn tables_are_printed(rt: HostRuntime) -> Result<(), Fail> {
    let alloc = rt.alloc();
    for case in &PRINTED {
        check_case(&rt, alloc, case)?;
    }
    Ok(())
}

const CHECK: &[&str] = &["check", "i", "t"];

// Checks of tables.
static CHECKED: [Case; 11] = [
    (
        CHECK,
        &[SELF_JUMP, ("t", Content::Text(ONE_ROW))],
        Status::Done,
        "yes 1 1\n",
    ),
    (
        CHECK,
        &[SELF_JUMP, ("t", Content::Text(NO_ROW))],
        Status::VerdictNo,
        "no 0 1\n",
    ),
    (
        CHECK,
        &[SELF_JUMP, ("t", Content::Text(OTHER_START))],
        Status::VerdictNo,
        "no 0 1\n",
    ),
    (
        CHECK,
        &[SELF_JUMP, ("t", Content::Text(MISCOUNTED))],
        Status::InputRefused { line: 6, kind: 5 },
        "",
    ),
    (
        CHECK,
        &[SELF_JUMP, ("t", Content::Text(""))],
        Status::InputRefused { line: 1, kind: 7 },
        "",
    ),
    (
        CHECK,
        &[JE_NEXT, ("t", Content::Text(TWO_ROWS))],
        Status::Done,
        "yes 2 1\n",
    ),
    (
        CHECK,
        &[JE_NEXT, ("t", Content::Text(TWO_ROWS_SPENT))],
        Status::Done,
        "yes 2 1\n",
    ),
    (
        CHECK,
        &[JE_NEXT, ("t", Content::Text(ONE_ROW))],
        Status::VerdictNo,
        "no 0 3\n",
    ),
    (
        CHECK,
        &[JUMP_EAX, ("t", Content::Text(MARKED))],
        Status::Done,
        "yes 1 0\n",
    ),
    (
        CHECK,
        &[JUMP_EAX, ("t", Content::Text(ONE_ROW))],
        Status::VerdictNo,
        "no 0 2\n",
    ),
    (CHECK, &[SELF_JUMP], Status::ReadFault(Input::First), ""),
];

#[test]
fn tables_are_checked(rt: HostRuntime) -> Result<(), Fail> {
    let alloc = rt.alloc();
    for case in &CHECKED {
        check_case(&rt, alloc, case)?;
    }
    Ok(())
}

// The most bytes of a table here.
const ROOM: usize = 262_144;

// Does a command over a shelf, with room for a long table.
fn call_long<R: Threads + Sync>(
    rt: &R,
    alloc: Global,
    words: &[&str],
    shelf: &mut MemoryShelf,
) -> Result<Ended, Fail> {
    let words = words_of(alloc, words)?;
    let mut out = MemorySink::new(alloc, ROOM, ROOM, Vec::new(alloc))?;
    let mut note = sink(alloc, 4096, Vec::new(alloc))?;
    let status = jakstab(rt, alloc, &words, shelf, &mut out, &mut note, &OpenGate);
    Ok(Ended { status, out, note })
}

// What `check` writes of the table that `table` prints of a file is yes, and ends so.
fn check_round<R: Abort + Threads + Sync>(
    rt: &R,
    alloc: Global,
    file: &[u8],
    stubs: &str,
    end: &str,
) -> Result<(), Fail> {
    let mut shelf = MemoryShelf::new(alloc, Vec::new(alloc));
    shelf.put("i", Vec::from_slice(alloc, file)?)?;
    shelf.put("s", Vec::from_slice(alloc, stubs.as_bytes())?)?;
    let told = call_long(rt, alloc, &["table", "i", "--stubs", "s"], &mut shelf)?;
    assert_eq!(rt; told.status, Status::Done, "{end}");
    shelf.put("t", Vec::from_slice(alloc, told.out.written())?)?;
    let ended = call_long(rt, alloc, &["check", "--stubs=s", "i", "t"], &mut shelf)?;
    assert_eq!(rt; ended.status, Status::Done, "{end}");
    let line = ended.out.written();
    assert!(rt; line.starts_with(b"yes "), "{end}");
    assert!(rt; line.ends_with(end.as_bytes()), "{end}");
    Ok(())
}

// The edges are those of the automaton, and where each location has one row the rows are its locations.
#[test]
fn tables_of_samples_are_closed(rt: HostRuntime) -> Result<(), Fail> {
    let alloc = rt.alloc();
    let square = square(alloc)?;
    let self_jump = file_with(alloc, b"\xEB\xFE")?;
    check_round(&rt, alloc, &self_jump, "", "yes 1 1\n")?;
    check_round(&rt, alloc, &square, "", "yes 3 2\n")?;
    check_round(&rt, alloc, &GREET, "", "yes 5 4\n")?;
    check_round(&rt, alloc, &GREET, STUBS, " 24\n")?;
    check_round(&rt, alloc, &DAYS, "", " 65\n")
}

// The demo of 200 blocks has 4,803 rows and 3,601 edges. Its table is read and printed again, and is closed.
#[test]
fn the_table_of_a_demo_is_closed(rt: HostRuntime) -> Result<(), Fail> {
    let alloc = rt.alloc();
    let (file, stub_file) = demo(alloc, 200).ok().ok_or("no demo")?;
    let stubs = read_stubs(alloc, &stub_file).ok().ok_or("no stubs")?;
    let loaded = load(alloc, &file).ok().ok_or("no image")?;
    let image = loaded.bind(alloc, &stubs)?;
    let limits = Limits {
        k: 32,
        budget: 100_000,
    };
    let text = table_text(&rt, alloc, &image, &stubs, limits, &OpenGate)?;
    let again = read_table(alloc, &image, &text).ok().ok_or("not read")?;
    assert_eq!(rt; print_table(alloc, &again)?.as_slice(), text.as_slice());
    let answer = check_output(&rt, alloc, &image, &stubs, &text);
    let output = answer.ok().ok_or("not checked")?;
    assert_eq!(rt; output.text.as_slice(), b"yes 4803 3601\n".as_slice());
    Ok(())
}
