use crate::calls::{Case, Content, File, check_case};
use crate::tests::{OVERLAP, SELF_JUMP};
use crate::{Input, Status};
use std::test::Fail;

// A jump into itself, whose second byte begins `inc eax`, and then `hlt`.
pub const CODE: &[u8] = b"\xEB\xFF\xC0\xF4";

pub const START: &str = "\
jakstab-start 1
regs 00000000 00000000 00000000 00000000 BFFF0000 00000000 00000000 00000000
flags 000000
bases 10000000 20000000
end
";

pub const UNALIGNED_START: &str = "\
jakstab-start 1
regs 00000000 00000000 00000000 00000000 BFFF0004 00000000 00000000 00000000
flags 000000
bases 10000000 20000000
end
";

const LOW_START: &str = "\
jakstab-start 1
regs 00000000 00000000 00000000 00000000 00100000 00000000 00000000 00000000
flags 000000
bases 10000000 20000000
end
";

const MEETING_START: &str = "\
jakstab-start 1
regs 00000000 00000000 00000000 00000000 BFFF0000 00000000 00000000 00000000
flags 000000
bases 10000000 10001000
end
";

const START_IN_CODE: &str = "\
jakstab-start 1
regs 00000000 00000000 00000000 00000000 BFFF0000 00000000 00000000 00000000
flags 000000
bases 10000000 20000000
fill 08048000 90
end
";

const START_IN_CODE_LATER: &str = "\
jakstab-start 1
regs 00000000 00000000 00000000 00000000 BFFF0000 00000000 00000000 00000000
flags 000000
bases 10000000 20000000
fill 10000000 90
fill 08048000 90
end
";

const START_WITHOUT_BYTES: &str = "\
jakstab-start 1
regs 00000000 00000000 00000000 00000000 BFFF0000 00000000 00000000 00000000
flags 000000
bases 10000000 20000000
fill 10000000
end
";

pub const RECORD: &str = "\
jakstab-record 1
regs 00000000 00000000 00000000 00000000 BFFF0000 00000000 00000000 00000000
flags 000000
bases 10000000 20000000
step 08048000 08048001 00 00000000 00000000 00000000 00000000 0
step 08048001 08048003 00 00000000 00000000 00000000 00000000 0
end faulted
";

const RECORD_OF_TWO: &str = "\
jakstab-record 1
regs 00000000 00000000 00000000 00000000 BFFF0000 00000000 00000000 00000000
flags 000000
bases 10000000 20000000
step 08048000 08048001 00 00000000 00000000 00000000 00000000 0
step 08048001 08048003 00 00000000 00000000 00000000 00000000 0
end steps
";

const RECORD_OF_ONE: &str = "\
jakstab-record 1
regs 00000000 00000000 00000000 00000000 BFFF0000 00000000 00000000 00000000
flags 000000
bases 10000000 20000000
step 08048000 08048001 00 00000000 00000000 00000000 00000000 0
end steps
";

const RECORD_OF_NONE: &str = "\
jakstab-record 1
regs 00000000 00000000 00000000 00000000 BFFF0000 00000000 00000000 00000000
flags 000000
bases 10000000 20000000
end steps
";

// The second step leads elsewhere.
pub const OTHER_RECORD: &str = "\
jakstab-record 1
regs 00000000 00000000 00000000 00000000 BFFF0000 00000000 00000000 00000000
flags 000000
bases 10000000 20000000
step 08048000 08048001 00 00000000 00000000 00000000 00000000 0
step 08048001 08048002 00 00000000 00000000 00000000 00000000 0
end faulted
";

pub const UNALIGNED_RECORD: &str = "\
jakstab-record 1
regs 00000000 00000000 00000000 00000000 BFFF0004 00000000 00000000 00000000
flags 000000
bases 10000000 20000000
step 08048000 08048001 00 00000000 00000000 00000000 00000000 0
step 08048001 08048003 00 00000000 00000000 00000000 00000000 0
end faulted
";

const RECORD_IN_CODE: &str = "\
jakstab-record 1
regs 00000000 00000000 00000000 00000000 BFFF0000 00000000 00000000 00000000
flags 000000
bases 10000000 20000000
fill 08048000 90
step 08048000 08048001 00 00000000 00000000 00000000 00000000 0
step 08048001 08048003 00 00000000 00000000 00000000 00000000 0
end faulted
";

const RECORD_WITHOUT_END: &str = "\
jakstab-record 1
regs 00000000 00000000 00000000 00000000 BFFF0000 00000000 00000000 00000000
flags 000000
bases 10000000 20000000
";

const OVERLAP_OF_VERSION_1: &str = "\
jakstab-automaton 1
entry 08048000
loc 08048000
loc 08048001
loc 08048003
edge 08048000 08048001 EBFF jmp 08048001
edge 08048001 08048003 FFC0 inc eax
end 3 2 0
";

const WRONG_COUNT: &str = "\
jakstab-automaton 1
entry 08048000
loc 08048000
edge 08048000 08048000 EBFE jmp 08048000
end 1 2 0
";

const OPEN: &str = "\
jakstab-automaton 1
entry 08048000
loc 08048000
open 08048000 target
end 1 0 1
";

const NO_DIGIT: &str = "jakstab-automaton 1\nentry 0804800\n";

// The image, an empty stub file, the start file, the automaton and the record.
const I: File = ("i", Content::Code(CODE));

const S: File = ("s", Content::Bytes(b""));

const T: File = ("t", Content::Text(START));

const A: File = ("a", Content::Text(OVERLAP));

const R: File = ("r", Content::Text(RECORD));

const TEN: &[&str] = &["run", "i", "t", "10"];

static RUNS: [Case; 14] = [
    (TEN, &[I, T], Status::Done, RECORD),
    (
        &["run", "i", "t", "2"],
        &[I, T],
        Status::Done,
        RECORD_OF_TWO,
    ),
    (
        &["run", "i", "--stubs", "s", "t", "1"],
        &[I, S, T],
        Status::Done,
        RECORD_OF_ONE,
    ),
    (
        &["run", "i", "t", "0"],
        &[I, T],
        Status::Done,
        RECORD_OF_NONE,
    ),
    (
        TEN,
        &[I, ("t", Content::Text(UNALIGNED_START))],
        Status::InputRefused { line: 2, kind: 11 },
        "",
    ),
    (
        TEN,
        &[I, ("t", Content::Text(LOW_START))],
        Status::InputRefused { line: 4, kind: 12 },
        "",
    ),
    (
        TEN,
        &[I, ("t", Content::Text(MEETING_START))],
        Status::InputRefused { line: 4, kind: 13 },
        "",
    ),
    (
        TEN,
        &[I, ("t", Content::Text(START_IN_CODE))],
        Status::InputRefused { line: 5, kind: 14 },
        "",
    ),
    (
        TEN,
        &[I, ("t", Content::Text(START_IN_CODE_LATER))],
        Status::InputRefused { line: 6, kind: 14 },
        "",
    ),
    (
        TEN,
        &[I, ("t", Content::Text(START_WITHOUT_BYTES))],
        Status::InputRefused { line: 5, kind: 3 },
        "",
    ),
    (
        &["run", "i", "r", "10"],
        &[I, R],
        Status::InputRefused { line: 1, kind: 1 },
        "",
    ),
    (&["run", "i", "t", "1000001"], &[I, T], Status::Usage, ""),
    (
        &["run", "i", "x", "1"],
        &[I, T],
        Status::ReadFault(Input::First),
        "",
    ),
    (
        &["run", "x", "t", "1"],
        &[I, T],
        Status::ReadFault(Input::Image),
        "",
    ),
];

#[test]
fn runs_are_recorded_or_do_not_begin(rt: HostRuntime) -> Result<(), Fail> {
    let alloc = rt.alloc();
    for case in &RUNS {
        check_case(&rt, alloc, case)?;
    }
    Ok(())
}

const REPLAY: &[&str] = &["replay", "i", "a", "r"];

static REPLAYS: [Case; 14] = [
    (REPLAY, &[I, A, R], Status::Done, "inside 2\n"),
    (
        &["replay", "--stubs=s", "i", "a", "r"],
        &[I, S, ("a", Content::Text(OVERLAP_OF_VERSION_1)), R],
        Status::Done,
        "inside 2\n",
    ),
    (
        REPLAY,
        &[I, A, ("r", Content::Text(RECORD_OF_NONE))],
        Status::Done,
        "inside 0\n",
    ),
    (
        REPLAY,
        &[
            I,
            ("a", Content::Text(OPEN)),
            ("r", Content::Text(RECORD_OF_NONE)),
        ],
        Status::Done,
        "open 0 08048000\n",
    ),
    (
        REPLAY,
        &[I, A, ("r", Content::Text(OTHER_RECORD))],
        Status::VerdictNo,
        "notarun 1 to\n",
    ),
    (
        REPLAY,
        &[I, ("a", Content::Text(SELF_JUMP)), R],
        Status::VerdictNo,
        "notanedge 0 08048000 08048001\n",
    ),
    (
        REPLAY,
        &[I, ("a", Content::Text(WRONG_COUNT)), R],
        Status::InputRefused { line: 5, kind: 5 },
        "",
    ),
    (
        REPLAY,
        &[I, A, ("r", Content::Text(UNALIGNED_RECORD))],
        Status::InputRefused { line: 2, kind: 11 },
        "",
    ),
    (
        REPLAY,
        &[
            I,
            ("a", Content::Text(NO_DIGIT)),
            ("r", Content::Text(UNALIGNED_RECORD)),
        ],
        Status::InputRefused { line: 2, kind: 3 },
        "",
    ),
    (
        REPLAY,
        &[I, A, ("r", Content::Text(RECORD_IN_CODE))],
        Status::InputRefused { line: 5, kind: 14 },
        "",
    ),
    (
        REPLAY,
        &[I, A, ("r", Content::Text(RECORD_WITHOUT_END))],
        Status::InputRefused { line: 5, kind: 7 },
        "",
    ),
    (
        &["replay", "i", "r", "a"],
        &[I, A, R],
        Status::InputRefused { line: 1, kind: 1 },
        "",
    ),
    (
        &["replay", "i", "a", "x"],
        &[I, A, R],
        Status::ReadFault(Input::Second),
        "",
    ),
    (
        &["replay", "i", "x", "r"],
        &[I, A, R],
        Status::ReadFault(Input::First),
        "",
    ),
];

#[test]
fn records_are_replayed_to_their_verdicts(rt: HostRuntime) -> Result<(), Fail> {
    let alloc = rt.alloc();
    for case in &REPLAYS {
        check_case(&rt, alloc, case)?;
    }
    Ok(())
}

const JE_NEXT_SPENT: &str = "\
jakstab-automaton 2
entry 08048000
loc 08048000
loc 08048002
edge 08048000 08048002 7400 je 08048002
open 08048002 budget 1
end 2 1 1
";

static BUDGETS: [Case; 8] = [
    (
        &["recover", "i", "--budget", "1"],
        &[("i", Content::Code(b"\x74\x00\xF4"))],
        Status::Done,
        JE_NEXT_SPENT,
    ),
    (&["recover", "i", "--budget", "0"], &[I], Status::Usage, ""),
    (&["recover"], &[I], Status::Usage, ""),
    (
        &["recover", "i", "--k", "1", "--k", "2"],
        &[I],
        Status::Usage,
        "",
    ),
    (&["demo", "2001"], &[], Status::Usage, ""),
    (&["run", "i", "t"], &[I, T], Status::Usage, ""),
    (&["replay", "i", "a"], &[I, A, R], Status::Usage, ""),
    (
        &["replay", "i", "a", "r", "--k", "1"],
        &[I, A, R],
        Status::Usage,
        "",
    ),
];

#[test]
fn budgets_are_told_and_other_words_are_refused(rt: HostRuntime) -> Result<(), Fail> {
    let alloc = rt.alloc();
    for case in &BUDGETS {
        check_case(&rt, alloc, case)?;
    }
    Ok(())
}
