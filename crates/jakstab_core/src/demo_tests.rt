use crate::tests::check_text;
use std::test::Fail;

// The number of blocks, and the line: 24n + 3 rows, 14n + 2 locations and 18n + 1 edges for n blocks, n at least 1.
const SUMMARIES: [(&str, &str); 6] = [
    ("0", "demo 0 rows 2 locations 2 edges 1 opens 0\n"),
    ("1", "demo 1 rows 27 locations 16 edges 19 opens 0\n"),
    ("2", "demo 2 rows 51 locations 30 edges 37 opens 0\n"),
    ("03", "demo 3 rows 75 locations 44 edges 55 opens 0\n"),
    (
        "100",
        "demo 100 rows 2403 locations 1402 edges 1801 opens 0\n",
    ),
    (
        "2000",
        "demo 2000 rows 48003 locations 28002 edges 36001 opens 0\n",
    ),
];

#[test]
fn demo_images_are_summed_up(rt: HostRuntime) -> Result<(), Fail> {
    let alloc = rt.alloc();
    for (blocks, want) in SUMMARIES {
        check_text(&rt, alloc, &["demo", blocks], b"", want)?;
    }
    Ok(())
}

// One row is expanded, which is the first instruction; the next one is open.
#[test]
fn a_spent_budget_is_told(rt: HostRuntime) -> Result<(), Fail> {
    let alloc = rt.alloc();
    let words: &[&str] = &["demo", "--budget", "1", "2"];
    let want = "demo 2 rows 2 locations 2 edges 1 opens 1\n";
    check_text(&rt, alloc, words, b"", want)
}
