ghost use Rattle.std.specs.Prelude.{◌<◌};

use crate::calls::{file_with, sink, words_of};
use crate::inputs::{laid_out, stated_stubs};
use crate::{Gate, OpenGate, Status, jakstab};
use bounded_values::Bounded;
use demo_images::demo;
use flow_worklist::{Limits, Log, Row, explore_in};
use image_loader::Image;
use outside_io::MemoryShelf;
use std::alloc::Global;
use std::process::Abort;
use std::sync::atomic::{AtomicBool, Ordering};
use std::test::Fail;
use std::thread;
use std::thread::Threads;
use stub_file::Stubs;

// How often a thread looks for the other one.
const TURNS: u32 = 100_000_000;

// A row that waits for another one.
#[derive(Drop)]
struct Meeting {
    row: u32,
    is_here: AtomicBool,
    saw_other: AtomicBool,
}

impl Meeting {
    fn of(row: u32) -> Meeting {
        Meeting {
            row,
            is_here: AtomicBool::new(false),
            saw_other: AtomicBool::new(false),
        }
    }

    // Comes, and looks for the other one until it is there too or the turns are spent. Now and then it lets other threads run.
    fn wait_for(&self, other: &Meeting) {
        self.is_here.store(true, Ordering::SeqCst);
        for turn in 0..TURNS {
            if other.is_here.load(Ordering::SeqCst) {
                self.saw_other.store(true, Ordering::SeqCst);
                return;
            }
            if turn % 1_024 == 0 {
                thread::yield_now();
            }
        }
    }
}

// A gate at which two rows wait for each other.
#[derive(Drop)]
struct MeetGate {
    first: Meeting,
    second: Meeting,
}

impl MeetGate {
    fn of(first: u32, second: u32) -> MeetGate {
        MeetGate {
            first: Meeting::of(first),
            second: Meeting::of(second),
        }
    }

    // Whether each of the two saw the other.
    fn met(&self) -> bool {
        self.first.saw_other.load(Ordering::SeqCst) && self.second.saw_other.load(Ordering::SeqCst)
    }
}

impl Gate for MeetGate {
    fn enter(&self, row: u32) {
        if row == self.first.row {
            self.first.wait_for(&self.second);
        } else if row == self.second.row {
            self.second.wait_for(&self.first);
        }
    }
}

// The `jbe` leads to the last `hlt` with 127 values of EAX, and to the first one with any.
const MET: &str = "\
jakstab-automaton 2
entry 08048000
loc 08048000
loc 08048003
loc 08048005
loc 08048006
edge 08048000 08048003 83F87E cmp eax, 0000007E
edge 08048003 08048005 7601 jbe 08048006
edge 08048003 08048006 7601 jbe 08048006
end 4 3 0
";

// Rows 2 to 129 are one round of two pieces, which begin with the rows 2 and 66.
#[test]
fn two_threads_meet(rt: HostRuntime) -> Result<(), Fail> {
    let alloc = rt.alloc();
    let gate = MeetGate::of(2, 66);
    let mut shelf = MemoryShelf::new(alloc, Vec::new(alloc));
    shelf.put("i", file_with(alloc, b"\x83\xF8\x7E\x76\x01\xF4\xF4")?)?;
    let mut out = sink(alloc, 4096, Vec::new(alloc))?;
    let mut note = sink(alloc, 4096, Vec::new(alloc))?;
    let words = words_of(alloc, &["recover", "i", "--k", "1024"])?;
    let status = jakstab(&rt, alloc, &words, &mut shelf, &mut out, &mut note, &gate);
    assert_eq!(rt; status, Status::Done);
    assert_eq!(rt; out.written(), MET.as_bytes());
    assert!(rt; gate.met(), "two threads met");
    Ok(())
}

// The demo image of 3 blocks, with its stubs.
fn demo_image(alloc: Global) -> Result<(Image, Stubs), Status> {
    let Ok((file, stubs)) = demo(alloc, 3) else {
        return Err(Status::Usage);
    };
    let stubs = stated_stubs(alloc, &stubs)?;
    match laid_out(alloc, &file)?.bind(alloc, &stubs) {
        Ok(image) => Ok((image, stubs)),
        Err(_) => Err(Status::Memory),
    }
}

// The log of that image, by rounds and pieces of so many rows.
fn log_by<R: Threads + Sync>(
    rt: &R,
    alloc: Global,
    round: u32,
    piece: u32,
) -> Result<Log<Bounded>, Status>
    requires { (0 < round) × (0 < piece) }
{
    let (image, stubs) = demo_image(alloc)?;
    let limits = Limits {
        k: 32,
        budget: 100_000,
    };
    match explore_in(rt, alloc, &image, &stubs, limits, round, piece, &OpenGate) {
        Ok(log) => Ok(log),
        Err(_) => Err(Status::Memory),
    }
}

fn is_same_row(a: &Row<Bounded>, b: &Row<Bounded>) -> bool {
    a.parent() == b.parent()
        && a.location() == b.location()
        && a.is_expanded() == b.is_expanded()
        && a.state().covers(b.state())
        && b.state().covers(a.state())
}

fn check_same<R: Abort + Threads + Sync>(
    rt: &R,
    alloc: Global,
    round: u32,
    piece: u32,
) -> Result<(), Status>
    requires { (0 < round) × (0 < piece) }
{
    let one = log_by(rt, alloc, 1, 1)?;
    let log = log_by(rt, alloc, round, piece)?;
    assert_eq!(rt; log.rows().len(), 75);
    let rows = one.rows().iter().zip(log.rows().iter());
    assert!(rt; rows.into_iter().all(|(a, b)| is_same_row(a, b)));
    assert!(rt; one.edges() == log.edges());
    assert!(rt; one.causes() == log.causes());
    assert!(rt; one.writes() == log.writes());
    Ok(())
}

#[test]
fn logs_are_the_same(rt: HostRuntime) -> Result<(), Fail> {
    let alloc = rt.alloc();
    assert!(rt; check_same(&rt, alloc, 7, 3).is_ok());
    assert!(rt; check_same(&rt, alloc, 4_096, 64).is_ok());
    Ok(())
}
