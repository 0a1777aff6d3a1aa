ghost use Rattle.std.specs.Prelude.{◌≡◌, ◌<◌, ◌^◌, MatchResult, false, length};
ghost use Rattle.jakstab_core.specs.Due.{IsNear, IsNearRun, OrMemory, run_status};
ghost use Rattle.jakstab_core.specs.Inputs.{IsUnstartable, start_place};
ghost use Rattle.jakstab_core.specs.Tasks.{IsRunText, IsVerdictText};

use crate::Status;
use crate::work::Output;
use automaton_text::Automaton;
use image_loader::Image;
use run_replayer::{RunFault, RunRecord, print_record, replay, run_machine, verdict_line};
use std::alloc::Global;
use stub_file::Stubs;
use text_fields::LineFault;
use x86_machine::{StartFault, StartFile};

/// The record of a run from a start file, for so many steps at most.
pub fn run_output(
    alloc: Global,
    image: &Image,
    stubs: &Stubs,
    start: &StartFile,
    steps: u32,
) -> Result<Output, Status>
    requires { length start.now.fill < 2 ^ 32 }
    ensures { MatchResult result (λ o. IsRunText image.now stubs.now start.now steps o.text.items × (o.is_no ≡ false)) (OrMemory (IsUnstartable image.now start.now)) }
{
    match run_machine(alloc, image, stubs, start, steps) {
        Ok(record) => match print_record(alloc, &record) {
            Ok(text) => Ok(Output { text, is_no: false }),
            Err(_) => Err(Status::Memory),
        },
        Err(fault) => Err(run_status(fault)),
    }
}

/// The line of the verdict of a record that is replayed against an automaton.
pub fn verdict_output(
    alloc: Global,
    image: &Image,
    stubs: &Stubs,
    automaton: &Automaton,
    taken: &RunRecord,
) -> Result<Output, Status>
    requires fill { length taken.now.start.fill < 2 ^ 32 }
    requires steps { length taken.now.steps < 2 ^ 32 }
    ensures { MatchResult result (λ o. IsVerdictText image.now stubs.now automaton.now taken.now o.text.items o.is_no) (OrMemory (IsUnstartable image.now taken.now.start)) }
{
    match replay(alloc, image, stubs, automaton, taken) {
        Ok(verdict) => match verdict_line(alloc, verdict) {
            Ok(text) => Ok(Output {
                text,
                is_no: verdict.is_no(),
            }),
            Err(_) => Err(Status::Memory),
        },
        Err(fault) => Err(run_status(fault)),
    }
}

// The status of a run that does not begin.
fn run_status(fault: RunFault) -> Status
    requires { IsNearRun fault }
    ensures { result ≡ run_status fault }
{
    match fault {
        RunFault::Start(fault) => match start_place(fault) {
            Some(LineFault { line, kind }) => Status::InputRefused { line, kind },
            None => Status::Memory,
        },
        RunFault::Memory => Status::Memory,
    }
}

// The line of a start file that has the fault, and its kind; None for want of memory.
fn start_place(fault: StartFault) -> Option<LineFault>
    requires { IsNear fault }
    ensures { result ≡ start_place fault }
{
    match fault {
        StartFault::Align => Some(LineFault { line: 2, kind: 11 }),
        StartFault::Window => Some(LineFault { line: 4, kind: 12 }),
        StartFault::Overlap => Some(LineFault { line: 4, kind: 13 }),
        StartFault::Fill { index } => Some(LineFault {
            line: 5 + index,
            kind: 14,
        }),
        StartFault::Memory => None,
    }
}
