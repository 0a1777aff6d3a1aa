ghost use Rattle.std.specs.Prelude.{◌≡◌, [], IfOk, MatchResult, drop};
ghost use Rattle.run_replayer.specs.Record.{AreMade, IsNext, RecordOf, SameStart, next_choice, zero_choice};
ghost use Rattle.run_replayer.specs.StartRefused.{IsRefused};

use crate::{EndWord, RunFault, RunRecord, RunStep};
use bit_words::NoMemory;
use image_loader::Image;
use memory_map::{Bytes, Choice, Fill, Items};
use std::alloc::{AllocError, Global};
use stub_file::Stubs;
use x86_machine::{Machine, Outcome, StartFile};

/// Steps that were made, and what ended them.
#[derive(Drop)]
struct MadeSteps {
    steps: Items<RunStep>,
    end: EndWord,
}

// The same fills again.
fn copy_fills(alloc: Global, fill: &[Fill]) -> Result<Items<Fill>, AllocError>
    ensures { IfOk result (λ copy. copy ≡ fill.now) }
{
    let mut copies = Vec::with_capacity(alloc, fill.len())?;
    for f in fill {
        copies.push(Fill {
            at: f.at,
            bytes: Bytes::from_vec(Vec::from_slice(alloc, f.bytes.as_slice())?),
        })?;
    }
    Ok(Items::from_vec(copies))
}

// The same choice again.
fn copy_choice(alloc: Global, choice: &Choice) -> Result<Choice, AllocError>
    ensures { IfOk result (λ copy. copy ≡ choice.now) }
{
    Ok(Choice {
        flags: choice.flags,
        eax: choice.eax,
        ecx: choice.ecx,
        edx: choice.edx,
        base: choice.base,
        fails: choice.fails,
        fill: copy_fills(alloc, choice.fill.as_slice())?,
    })
}

// Zeros without fills.
fn zero_choice(alloc: Global) -> Choice
    ensures { result ≡ zero_choice }
{
    Choice {
        flags: 0,
        eax: 0,
        ecx: 0,
        edx: 0,
        base: 0,
        fails: false,
        fill: Items::from_vec(Vec::new(alloc)),
    }
}

// The choice of the step of a number.
fn choice_at(alloc: Global, choices: &[Choice], n: usize) -> Result<Choice, AllocError>
    ensures { IfOk result (λ choice. choice ≡ next_choice (drop n choices.now)) }
{
    match choices.get(n) {
        Some(choice) => copy_choice(alloc, choice),
        None => Ok(zero_choice(alloc)),
    }
}

// The same start without its choices.
fn copy_start(alloc: Global, start: &StartFile) -> Result<StartFile, AllocError>
    ensures same { IfOk result (λ copy. SameStart start.now copy) }
    ensures no_choices { IfOk result (λ copy. copy.choices ≡ []) }
{
    Ok(StartFile {
        regs: start.regs,
        flags: start.flags,
        fs: start.fs,
        gs: start.gs,
        fill: copy_fills(alloc, start.fill.as_slice())?,
        choices: Items::from_vec(Vec::new(alloc)),
    })
}

/// What comes of a step: the step that was made, or the word of what came instead.
#[derive(Drop)]
enum Next {
    Step(RunStep),
    End(EndWord),
}

// Makes one step under a choice.
fn make_step(
    image: &Image,
    stubs: &Stubs,
    machine: &mut Machine,
    choice: Choice,
) -> Result<Next, NoMemory>
    ensures { IfOk result (λ next. IsNext image.now stubs.now choice machine.old next machine.new) }
{
    let from = machine.eip();
    match machine.step(image, stubs, &choice) {
        Outcome::Stepped => Ok(Next::Step(RunStep {
            from,
            to: machine.eip(),
            choice,
        })),
        Outcome::Faulted(_) => Ok(Next::End(EndWord::Faulted)),
        Outcome::NotListed => Ok(Next::End(EndWord::NotListed)),
        Outcome::NoStub => Ok(Next::End(EndWord::NoStub)),
        Outcome::Exited => Ok(Next::End(EndWord::Exited)),
        Outcome::BadChoice(_) => Ok(Next::End(EndWord::BadChoice)),
        Outcome::Memory => Err(NoMemory),
    }
}

// Makes steps until one is none, or so many are made.
fn make_steps(
    alloc: Global,
    image: &Image,
    stubs: &Stubs,
    mut machine: Machine,
    choices: &[Choice],
    count: u32,
) -> Result<MadeSteps, NoMemory>
    ensures { IfOk result (λ made. AreMade image.now stubs.now count choices.now machine made.steps made.end) }
{
    let mut steps = Vec::new(alloc);
    for n in 0..count {
        let choice = choice_at(alloc, choices, n as usize)?;
        match make_step(image, stubs, &mut machine, choice)? {
            Next::Step(step) => steps.push(step)?,
            Next::End(end) => {
                return Ok(MadeSteps {
                    steps: Items::from_vec(steps),
                    end,
                });
            }
        }
    }
    Ok(MadeSteps {
        steps: Items::from_vec(steps),
        end: EndWord::Steps,
    })
}

/// Runs the machine from the state that a start file states, under its choices one after another and then under zeros, for
/// so many steps at most, and records what it does. Refused exactly where the start file states no state.
pub fn run_machine(
    alloc: Global,
    image: &Image,
    stubs: &Stubs,
    start: &StartFile,
    steps: u32,
) -> Result<RunRecord, RunFault>
    ensures { MatchResult result (RecordOf image.now stubs.now start.now steps) (IsRefused image.now start.now) }
{
    let machine = Machine::start(alloc, image, start)?;
    let copy = copy_start(alloc, start)?;
    let made = make_steps(
        alloc,
        image,
        stubs,
        machine,
        start.choices.as_slice(),
        steps,
    )?;
    let MadeSteps { steps, end } = made;
    Ok(RunRecord {
        start: copy,
        steps,
        end,
    })
}
