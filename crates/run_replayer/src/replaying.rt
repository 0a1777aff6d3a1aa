ghost use Rattle.std.specs.Prelude.{◌≡◌, ◌<◌, ◌^◌, IfOk, MatchOption, MatchResult, length, None};
ghost use Rattle.memory_map.specs.Image.{name_at};
ghost use Rattle.x86_machine.specs.Machine.{instr_bytes, label_at};
ghost use Rattle.x86_machine.specs.StepBy.{StepBy, stepped};
ghost use Rattle.x86_syntax.specs.Decodes.{decoded};
ghost use Rattle.run_replayer.specs.Replaying.{Ends, MakesNone, Passes};
ghost use Rattle.run_replayer.specs.StartRefused.{IsRefused};
ghost use Rattle.run_replayer.specs.Verdict.{Decides, VerdictOf};

use crate::index::{Index, index_of};
use crate::{RunFault, RunKind, RunRecord, RunStep, Verdict};
use automaton_text::Automaton;
use bit_words::NoMemory;
use flow_log::{Edge, Label};
use image_loader::Image;
use memory_map::{Choice, Name};
use std::alloc::Global;
use stub_file::Stubs;
use x86_decoder::decode;
use x86_machine::{Machine, Outcome};

// The label of the instruction at the front of these bytes.
fn code_label(bytes: &[u8]) -> Label
    requires { length bytes.now < 16 }
    ensures { result ≡ Label.Code (record { items = instr_bytes (decoded bytes.now) bytes.now }) }
{
    match decode(bytes) {
        Ok((_, len)) => Label::code(&bytes[..usize::from(len)]),
        Err(_) => Label::code(&[]),
    }
}

// The label of a step from where the machine stands.
#[tactic(auto, unfolding(x86_machine::specs::Machine::label_at))]
fn label_at(alloc: Global, image: &Image, machine: &Machine) -> Result<Label, NoMemory>
    ensures { IfOk result (λ label. label ≡ label_at image.now machine.now) }
{
    match image.name_at(machine.eip()) {
        Some(name) => match Name::new(Vec::from_slice(alloc, name)?) {
            Some(name) => Ok(Label::Import(name)),
            None => unreachable!(),
        },
        None => Ok(code_label(machine.fetch().as_slice())),
    }
}

// Makes one step under a choice, or tells why there is none.
fn make_step(
    image: &Image,
    stubs: &Stubs,
    machine: &mut Machine,
    choice: &Choice,
) -> Result<Option<RunKind>, NoMemory>
    ensures { IfOk result (λ none. MatchOption none (StepBy image.now stubs.now choice.now machine.old (stepped machine.new)) (MakesNone image.now stubs.now choice.now machine.old)) }
{
    match machine.step(image, stubs, choice) {
        Outcome::Stepped => Ok(None),
        Outcome::Faulted(_) => Ok(Some(RunKind::Faulted)),
        Outcome::NotListed => Ok(Some(RunKind::NotListed)),
        Outcome::NoStub => Ok(Some(RunKind::NoStub)),
        Outcome::Exited => Ok(Some(RunKind::Exited)),
        Outcome::BadChoice(_) => Ok(Some(RunKind::BadChoice)),
        Outcome::Memory => Err(NoMemory),
    }
}

// Tries a step of a record, which has this number: its verdict, or none where it passes.
fn try_step(
    alloc: Global,
    image: &Image,
    stubs: &Stubs,
    index: &Index,
    machine: &mut Machine,
    n: u32,
    step: &RunStep,
) -> Result<Option<Verdict>, NoMemory>
    ensures { IfOk result (λ found. MatchOption found (Passes image.now stubs.now index.now n machine.old step.now machine.new) (Ends image.now stubs.now index.now n machine.old step.now)) }
{
    let at = machine.eip();
    if index.opened.has(&at) {
        return Ok(Some(Verdict::ReachedOpen(n, at)));
    }
    if at != step.from {
        return Ok(Some(Verdict::NotARun(n, RunKind::From)));
    }
    let label = label_at(alloc, image, machine)?;
    match make_step(image, stubs, machine, &step.choice)? {
        Some(kind) => return Ok(Some(Verdict::NotARun(n, kind))),
        None => {}
    }
    if machine.eip() != step.to {
        return Ok(Some(Verdict::NotARun(n, RunKind::To)));
    }
    let edge = Edge {
        from: step.from,
        to: step.to,
        label,
    };
    if !index.edges.has(&edge) {
        return Ok(Some(Verdict::NotAnEdge(n, step.from, step.to)));
    }
    Ok(None)
}

// The verdict of steps from a machine's state on.
fn replay_steps(
    alloc: Global,
    image: &Image,
    stubs: &Stubs,
    index: &Index,
    mut machine: Machine,
    steps: &[RunStep],
) -> Result<Verdict, NoMemory>
    requires { length steps.now < 2 ^ 32 }
    ensures { IfOk result (Decides image.now stubs.now index.now.edges index.now.opened 0 machine steps.now) }
{
    let mut n = 0;
    for step in steps {
        if let Some(verdict) = try_step(alloc, image, stubs, index, &mut machine, n, step)? {
            return Ok(verdict);
        }
        n += 1;
    }
    let at = machine.eip();
    if index.opened.has(&at) {
        Ok(Verdict::ReachedOpen(n, at))
    } else {
        Ok(Verdict::Inside(n))
    }
}

/// Makes the steps of a record in their order, and tells whether each is the machine's and an edge of the automaton, up to
/// the first open location. Refused exactly where the record's start states no state.
pub fn replay(
    alloc: Global,
    image: &Image,
    stubs: &Stubs,
    a: &Automaton,
    r: &RunRecord,
) -> Result<Verdict, RunFault>
    requires { length r.now.steps < 2 ^ 32 }
    ensures { MatchResult result (VerdictOf image.now stubs.now a.now r.now) (IsRefused image.now r.now.start) }
{
    let machine = Machine::start(alloc, image, &r.start)?;
    let index = index_of(alloc, a)?;
    let verdict = replay_steps(alloc, image, stubs, &index, machine, r.steps.as_slice())?;
    Ok(verdict)
}
