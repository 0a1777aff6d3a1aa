ghost use Rattle.std.specs.Prelude.{ℕ, List, ◌≡◌, ◌≤◌, ◌<◌, ◌^◌, Ok, IfOk, MatchResult, length, option_map};
ghost use Rattle.outside_io.specs.Outside.{IsWhole};
ghost use Rattle.stub_file.specs.Stubs.{States};
ghost use Rattle.image_loader.specs.Loading.{laid_out_by, load_of};
ghost use Rattle.automaton_text.specs.Reading.{automaton_read};
ghost use Rattle.run_replayer.specs.Grammar.{StatesRecord, StatesStart};
ghost use Rattle.command_words.specs.Reader.{task_of};
ghost use Rattle.jakstab_core.specs.declared.status.Input.TheVariants as inputs;
ghost use Rattle.jakstab_core.specs.Due.{IsFew, OrMemory, text_status};
ghost use Rattle.jakstab_core.specs.Inputs.{AreRefused, File, ImageFile, IsFaulty, IsRefusedAt, IsUnavailable, OfBytes, StubFile, automaton_source, image_source, limit_of, named_file, record_source, start_source, stub_number, stub_sources, task_sources};
ghost use Rattle.jakstab_core.specs.Tasks.{AreStubs, IsTaskWork};

use crate::work::Work;
use crate::{Input, Status};
use automaton_text::{Automaton, read_automaton};
use command_words::Task;
use image_loader::{Loaded, fault_number, load};
use memory_map::Items;
use outside_io::{Shelf, ShelfFault};
use run_replayer::{RunRecord, read_record, read_start};
use std::alloc::Global;
use stub_file::{StubFault, Stubs, read_stubs};
use text_fields::{LineFault, TextFault};
use x86_machine::StartFile;

/// What the image file of a name lays out.
pub fn read_image<S: Shelf>(alloc: Global, shelf: &mut S, name: &str) -> Result<Loaded, Status>
    ensures read { MatchResult result (λ l. OfBytes (S.contents shelf.old) (limit_of inputs.Image) (File name.now) (λ bytes. load_of bytes ≡ Ok (laid_out_by l))) (OrMemory (IsRefusedAt (record { held = S.contents shelf.old; faults_before = S.faults shelf.old; faults_after = S.faults shelf.new }) (image_source (File name.now)))) }
    ensures contents { S.contents shelf.new ≡ S.contents shelf.old }
    ensures rising { (other : List ℕ) → S.faults shelf.old other ≤ S.faults shelf.new other }
{
    let bytes = read_file(alloc, shelf, name, Input::Image)?;
    laid_out(alloc, &bytes)
}

/// The stubs that the stub file of a name states, or none where none is named.
pub fn read_stub_file<S: Shelf>(
    alloc: Global,
    shelf: &mut S,
    name: Option<&str>,
) -> Result<Stubs, Status>
    ensures read { MatchResult result (AreStubs (S.contents shelf.old) (named_file (option_map (λ s. s.now) name.entry))) (OrMemory (AreRefused (record { held = S.contents shelf.old; faults_before = S.faults shelf.old; faults_after = S.faults shelf.new }) (stub_sources (named_file (option_map (λ s. s.now) name.entry))))) }
    ensures contents { S.contents shelf.new ≡ S.contents shelf.old }
    ensures rising { (other : List ℕ) → S.faults shelf.old other ≤ S.faults shelf.new other }
{
    match name {
        None => Ok(Stubs::none(alloc)),
        Some(name) => {
            let text = read_file(alloc, shelf, name, Input::Stubs)?;
            stated_stubs(alloc, &text)
        }
    }
}

/// The work of a task, its further inputs read in the order of the words.
pub fn read_work<S: Shelf>(alloc: Global, shelf: &mut S, task: Task) -> Result<Work, Status>
    ensures read { MatchResult result (IsTaskWork (S.contents shelf.old) (task_of task.entry)) (OrMemory (AreRefused (record { held = S.contents shelf.old; faults_before = S.faults shelf.old; faults_after = S.faults shelf.new }) (task_sources (task_of task.entry)))) }
    ensures few { IfOk result IsFew }
    ensures contents { S.contents shelf.new ≡ S.contents shelf.old }
    ensures rising { (other : List ℕ) → S.faults shelf.old other ≤ S.faults shelf.new other }
{
    match task {
        Task::Recover { options, version } => Ok(Work::Recover { options, version }),
        Task::List => Ok(Work::List),
        Task::Decode { address, count } => Ok(Work::Decode { address, count }),
        Task::Run { start, steps } => {
            let start = read_start_file(alloc, shelf, start)?;
            Ok(Work::Run { start, steps })
        }
        Task::Replay { automaton, record } => {
            let automaton = read_automaton_file(alloc, shelf, automaton)?;
            let record = read_record_file(alloc, shelf, record)?;
            Ok(Work::Replay { automaton, record })
        }
        Task::Tabulate { k, budget } => Ok(Work::Tabulate { k, budget }),
        Task::Check { table } => {
            let told = read_file(alloc, shelf, table, Input::First)?;
            Ok(Work::Check {
                told: Items::from_vec(told),
            })
        }
    }
}

// What the start file of a name states.
fn read_start_file<S: Shelf>(alloc: Global, shelf: &mut S, name: &str) -> Result<StartFile, Status>
    ensures read { MatchResult result (λ start. OfBytes (S.contents shelf.old) (limit_of inputs.First) (File name.now) (λ text. StatesStart text start)) (OrMemory (IsRefusedAt (record { held = S.contents shelf.old; faults_before = S.faults shelf.old; faults_after = S.faults shelf.new }) (start_source name.now))) }
    ensures few { IfOk result (λ start. length start.fill < 2 ^ 32) }
    ensures contents { S.contents shelf.new ≡ S.contents shelf.old }
    ensures rising { (other : List ℕ) → S.faults shelf.old other ≤ S.faults shelf.new other }
{
    let text = read_file(alloc, shelf, name, Input::First)?;
    match read_start(alloc, &text) {
        Ok(start) => Ok(start),
        Err(fault) => Err(text_status(fault)),
    }
}

// The automaton that the file of a name tells.
fn read_automaton_file<S: Shelf>(
    alloc: Global,
    shelf: &mut S,
    name: &str,
) -> Result<Automaton, Status>
    ensures read { MatchResult result (λ a. OfBytes (S.contents shelf.old) (limit_of inputs.First) (File name.now) (λ text. automaton_read text ≡ Ok a)) (OrMemory (IsRefusedAt (record { held = S.contents shelf.old; faults_before = S.faults shelf.old; faults_after = S.faults shelf.new }) (automaton_source name.now))) }
    ensures contents { S.contents shelf.new ≡ S.contents shelf.old }
    ensures rising { (other : List ℕ) → S.faults shelf.old other ≤ S.faults shelf.new other }
{
    let text = read_file(alloc, shelf, name, Input::First)?;
    match read_automaton(alloc, &text) {
        Ok(automaton) => Ok(automaton),
        Err(fault) => Err(text_status(fault)),
    }
}

// What the record of a name states.
fn read_record_file<S: Shelf>(alloc: Global, shelf: &mut S, name: &str) -> Result<RunRecord, Status>
    ensures read { MatchResult result (λ taken. OfBytes (S.contents shelf.old) (limit_of inputs.Second) (File name.now) (λ text. StatesRecord text taken)) (OrMemory (IsRefusedAt (record { held = S.contents shelf.old; faults_before = S.faults shelf.old; faults_after = S.faults shelf.new }) (record_source name.now))) }
    ensures fill { IfOk result (λ taken. length taken.start.fill < 2 ^ 32) }
    ensures steps { IfOk result (λ taken. length taken.steps < 2 ^ 32) }
    ensures contents { S.contents shelf.new ≡ S.contents shelf.old }
    ensures rising { (other : List ℕ) → S.faults shelf.old other ≤ S.faults shelf.new other }
{
    let text = read_file(alloc, shelf, name, Input::Second)?;
    match read_record(alloc, &text) {
        Ok(record) => Ok(record),
        Err(fault) => Err(text_status(fault)),
    }
}

/// The status of a text that is refused.
pub fn text_status(fault: TextFault) -> Status
    ensures { result ≡ text_status fault }
{
    match fault {
        TextFault::Line(LineFault { line, kind }) => Status::InputRefused { line, kind },
        TextFault::Memory => Status::Memory,
    }
}

// The whole content of a file.
fn read_file<S: Shelf>(
    alloc: Global,
    shelf: &mut S,
    name: &str,
    input: Input,
) -> Result<Vec<u8>, Status>
    ensures read { MatchResult result (λ bytes. IsWhole (S.contents shelf.old) name.now (limit_of input) bytes.items) (OrMemory (IsUnavailable (record { held = S.contents shelf.old; faults_before = S.faults shelf.old; faults_after = S.faults shelf.new }) input (File name.now))) }
    ensures contents { S.contents shelf.new ≡ S.contents shelf.old }
    ensures rising { (other : List ℕ) → S.faults shelf.old other ≤ S.faults shelf.new other }
{
    match shelf.read_whole(alloc, name, input.limit()) {
        Ok(bytes) => Ok(bytes),
        Err(ShelfFault::Failed) => Err(Status::ReadFault(input)),
        Err(ShelfFault::TooLong { .. }) => Err(Status::TooLong(input)),
        Err(ShelfFault::Memory) => Err(Status::Memory),
    }
}

/// What the bytes of an image file lay out.
pub fn laid_out(alloc: Global, bytes: &[u8]) -> Result<Loaded, Status>
    ensures { MatchResult result (λ l. load_of bytes.now ≡ Ok (laid_out_by l)) (OrMemory (IsFaulty ImageFile bytes.now)) }
{
    match load(alloc, bytes) {
        Ok(loaded) => Ok(loaded),
        Err(fault) => match fault_number(&fault) {
            Some(n) => Err(Status::ImageRefused(n)),
            None => Err(Status::Memory),
        },
    }
}

/// The stubs that the text of a stub file states.
pub fn stated_stubs(alloc: Global, text: &[u8]) -> Result<Stubs, Status>
    ensures { MatchResult result (States text.now) (OrMemory (IsFaulty StubFile text.now)) }
{
    match read_stubs(alloc, text) {
        Ok(stubs) => Ok(stubs),
        Err(fault) => match stub_number(fault) {
            Some(n) => Err(Status::StubsRefused(n)),
            None => Err(Status::Memory),
        },
    }
}

// The number of a fault of a stub file; None for want of memory.
fn stub_number(fault: StubFault) -> Option<u32>
    ensures { result ≡ stub_number fault }
{
    match fault {
        StubFault::NotToml => Some(1),
        StubFault::UnknownKey => Some(2),
        StubFault::WrongKind => Some(3),
        StubFault::OutOfRange => Some(4),
        StubFault::Both => Some(5),
        StubFault::Memory => None,
    }
}
