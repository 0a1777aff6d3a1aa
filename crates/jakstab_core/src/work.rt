ghost use Rattle.std.specs.Prelude.{◌≡◌, MatchResult, Ok, false};
ghost use Rattle.memory_map.specs.Image.{IsLoaded};
ghost use Rattle.image_loader.specs.Loading.{laid_out_by};
ghost use Rattle.jakstab_core.specs.Due.{IsFew, OfImage, OrMemory};
ghost use Rattle.jakstab_core.specs.Tasks.{IsOutput, IsStartRefused};

use crate::Status;
use crate::recover::recovered_text;
use crate::running::{run_output, verdict_output};
use crate::summary::summary;
use crate::tables::{check_output, table_text};
use automaton_text::Automaton;
use bit_words::NoMemory;
use command_words::{Options, TextVersion};
use decode_listing::print_listing;
use flow_worklist::{Gate, Limits};
use image_listing::print_list;
use image_loader::{Image, Loaded};
use memory_map::Items;
use run_replayer::RunRecord;
use std::alloc::Global;
use std::thread::Threads;
use stub_file::Stubs;
use x86_machine::StartFile;

/// What is done with an image, the further inputs read.
#[derive(Drop)]
pub enum Work {
    /// Recovers its automaton, and prints it in this version.
    Recover {
        options: Options,
        version: TextVersion,
    },
    /// Describes the image.
    List,
    /// Lists the instructions from an address on, at most so many.
    Decode {
        address: u32,
        count: u32,
    },
    /// Runs the machine from a start file, at most so many steps, and prints the record.
    Run {
        start: StartFile,
        steps: u32,
    },
    /// Replays a record against an automaton.
    Replay {
        automaton: Automaton,
        record: RunRecord,
    },
    /// Prints the table of its exploration over bounded values.
    Tabulate {
        k: u32,
        budget: u32,
    },
    /// Checks the table that these bytes tell.
    Check {
        told: Items<u8>,
    },
    /// Sums up the log of the demo image of so many blocks.
    Summarize {
        blocks: u32,
        options: Options,
    },
}

/// What work writes, and whether that says no.
#[derive(Drop)]
pub struct Output {
    pub text: Vec<u8>,
    pub is_no: bool,
}

/// What work on an image writes, which is bound to its stubs first.
pub fn output_of_loaded<R: Threads + Sync, G: Gate>(
    rt: &R,
    alloc: Global,
    loaded: Loaded,
    stubs: &Stubs,
    work: Work,
    gate: &G,
) -> Result<Output, Status>
    requires { IsFew work }
    ensures { MatchResult result (λ o. OfImage (laid_out_by loaded) stubs.now (λ image. IsOutput work stubs.now image o.text.items o.is_no)) (OrMemory (λ status. OfImage (laid_out_by loaded) stubs.now (λ image. IsStartRefused work image status))) }
{
    match loaded.bind(alloc, stubs) {
        Ok(image) => output_of_image(rt, alloc, work, stubs, &image, gate),
        Err(_) => Err(Status::Memory),
    }
}

// What work on an image writes.
fn output_of_image<R: Threads + Sync, G: Gate>(
    rt: &R,
    alloc: Global,
    work: Work,
    stubs: &Stubs,
    image: &Image,
    gate: &G,
) -> Result<Output, Status>
    requires { IsFew work }
    ensures text { MatchResult result (λ o. IsOutput work stubs.now image.now o.text.items o.is_no) (OrMemory (IsStartRefused work image.now)) }
    ensures loaded { IsLoaded image.now }
{
    let _ = image.entry();
    match work {
        Work::Recover { options, version } => {
            plain(recovered_text(rt, alloc, image, stubs, options, version, gate))
        }
        Work::List => plain(print_list(alloc, image, stubs)),
        Work::Decode { address, count } => plain(print_listing(alloc, image, address, count)),
        Work::Run { start, steps } => run_output(alloc, image, stubs, &start, steps),
        Work::Replay { automaton, record } => {
            verdict_output(alloc, image, stubs, &automaton, &record)
        }
        Work::Tabulate { k, budget } => {
            plain(table_text(rt, alloc, image, stubs, Limits { k, budget }, gate))
        }
        Work::Check { told } => check_output(rt, alloc, image, stubs, told.as_slice()),
        Work::Summarize { blocks, options } => {
            plain(summary(rt, alloc, image, stubs, blocks, options, gate))
        }
    }
}

// A text that does not say no.
fn plain(text: Result<Vec<u8>, NoMemory>) -> Result<Output, Status>
    ensures { MatchResult result (λ o. (text ≡ Ok o.text) × (o.is_no ≡ false)) (λ status. status ≡ Status.Memory) }
{
    match text {
        Ok(text) => Ok(Output { text, is_no: false }),
        Err(_) => Err(Status::Memory),
    }
}
