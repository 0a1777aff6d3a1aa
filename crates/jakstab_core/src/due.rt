ghost use Rattle.std.specs.Prelude.{MatchResult, Option, map, option_map, string_bytes};
ghost use Rattle.outside_io.specs.Outside.{Contents};
ghost use Rattle.command_words.specs.Reader.{task_of};
ghost use Rattle.command_words.specs.Words.{Demo, on_image};
ghost use Rattle.jakstab_core.specs.Due.{OrMemory};
ghost use Rattle.jakstab_core.specs.Inputs.{ShelfCall};
ghost use Rattle.jakstab_core.specs.Says.{IsCommandRefused, IsDue, IsRefused, IsTextOf};

use crate::Status;
use crate::inputs::{laid_out, read_image, read_stub_file, read_work, stated_stubs};
use crate::work::{Output, Work, output_of_loaded};
use command_words::{Asked, ImageCommand, Options, WordsFault, command};
use demo_images::demo;
use flow_worklist::Gate;
use outside_io::Shelf;
use std::alloc::Global;
use std::thread::Threads;

/// What the command of the words writes. Refuses as `IsRefused` says, each status for its own cause.
pub fn due_output<R: Threads + Sync, S: Shelf, G: Gate>(
    rt: &R,
    alloc: Global,
    words: &[String],
    shelf: &mut S,
    gate: &G,
) -> Result<Output, Status>
    ensures { MatchResult result (λ o. IsDue (record { words = map string_bytes words.now; shelf = record { held = S.contents shelf.old; faults_before = S.faults shelf.old; faults_after = S.faults shelf.new } }) o.text.items o.is_no) (λ status. IsRefused status (record { words = map string_bytes words.now; shelf = record { held = S.contents shelf.old; faults_before = S.faults shelf.old; faults_after = S.faults shelf.new } })) }
{
    match command(alloc, words) {
        Ok(Asked::OnImage(command)) => on_image(rt, alloc, command, shelf, gate),
        Ok(Asked::Demo { blocks, options }) => on_demo(rt, alloc, blocks, options, gate),
        Err(WordsFault::Usage) => Err(Status::Usage),
        Err(WordsFault::Memory) => Err(Status::Memory),
    }
}

// What a command on an image writes.
fn on_image<R: Threads + Sync, S: Shelf, G: Gate>(
    rt: &R,
    alloc: Global,
    command: ImageCommand,
    shelf: &mut S,
    gate: &G,
) -> Result<Output, Status>
    ensures { let asked = on_image command.entry.image.now (option_map (λ s. s.now) command.entry.stubs) (task_of command.entry.task) in MatchResult result (λ o. IsTextOf (S.contents shelf.old) asked o.text.items o.is_no) (OrMemory (IsCommandRefused (record { held = S.contents shelf.old; faults_before = S.faults shelf.old; faults_after = S.faults shelf.new }) asked)) }
{
    let loaded = read_image(alloc, shelf, command.image)?;
    let stubs = read_stub_file(alloc, shelf, command.stubs)?;
    let work = read_work(alloc, shelf, command.task)?;
    output_of_loaded(rt, alloc, loaded, &stubs, work, gate)
}

// What the command on the demo image of so many blocks writes, whatever a shelf holds.
fn on_demo<R: Threads + Sync, G: Gate>(
    rt: &R,
    alloc: Global,
    blocks: u32,
    options: Options,
    gate: &G,
) -> Result<Output, Status>
    ensures { (r : ShelfCall) → MatchResult result (λ o. IsTextOf r.held (Demo blocks options) o.text.items o.is_no) (OrMemory (IsCommandRefused r (Demo blocks options))) }
{
    let Ok((image, stubs)) = demo(alloc, blocks) else {
        return Err(Status::Memory);
    };
    let loaded = laid_out(alloc, &image)?;
    let stubs = stated_stubs(alloc, &stubs)?;
    output_of_loaded(
        rt,
        alloc,
        loaded,
        &stubs,
        Work::Summarize { blocks, options },
        gate,
    )
}
