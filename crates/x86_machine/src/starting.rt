ghost use Rattle.std.specs.Prelude.{◌≡◌, ◌<◌, ◌⊎◌, ◌++◌, ◌∷◌, [], ◌&&◌, true, false, Ok, Err, IfOk, MatchResult, length, map, option_map};
ghost use Rattle.std.specs.List.{list_all};
ghost use Rattle.memory_map.specs.Image.{IsLoaded};
ghost use Rattle.memory_map.specs.Map.{IsMap, all_apart, is_in_user_space, range_of};
ghost use Rattle.memory_map.specs.Range.{end_of};
ghost use Rattle.memory_map.specs.State.{memory};
ghost use Rattle.statement_lang.specs.Indexed.{is_clear};
ghost use Rattle.x86_machine.specs.Started.{bare_state, started, stated_registers, windows};

use crate::filling::{fill_all, fill_exit_word, first_bad_fill, zero_unset};
use crate::window::{base_window, stack_window};
use crate::{StartFault, StartFile};
use image_loader::Image;
use memory_map::{Perm, Regs, Segment, Segments};
use statement_lang::{Block, Cells, status_of};
use std::alloc::{AllocError, Global};

fn stated_registers(regs: &[u32; 8]) -> Regs<u32>
    ensures { result ≡ stated_registers regs.now }
{
    Regs {
        eax: regs[0],
        ecx: regs[1],
        edx: regs[2],
        ebx: regs[3],
        esp: regs[4],
        ebp: regs[5],
        esi: regs[6],
        edi: regs[7],
    }
}

fn are_windows_inside(start: &StartFile) -> bool
    ensures { result ≡ list_all is_in_user_space (windows start.now) }
{
    stack_window(start).is_in_user_space()
        && base_window(start.fs).is_in_user_space()
        && base_window(start.gs).is_in_user_space()
}

// A segment as a range of the machine.
fn copy_of(alloc: Global, segment: &Segment) -> Result<Block, AllocError>
    ensures { IfOk result (λ r. r ≡ range_of segment.now) }
{
    let bytes = Vec::from_slice(alloc, segment.bytes.as_slice())?;
    Ok(Block::new(
        segment.low,
        bytes,
        segment.permits(Perm::WRITE),
        segment.permits(Perm::EXECUTE),
    ))
}

// With a range more, unless it shares an address with another.
fn with_range(mut cells: Cells, block: Block) -> Result<Cells, StartFault>
    requires some { 0 < length block.bytes }
    requires inside { is_in_user_space block ≡ true }
    ensures { MatchResult result (λ m. (m ≡ record cells { ranges = cells.ranges ++ block ∷ [] }) × (list_all (is_clear block.low (end_of block)) (memory cells) ≡ true)) (λ fault. (fault ≡ StartFault.Memory) ⊎ ((fault ≡ StartFault.Overlap) × (list_all (is_clear block.low (end_of block)) (memory cells) ≡ false))) }
{
    if !cells.may_map(&block) {
        return Err(StartFault::Overlap);
    }
    cells.map(block)?;
    Ok(cells)
}

// With the segments of an image, unless one shares an address with what is mapped before it.
fn with_segments(alloc: Global, cells: Cells, segments: &[Segment]) -> Result<Cells, StartFault>
    requires map { IsMap (map range_of segments.now) }
    requires apart { all_apart (memory cells) ≡ true }
    ensures { MatchResult result (λ m. (m ≡ record cells { ranges = cells.ranges ++ map range_of segments.now }) × (all_apart (memory m) ≡ true)) (λ fault. (fault ≡ StartFault.Memory) ⊎ ((fault ≡ StartFault.Overlap) × (all_apart (memory cells ++ map range_of segments.now) ≡ false))) }
{
    let mut mapped = cells;
    for segment in segments {
        let block = copy_of(alloc, segment)?;
        mapped = with_range(mapped, block)?;
    }
    Ok(mapped)
}

// The segments and the windows, nothing filled in.
fn bare_cells(alloc: Global, image: &Image, start: &StartFile) -> Result<Cells, StartFault>
    requires { list_all is_in_user_space (windows start.now) ≡ true }
    ensures { MatchResult result (λ m. (m ≡ bare_state image.now start.now) × (all_apart (memory m) ≡ true)) (λ fault. (fault ≡ StartFault.Memory) ⊎ ((fault ≡ StartFault.Overlap) × (all_apart (memory (bare_state image.now start.now)) ≡ false))) }
{
    let stack = stack_window(start).zeros(alloc)?;
    let cells = Cells::new(
        stated_registers(&start.regs),
        image.entry(),
        status_of(start.flags),
        start.fs,
        start.gs,
        stack,
        alloc,
    );
    let cells = with_segments(alloc, cells, image.segments().as_slice())?;
    let fs_window = base_window(start.fs).zeros(alloc)?;
    let cells = with_range(cells, fs_window)?;
    let gs_window = base_window(start.gs).zeros(alloc)?;
    with_range(cells, gs_window)
}

/// The state that a start file states for an image, or its first fault.
pub fn start_cells(alloc: Global, image: &Image, start: &StartFile) -> Result<Cells, StartFault>
    ensures { MatchResult result (λ m. started image.now start.now ≡ Ok m) (λ fault. (fault ≡ StartFault.Memory) ⊎ (started image.now start.now ≡ Err fault)) }
{
    if start.regs[4] % image.align() != 0 {
        return Err(StartFault::Align);
    }
    if !are_windows_inside(start) {
        return Err(StartFault::Window);
    }
    let mut cells = bare_cells(alloc, image, start)?;
    if let Some(index) = first_bad_fill(image, start) {
        return Err(StartFault::Fill {
            index: index as u64,
        });
    }
    zero_unset(alloc, &mut cells, image.unset().as_slice())?;
    fill_all(&mut cells, start.fill.as_slice());
    fill_exit_word(&mut cells, image.format());
    Ok(cells)
}
