ghost use Rattle.std.specs.Prelude.{◌≡◌, ◌+◌, ◌-◌, ◌<◌, ◌^◌, ◌&&◌, ◌||◌, not, map, position, OnOk};
ghost use Rattle.std.specs.List.Sorted.{IsNonDecreasingBy};
ghost use Rattle.std.specs.List.{enumerate_from, list_all, list_any, range_with_len};
ghost use Rattle.memory_map.specs.Image.{has_exit_word, is_pe};
ghost use Rattle.memory_map.specs.Range.{has};
ghost use Rattle.memory_map.specs.Spans.{is_in_span};
ghost use Rattle.statement_lang.specs.Filling.{bytes_of_fills};
ghost use Rattle.x86_machine.specs.Started.{exit_word, exit_word_span, is_free_byte, is_free_fill, unset_zeros, windows, with_fills};

use crate::StartFile;
use crate::window::{base_window, stack_window};
use image_loader::Image;
use memory_map::{Fill, Format, Span, sort_by_low};
use statement_lang::Cells;
use std::alloc::{AllocError, Global};

const WORD_BYTES: u32 = 4;

// The highest byte of the exit place, whose others are 0.
const EXIT_TOP: u8 = 0xF0;

fn has_exit_word(format: Format) -> bool
    ensures { result ≡ is_pe format }
{
    format == Format::Pe
}

fn is_in_window(start: &StartFile, a: u64) -> bool
    ensures { result ≡ list_any (has a) (windows start.now) }
{
    stack_window(start).has(a) || base_window(start.fs).has(a) || base_window(start.gs).has(a)
}

// Whether an address is one of the exit word's.
fn is_in_exit_word(image: &Image, start: &StartFile, a: u64) -> bool
    ensures { result ≡ (has_exit_word image.now && is_in_span a (exit_word_span start.now)) }
{
    let word = Span {
        low: start.regs[4],
        size: WORD_BYTES,
    };
    has_exit_word(image.format()) && word.has(a)
}

// Whether a byte may be filled in.
fn is_free_byte(image: &Image, start: &StartFile, a: u64) -> bool
    ensures { result ≡ is_free_byte image.now start.now a }
{
    (is_in_window(start, a) || image.unset().has(a)) && !is_in_exit_word(image, start, a)
}

fn is_free_fill(image: &Image, start: &StartFile, fill: &Fill) -> bool
    ensures { result ≡ is_free_fill image.now start.now fill.now }
{
    for i in 0..fill.bytes.len() {
        if !is_free_byte(image, start, u64::from(fill.at) + i as u64) {
            return false;
        }
    }
    true
}

/// The index of the first fill with a byte that is not free.
pub fn first_bad_fill(image: &Image, start: &StartFile) -> Option<usize>
    ensures { result ≡ position (λ f. not (is_free_fill image.now start.now f)) start.now.fill }
{
    start
        .fill
        .as_slice()
        .iter()
        .position(|fill| !is_free_fill(image, start, fill))
}

// Fills a byte with 0 at each address from one up to another.
fn zero_between(cells: &mut Cells, from: u64, end: u64)
    ensures { cells.new ≡ with_fills (map (λ a. (a, 0)) (range_with_len from (end - from))) cells.old }
{
    for a in from..end {
        cells.fill(a, 0);
    }
}

// Fills a byte with 0 at each address of spans in the order of their first ones: once, also where several have it.
fn zero_sorted(cells: &mut Cells, sorted: &[Span])
    requires { IsNonDecreasingBy (λ s. s.low) sorted.now }
    ensures { cells.new ≡ with_fills (unset_zeros sorted.now) cells.old }
{
    let mut done = 0u64;
    for span in sorted {
        let low = u64::from(span.low);
        let end = low + u64::from(span.size);
        zero_between(cells, low.max(done), end);
        done = done.max(end);
    }
}

/// Fills unset bytes with 0.
pub fn zero_unset(alloc: Global, cells: &mut Cells, unset: &[Span]) -> Result<(), AllocError>
    ensures { OnOk result (cells.new ≡ with_fills (unset_zeros unset.now) cells.old) }
{
    let mut sorted = Vec::from_slice(alloc, unset)?;
    sort_by_low(&mut sorted)?;
    zero_sorted(cells, &sorted);
    Ok(())
}

fn fill_one(cells: &mut Cells, fill: &Fill)
    ensures { cells.new ≡ with_fills (enumerate_from fill.now.at fill.now.bytes) cells.old }
{
    for i in 0..fill.bytes.len() {
        cells.fill(u64::from(fill.at) + i as u64, fill.bytes.as_slice()[i]);
    }
}

/// Fills bytes in, one after another.
pub fn fill_all(cells: &mut Cells, fills: &[Fill])
    ensures { cells.new ≡ with_fills (bytes_of_fills fills.now) cells.old }
{
    for fill in fills {
        fill_one(cells, fill);
    }
}

/// Fills in the exit place at the stack pointer, where the format asks for it.
pub fn fill_exit_word(cells: &mut Cells, format: Format)
    ensures { cells.new ≡ with_fills (exit_word (is_pe format) cells.old.registers.esp) cells.old }
{
    if has_exit_word(format) {
        let at = u64::from(cells.registers().esp);
        cells.fill(at, 0);
        cells.fill(at + 1, 0);
        cells.fill(at + 2, 0);
        cells.fill(at + 3, EXIT_TOP);
    }
}
