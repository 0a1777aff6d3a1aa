ghost use Rattle.std.specs.Prelude.{◌≡◌, ◌++◌, IfOk, OnOk};
ghost use Rattle.domain_laws.specs.Made.{values_of};
ghost use Rattle.jakstab_core.specs.Summary.{counts_over, counts_text, log_counts, summary_line, summary_of};

use bit_words::NoMemory;
use bounded_values::Bounded;
use command_words::{DomainName, Options};
use domain_laws::{Domain, FlatNumbers};
use flow_worklist::{Gate, Limits, PIECE, ROUND, automaton_of, explore_in};
use image_loader::Image;
use interval_values::Interval;
use std::alloc::Global;
use std::thread::Threads;
use stub_file::Stubs;
use text_fields::{push_bytes, push_decimal};

// How many rows a log has, and how many locations, edges and marks its automaton.
#[derive(Clone, Copy)]
struct Counts {
    rows: usize,
    locations: usize,
    edges: usize,
    opens: usize,
}

// The counts of the log of an image with stubs over a domain.
fn log_counts<R: Threads + Sync, D: Domain, G: Gate>(
    rt: &R,
    alloc: Global,
    image: &Image,
    stubs: &Stubs,
    limits: Limits,
    gate: &G,
) -> Result<Counts, NoMemory>
    ensures { IfOk result (λ counts. counts ≡ log_counts (values_of D.Domain.own D.eq) image.now stubs.now limits.k limits.budget) }
{
    let log = explore_in::<R, D, G>(rt, alloc, image, stubs, limits, ROUND, PIECE, gate)?;
    let automaton = automaton_of(alloc, image, &log)?;
    Ok(Counts {
        rows: log.rows().len(),
        locations: automaton.locations.as_slice().len(),
        edges: automaton.edges.as_slice().len(),
        opens: automaton.marks.as_slice().len(),
    })
}

fn counts_over<R: Threads + Sync, G: Gate>(
    rt: &R,
    alloc: Global,
    image: &Image,
    stubs: &Stubs,
    options: Options,
    gate: &G,
) -> Result<Counts, NoMemory>
    ensures { IfOk result (λ counts. counts ≡ counts_over options.domain image.now stubs.now options.k options.budget) }
{
    let limits = Limits {
        k: options.k,
        budget: options.budget,
    };
    match options.domain {
        DomainName::Flat => log_counts::<R, FlatNumbers, G>(rt, alloc, image, stubs, limits, gate),
        DomainName::Bounded => log_counts::<R, Bounded, G>(rt, alloc, image, stubs, limits, gate),
        DomainName::Interval => log_counts::<R, Interval, G>(rt, alloc, image, stubs, limits, gate),
    }
}

#[tactic(auto, using(std::proofs::Common::append_assoc))]
fn push_counts(out: &mut Vec<u8>, counts: Counts) -> Result<(), NoMemory>
    ensures { OnOk result (out.new.items ≡ out.old.items ++ counts_text counts) }
{
    push_bytes(out, b" rows ")?;
    push_decimal(out, counts.rows as u64)?;
    push_bytes(out, b" locations ")?;
    push_decimal(out, counts.locations as u64)?;
    push_bytes(out, b" edges ")?;
    push_decimal(out, counts.edges as u64)?;
    push_bytes(out, b" opens ")?;
    push_decimal(out, counts.opens as u64)
}

#[tactic(auto, using(std::proofs::Common::append_assoc), unfolding(crate::specs::Summary::summary_line))]
fn summary_line(alloc: Global, blocks: u32, counts: Counts) -> Result<Vec<u8>, NoMemory>
    ensures { IfOk result (λ line. line.items ≡ summary_line blocks counts) }
{
    let mut line = Vec::new(alloc);
    push_bytes(&mut line, b"demo ")?;
    push_decimal(&mut line, u64::from(blocks))?;
    push_counts(&mut line, counts)?;
    push_bytes(&mut line, b"\n")?;
    Ok(line)
}

/// The line that sums up the log of the demo image of so many blocks.
pub fn summary<R: Threads + Sync, G: Gate>(
    rt: &R,
    alloc: Global,
    image: &Image,
    stubs: &Stubs,
    blocks: u32,
    options: Options,
    gate: &G,
) -> Result<Vec<u8>, NoMemory>
    ensures { IfOk result (λ line. line.items ≡ summary_of image.now stubs.now blocks options) }
{
    let counts = counts_over(rt, alloc, image, stubs, options, gate)?;
    summary_line(alloc, blocks, counts)
}
