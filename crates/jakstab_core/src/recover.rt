ghost use Rattle.std.specs.Prelude.{◌≡◌, IfOk};
ghost use Rattle.domain_laws.specs.Made.{values_of};
ghost use Rattle.jakstab_core.specs.Headline.{in_version, log_automaton, recovered, recovered_text};

use automaton_text::{Automaton, print_automaton};
use bit_words::NoMemory;
use bounded_values::Bounded;
use command_words::{DomainName, Options, TextVersion};
use domain_laws::{Domain, FlatNumbers};
use flow_worklist::{Gate, Limits, PIECE, ROUND, automaton_of, explore_in};
use image_loader::Image;
use interval_values::Interval;
use std::alloc::Global;
use std::thread::Threads;
use stub_file::Stubs;

// The automaton of an image's log over a domain, with stubs.
fn log_automaton<R: Threads + Sync, D: Domain, G: Gate>(
    rt: &R,
    alloc: Global,
    image: &Image,
    stubs: &Stubs,
    limits: Limits,
    gate: &G,
) -> Result<Automaton, NoMemory>
    ensures { IfOk result (λ a. a ≡ log_automaton (values_of D.Domain.own D.eq) image.now stubs.now limits.k limits.budget) }
{
    let log = explore_in::<R, D, G>(rt, alloc, image, stubs, limits, ROUND, PIECE, gate)?;
    automaton_of(alloc, image, &log)
}

// The automaton that is recovered of an image with stubs.
fn recovered<R: Threads + Sync, G: Gate>(
    rt: &R,
    alloc: Global,
    image: &Image,
    stubs: &Stubs,
    options: Options,
    gate: &G,
) -> Result<Automaton, NoMemory>
    ensures { IfOk result (λ a. a ≡ recovered image.now stubs.now options) }
{
    let limits = Limits {
        k: options.k,
        budget: options.budget,
    };
    match options.domain {
        DomainName::Flat => log_automaton::<R, FlatNumbers, G>(
            rt, alloc, image, stubs, limits, gate,
        ),
        DomainName::Bounded => log_automaton::<R, Bounded, G>(
            rt, alloc, image, stubs, limits, gate,
        ),
        DomainName::Interval => log_automaton::<R, Interval, G>(
            rt, alloc, image, stubs, limits, gate,
        ),
    }
}

// The automaton as a version of its text tells it.
fn in_version(automaton: Automaton, version: TextVersion) -> Automaton
    ensures { result ≡ in_version version automaton }
{
    match version {
        TextVersion::First => automaton.as_version_1(),
        TextVersion::Second => automaton,
    }
}

/// The text of the automaton of an image with stubs.
pub fn recovered_text<R: Threads + Sync, G: Gate>(
    rt: &R,
    alloc: Global,
    image: &Image,
    stubs: &Stubs,
    options: Options,
    version: TextVersion,
    gate: &G,
) -> Result<Vec<u8>, NoMemory>
    ensures { IfOk result (λ text. text.items ≡ recovered_text image.now stubs.now options version) }
{
    let automaton = recovered(rt, alloc, image, stubs, options, gate)?;
    print_automaton(alloc, &in_version(automaton, version))
}
