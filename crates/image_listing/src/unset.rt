ghost use Rattle.std.specs.Prelude.{◌≡◌, ◌<◌, ◌≤◌, ◌+◌, All, IfOk, OnOk, max};
ghost use Rattle.std.specs.List.Sorted.{IsNonDecreasingBy};
ghost use Rattle.memory_map.specs.Range.{USER_END};
ghost use Rattle.memory_map.specs.Spans.{IsBelow};
ghost use Rattle.image_listing.specs.Listing.{unset_runs};
ghost use Rattle.image_listing.specs.Merging.{AreRuns, AreSeparate, BeginBy, Extends, Fits};

use memory_map::{Span, sort_by_low};
use std::alloc::{AllocError, Global};

// Two ranges that meet or touch, as one.
fn as_one(last: Span, s: &Span) -> Span
    requires order { last.low ≤ s.now.low }
    requires last { IsBelow USER_END last }
    requires next { IsBelow USER_END s.now }
    ensures low { result.low ≡ last.low }
    ensures end { result.low + result.size ≡ max (last.low + last.size) (s.now.low + s.now.size) }
{
    let end = last.end().max(s.end());
    Span {
        low: last.low,
        size: (end - u64::from(last.low)) as u32,
    }
}

// Puts a range that is not empty after others, or makes it one with the last of them where they meet or touch.
fn put_after(runs: &mut Vec<Span>, s: Span) -> Result<(), AllocError>
    requires some { 0 < s.size }
    requires next { IsBelow USER_END s }
    requires separate { AreSeparate 0 runs.old.items }
    requires below { All (IsBelow USER_END) runs.old.items }
    requires order { BeginBy s.low runs.old.items }
    ensures { OnOk result (Extends runs.old.items s runs.new.items) }
{
    match runs.pop() {
        Some(last) => {
            if u64::from(s.low) <= last.end() {
                runs.push(as_one(last, &s))?;
            } else {
                runs.push(last)?;
                runs.push(s)?;
            }
        }
        None => runs.push(s)?,
    }
    Ok(())
}

// The same of a range that may be empty, which adds nothing.
fn put_next(runs: &mut Vec<Span>, s: &Span) -> Result<(), AllocError>
    requires fits { Fits s.now }
    requires separate { AreSeparate 0 runs.old.items }
    requires below { All (IsBelow USER_END) runs.old.items }
    requires order { BeginBy s.now.low runs.old.items }
    ensures { OnOk result (Extends runs.old.items s.now runs.new.items) }
{
    if s.size > 0 {
        put_after(runs, *s)?;
    }
    Ok(())
}

fn merged(alloc: Global, sorted: &[Span]) -> Result<Vec<Span>, AllocError>
    requires order { IsNonDecreasingBy (λ s. s.low) sorted.now }
    requires fits { All Fits sorted.now }
    ensures { IfOk result (λ runs. AreRuns sorted.now runs.items) }
{
    let mut runs = Vec::new(alloc);
    for s in sorted {
        put_next(&mut runs, s)?;
    }
    Ok(runs)
}

/// The addresses of ranges, in ranges as long as they can be, ascending.
pub fn unset_runs(alloc: Global, unset: &[Span]) -> Result<Vec<Span>, AllocError>
    requires { All Fits unset.now }
    ensures { IfOk result (λ runs. runs.items ≡ unset_runs unset.now) }
{
    let mut sorted = Vec::from_slice(alloc, unset)?;
    sort_by_low(&mut sorted)?;
    let runs = merged(alloc, &sorted)?;
    Ok(runs)
}
