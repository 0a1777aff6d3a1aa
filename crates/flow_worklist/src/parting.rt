use crate::Row;
use crate::row_index::row_nth;
use crate::told::{digest_with, holders_told, number_told};
use abstract_state::Holder;
use bit_words::NoMemory;
use domain_laws::Domain;
use std::alloc::Global;

// By at most so many rows it is seen which holders may tell rows apart, and by at most so many how many rows they do.
const FEW: usize = 16;

const MANY: usize = 1024;

// At most so many places below `count`, evenly spread.
fn places_among(alloc: Global, count: usize, most: usize) -> Result<Vec<usize>, NoMemory> {
    let step = count.div_ceil(most.max(1)).max(1);
    let mut places = Vec::new(alloc);
    for i in 0..count.div_ceil(step) {
        places.push(step.saturating_mul(i))?;
    }
    Ok(places)
}

// The number that the row at a place among those of these numbers has at a holder.
fn number_nth<D: Domain>(
    rows: &[Row<D>],
    numbers: &[usize],
    place: usize,
    holder: Holder,
) -> Option<u32> {
    match row_nth(rows, numbers, place) {
        Some(row) => number_told(holder, row.state()),
        None => None,
    }
}

// Whether the rows at these places have numbers at a holder, not all the same.
fn tells_apart<D: Domain>(
    rows: &[Row<D>],
    numbers: &[usize],
    places: &[usize],
    holder: Holder,
) -> bool {
    let mut first = None;
    let mut apart = false;
    for place in places {
        let number = number_nth(rows, numbers, *place, holder);
        if number.is_none() {
            return false;
        }
        if first.is_none() {
            first = number;
        }
        apart = apart || number != first;
    }
    apart
}

// The holders that tell a few of these rows apart.
fn candidates<D: Domain>(
    alloc: Global,
    rows: &[Row<D>],
    numbers: &[usize],
) -> Result<Vec<Holder>, NoMemory> {
    let mut found = Vec::new(alloc);
    let places = places_among(alloc, numbers.len(), FEW)?;
    let Some(row) = row_nth(rows, numbers, 0) else {
        return Ok(found);
    };
    for holder in holders_told(alloc, row.state())? {
        if tells_apart(rows, numbers, &places, holder) {
            found.push(holder)?;
        }
    }
    Ok(found)
}

// A place and the digest of the numbers that its row has at some holders.
type Digested = (usize, u64);

// One holder more.
fn digested_by<D: Domain>(
    rows: &[Row<D>],
    numbers: &[usize],
    before: &Vec<Digested>,
    holder: Holder,
) -> Result<Vec<Digested>, NoMemory> {
    let mut after = Vec::new(*before.allocator());
    for (place, digest) in before {
        let number = number_nth(rows, numbers, *place, holder).unwrap_or(0);
        after.push((*place, digest_with(*digest, u64::from(number))))?;
    }
    Ok(after)
}

// How many different digests there are.
fn count_apart(digested: &Vec<Digested>) -> Result<usize, NoMemory> {
    let mut digests = Vec::new(*digested.allocator());
    for (_, digest) in digested {
        digests.push(*digest)?;
    }
    digests.sort_unstable();
    digests.dedup();
    Ok(digests.len())
}

/// Holders whose numbers tell these rows apart, each of them more than those before it. An index may go by any holders; by these a digest is had by few
/// rows. Refuses want of memory alone.
pub fn parting<D: Domain>(
    alloc: Global,
    rows: &[Row<D>],
    numbers: &[usize],
) -> Result<Vec<Holder>, NoMemory> {
    let mut found = Vec::new(alloc);
    let mut most = 1;
    let mut digested = Vec::new(alloc);
    for place in places_among(alloc, numbers.len(), MANY)? {
        digested.push((place, 0))?;
    }
    for holder in candidates(alloc, rows, numbers)? {
        let after = digested_by(rows, numbers, &digested, holder)?;
        let apart = count_apart(&after)?;
        if apart > most {
            found.push(holder)?;
            most = apart;
            digested = after;
        }
    }
    Ok(found)
}
