ghost use Rattle.std.specs.Prelude.{ℕ, ◌≡◌, ◌<◌, ◌≤◌, ◌^◌, ◌+◌, ◌-◌, Some, IfOk, OnOk, length, min, slice_get, take, drop, vec_len};
ghost use Rattle.domain_laws.specs.Made.{values_of};
ghost use Rattle.flow_log.specs.Log.{explored};
ghost use Rattle.flow_worklist.specs.Analysis.{analysis_of, image_log};
ghost use Rattle.flow_worklist.specs.Exploring.{IsIndexed, log_in};
ghost use Rattle.flow_worklist.specs.Rounds.{ArePosts, in_order, with_posts};

use crate::exploring::{Exploration, Limits};
use crate::gate::{Gate, OpenGate};
use crate::post::Post;
use crate::{Log, Row};
use bit_words::NoMemory;
use domain_laws::Domain;
use image_loader::Image;
use std::alloc::Global;
use std::thread::{Threads, available_parallelism, map_chunks};
use stub_file::Stubs;

/// How many rows a round of `explore` has at most.
pub const ROUND: u32 = 4_096;

/// How many rows a piece of a round of `explore` has, which a thread expands one after another.
pub const PIECE: u32 = 64;

// What is explored, and how its rows are expanded.
#[derive(Drop)]
struct Rounds<'a, R: Threads + Sync, G: Gate> {
    rt: &'a R,
    alloc: Global,
    image: &'a Image,
    stubs: &'a Stubs,
    limits: Limits,
    round: u32,
    piece: u32,
    threads: usize,
    gate: &'a G,
}

// How many threads expand a round at most: one for each processor, two at least.
fn thread_count<R: Threads>(rt: &R) -> usize {
    match available_parallelism(rt) {
        Ok(count) => count.get().max(2),
        Err(_) => 2,
    }
}

// A third thread, and more, are worth their making for so many pieces each.
const PIECES_EACH: usize = 8;

// How many rows of a round a thread expands: whole pieces, as many as leave no piece to more than so many threads.
fn rows_each(rows: usize, piece: usize, threads: usize) -> usize
    requires { 0 < piece }
    ensures { 0 < result }
{
    let pieces = rows.div_ceil(piece);
    let wanted = (pieces / PIECES_EACH).max(2);
    let each = pieces.div_ceil(threads.min(wanted).max(1));
    piece.saturating_mul(each.max(1))
}

// The expansions of rows, one after another; the first has the number `from`.
fn piece_posts<D: Domain, G: Gate>(
    alloc: Global,
    image: &Image,
    stubs: &Stubs,
    k: u32,
    gate: &G,
    exploration: &Exploration<D>,
    from: u32,
    rows: &[Row<D>],
) -> Result<Vec<Post<D>>, NoMemory>
    requires { from + length rows.now < 2 ^ 32 }
    ensures { IfOk result (λ posts. ArePosts (values_of D.Domain.own D.eq) image.now stubs.now k rows.now posts.items) }
{
    let mut posts = Vec::new(alloc);
    for (i, row) in rows.iter().enumerate() {
        gate.enter(from + i as u32);
        let post = exploration.expanded_row(alloc, image, stubs, k, row)?;
        posts.push(post)?;
    }
    Ok(posts)
}

// The expansions of pieces, one piece after another. Refuses want of memory, and where that of a piece is refused.
fn in_order<D: Domain>(
    alloc: Global,
    pieces: Vec<Result<Vec<Post<D>>, NoMemory>>,
) -> Result<Vec<Post<D>>, NoMemory>
    ensures { IfOk result (λ posts. in_order pieces.items ≡ Some posts.items) }
{
    let mut posts = Vec::new(alloc);
    for piece in pieces {
        let mut more = piece?;
        posts.append(&mut more)?;
    }
    Ok(posts)
}

// The expansions of rows, in order, each `piece` of them in a thread of its own; the first has the number `from`.
fn posts_of<R: Threads + Sync, D: Domain, G: Gate>(
    rt: &R,
    alloc: Global,
    image: &Image,
    stubs: &Stubs,
    k: u32,
    piece: usize,
    gate: &G,
    exploration: &Exploration<D>,
    from: u32,
    rows: &[Row<D>],
) -> Result<Vec<Post<D>>, NoMemory>
    requires piece { 0 < piece }
    requires few { from + length rows.now < 2 ^ 32 }
    ensures { IfOk result (λ posts. ArePosts (values_of D.Domain.own D.eq) image.now stubs.now k rows.now posts.items) }
{
    let expand = move |start: usize, chunk: &[Row<D>]| -> Result<Vec<Post<D>>, NoMemory>
        requires { from + start + length chunk.now < 2 ^ 32 }
        ensures { IfOk result (λ posts. ArePosts (values_of D.Domain.own D.eq) image.entry.now stubs.entry.now k chunk.now posts.items) }
    {
        let first = from + start as u32;
        piece_posts(alloc, image, stubs, k, gate, exploration, first, chunk)
    };
    let pieces = map_chunks(rt, alloc, rows, piece, &expand)?;
    in_order(alloc, pieces)
}

impl<R: Threads + Sync, G: Gate> Rounds<'_, R, G> {
    // Expansions taken in, in order; the first is that of the row of the number `from`.
    fn take_all<D: Domain>(
        &self,
        exploration: &mut Exploration<D>,
        from: u32,
        posts: Vec<Post<D>>,
    ) -> Result<(), NoMemory>
        requires indexed { IsIndexed (values_of D.Domain.own D.eq) exploration.old }
        requires few { from + vec_len posts < 2 ^ 32 }
        ensures log { OnOk result (log_in exploration.new ≡ with_posts (values_of D.Domain.own D.eq) self.now.limits.k self.now.limits.budget from posts.items (log_in exploration.old)) }
        ensures indexed { OnOk result (IsIndexed (values_of D.Domain.own D.eq) exploration.new) }
    {
        let mut number = from;
        for post in posts {
            exploration.take_in(self.alloc, self.image, number, post, self.limits)?;
            number += 1;
        }
        Ok(())
    }

    // The row of a number expanded by itself.
    fn expand_row<D: Domain>(
        &self,
        exploration: &mut Exploration<D>,
        number: u32,
    ) -> Result<(), NoMemory>
        requires indexed { IsIndexed (values_of D.Domain.own D.eq) exploration.old }
        requires some { number < vec_len exploration.old.rows }
        ensures log { OnOk result (log_in exploration.new ≡ explored (analysis_of (values_of D.Domain.own D.eq) self.now.image.now self.now.stubs.now self.now.limits.k) self.now.limits.budget 1 number (log_in exploration.old)) }
        ensures indexed { OnOk result (IsIndexed (values_of D.Domain.own D.eq) exploration.new) }
    {
        self.gate.enter(number);
        let row = &exploration.rows[number as usize];
        let post = exploration.expanded_row(
            self.alloc,
            self.image,
            self.stubs,
            self.limits.k,
            row,
        )?;
        exploration.take_in(self.alloc, self.image, number, post, self.limits)?;
        Ok(())
    }

    // The rows from the number `from` on expanded, so many.
    fn expand_rows<D: Domain>(
        &self,
        exploration: &mut Exploration<D>,
        from: u32,
        size: u32,
    ) -> Result<(), NoMemory>
        requires indexed { IsIndexed (values_of D.Domain.own D.eq) exploration.old }
        requires piece { 0 < self.now.piece }
        requires some { from + size ≤ vec_len exploration.old.rows }
        requires few { from + size < 2 ^ 32 }
        ensures log { OnOk result (log_in exploration.new ≡ explored (analysis_of (values_of D.Domain.own D.eq) self.now.image.now self.now.stubs.now self.now.limits.k) self.now.limits.budget size from (log_in exploration.old)) }
        ensures indexed { OnOk result (IsIndexed (values_of D.Domain.own D.eq) exploration.new) }
    {
        if size == 1 {
            self.expand_row(exploration, from)?;
            return Ok(());
        }
        let (_, rows) = exploration.rows.split_at(from as usize);
        let (round, _) = rows.split_at(size as usize);
        let posts = posts_of(
            self.rt,
            self.alloc,
            self.image,
            self.stubs,
            self.limits.k,
            rows_each(round.len(), self.piece as usize, self.threads),
            self.gate,
            exploration,
            from,
            round,
        )?;
        self.take_all(exploration, from, posts)?;
        Ok(())
    }

    // How many rows the round from a number on has, of so many: at most `round`, and at most what the budget leaves.
    fn round_size(&self, rows: usize, from: u32) -> u32
        ensures few { from + result < 2 ^ 32 }
        ensures is { result ≡ min (min self.now.round (self.now.limits.budget - from)) (rows - from) }
    {
        let most = self.round.min(self.limits.budget.saturating_sub(from));
        let there = rows.saturating_sub(from as usize);
        there.min(most as usize) as u32
    }

    // The whole log, as it has grown.
    fn explored<D: Domain>(&self) -> Result<Exploration<D>, NoMemory>
        requires round { 0 < self.now.round }
        requires piece { 0 < self.now.piece }
        ensures { IfOk result (λ e. log_in e ≡ image_log (values_of D.Domain.own D.eq) self.now.image.now self.now.stubs.now self.now.limits.k self.now.limits.budget) }
    {
        let mut exploration = Exploration::start(self.alloc, self.image, self.limits)?;
        let mut next = 0;
        let mut size = self.round_size(exploration.rows.len(), next);
        while size > 0 {
            self.expand_rows(&mut exploration, next, size)?;
            next += size;
            size = self.round_size(exploration.rows.len(), next);
        }
        Ok(exploration)
    }
}

/// The log of an image with stubs over a domain, of which the first `budget` rows are expanded, `round` of them at most at a time, in pieces of
/// `piece` rows that are divided among threads, which pass the gate before each row. Neither these numbers nor the gate change the log. It has fewer than 2^32 rows.
/// Refuses want of memory alone.
pub fn explore_in<R: Threads + Sync, D: Domain, G: Gate>(
    rt: &R,
    alloc: Global,
    image: &Image,
    stubs: &Stubs,
    limits: Limits,
    round: u32,
    piece: u32,
    gate: &G,
) -> Result<Log<D>, NoMemory>
    requires round { 0 < round }
    requires piece { 0 < piece }
    ensures log { IfOk result (λ log. log ≡ image_log (values_of D.Domain.own D.eq) image.now stubs.now limits.k limits.budget) }
    ensures few { IfOk result (λ log. length log.rows < 2 ^ 32) }
{
    let rounds = Rounds {
        rt,
        alloc,
        image,
        stubs,
        limits,
        round,
        piece,
        threads: thread_count(rt),
        gate,
    };
    let exploration = rounds.explored()?;
    if exploration.rows.len() > u32::MAX as usize {
        return Err(NoMemory);
    }
    Ok(exploration.finish())
}

/// The log of an image with stubs over a domain, of which the first `budget` rows are expanded, in rounds of 4,096 rows and pieces of 64. It has
/// fewer than 2^32 rows. Refuses want of memory alone.
pub fn explore<R: Threads + Sync, D: Domain>(
    rt: &R,
    alloc: Global,
    image: &Image,
    stubs: &Stubs,
    limits: Limits,
) -> Result<Log<D>, NoMemory>
    ensures log { IfOk result (λ log. log ≡ image_log (values_of D.Domain.own D.eq) image.now stubs.now limits.k limits.budget) }
    ensures few { IfOk result (λ log. length log.rows < 2 ^ 32) }
{
    explore_in(rt, alloc, image, stubs, limits, ROUND, PIECE, &OpenGate)
}
