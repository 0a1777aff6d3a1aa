ghost use Rattle.std.specs.Prelude.{ℕ, ◌≡◌, [], ◌∷◌, ◌++◌, Some, IfOk, OnOk, false, map, nat_eq};
ghost use Rattle.std.specs.HashMap.{get};
ghost use Rattle.domain_laws.specs.Made.{values_of};
ghost use Rattle.flow_log.specs.Log.{first_log, row_after, with_notes, with_next_pair, with_next_pairs, with_row};
ghost use Rattle.stub_file.specs.Stubs.{StatedStubs};
ghost use Rattle.abstract_state.specs.State.{IsWellState, covers_state};
ghost use Rattle.flow_worklist.specs.Analysis.{analysis_of, edge_by, widened_by};
ghost use Rattle.flow_worklist.specs.Exploring.{IsIndexed, IsIndexedBut, IsOf, log_in};
ghost use Rattle.flow_worklist.specs.PostOf.{IsPostOf};

use crate::post::{Post, expanded};
use crate::reading::Reading;
use crate::visits::Visits;
use crate::{Log, Row};
use abstract_state::{Expansion, State};
use bit_words::NoMemory;
use domain_laws::Domain;
use flow_log::{Cause, Edge};
use image_loader::Image;
use std::alloc::Global;
use std::collections::HashMap;
use stub_file::Stubs;

/// How far an exploration goes.
#[derive(Clone, Copy)]
pub struct Limits {
    /// How many values of one rank are seen at a place before others are raised.
    pub k: u32,
    /// How many rows are expanded.
    pub budget: u32,
}

/// A log that grows, with what is kept of each location.
#[derive(Drop)]
pub struct Exploration<D: Domain> {
    pub rows: Vec<Row<D>>,
    edges: Vec<Edge>,
    causes: Vec<(u32, Cause)>,
    writes: Vec<(u32, u32)>,
    visits: HashMap<u32, Visits<D>>,
}

impl<D: Domain> Exploration<D> {
    /// Row 0 alone.
    pub fn start(alloc: Global, image: &Image, limits: Limits) -> Result<Exploration<D>, NoMemory>
        ensures log { (stubs : StatedStubs) → IfOk result (λ e. log_in e ≡ first_log (analysis_of (values_of D.Domain.own D.eq) image.now stubs limits.k) limits.budget) }
        ensures indexed { IfOk result (IsIndexed (values_of D.Domain.own D.eq)) }
    {
        let state = State::start(alloc, image)?;
        let mut first = Visits::new(alloc, image, image.entry());
        first.add(0, &state)?;
        let mut visits = HashMap::new(alloc);
        visits.insert(image.entry(), first)?;
        let mut rows = Vec::new(alloc);
        rows.push(Row::new(None, image.entry(), state, 0 < limits.budget))?;
        Ok(Exploration {
            rows,
            edges: Vec::new(alloc),
            causes: Vec::new(alloc),
            writes: Vec::new(alloc),
            visits,
        })
    }

    /// The expansion of a row; what its location's bytes begin with is not read again.
    pub fn expanded_row(
        &self,
        alloc: Global,
        image: &Image,
        stubs: &Stubs,
        k: u32,
        row: &Row<D>,
    ) -> Result<Post<D>, NoMemory>
        ensures { IfOk result (IsPostOf (values_of D.Domain.own D.eq) image.now stubs.now k row.now.location row.now.state) }
    {
        let at = row.location();
        match self.visits.get(&at) {
            Some(visits) => expanded(alloc, image, stubs, k, at, row.state(), &visits.reading),
            None => {
                let reading = Reading::of(image.fetch(at));
                expanded(alloc, image, stubs, k, at, row.state(), &reading)
            }
        }
    }

    // What is kept of a location, taken out.
    fn take(&mut self, alloc: Global, image: &Image, at: u32) -> Visits<D>
        requires { IsIndexed (values_of D.Domain.own D.eq) self.old }
        ensures taken { IsOf (values_of D.Domain.own D.eq) result at self.old.rows.items }
        ensures others { (q : ℕ) → nat_eq at q ≡ false → get nat_eq self.new.visits q ≡ get nat_eq self.old.visits q }
        ensures rows { self.new.rows ≡ self.old.rows }
        ensures edges { self.new.edges ≡ self.old.edges }
        ensures causes { self.new.causes ≡ self.old.causes }
        ensures writes { self.new.writes ≡ self.old.writes }
    {
        match self.visits.remove(&at) {
            Some(visits) => visits,
            None => Visits::new(alloc, image, at),
        }
    }

    // What is kept of a location put back.
    fn put(&mut self, at: u32, visits: Visits<D>) -> Result<(), NoMemory>
        requires taken { IsOf (values_of D.Domain.own D.eq) visits at self.old.rows.items }
        requires others { IsIndexedBut (values_of D.Domain.own D.eq) at self.old }
        ensures indexed { OnOk result (IsIndexed (values_of D.Domain.own D.eq) self.new) }
        ensures rows { self.new.rows ≡ self.old.rows }
        ensures edges { self.new.edges ≡ self.old.edges }
        ensures causes { self.new.causes ≡ self.old.causes }
        ensures writes { self.new.writes ≡ self.old.writes }
    {
        self.visits.insert(at, visits)?;
        Ok(())
    }

    // A row at a location of which this is kept.
    fn push_row(
        &mut self,
        parent: u32,
        at: u32,
        state: State<D>,
        mut visits: Visits<D>,
        budget: u32,
    ) -> Result<(), NoMemory>
        requires taken { IsOf (values_of D.Domain.own D.eq) visits at self.old.rows.items }
        requires others { IsIndexedBut (values_of D.Domain.own D.eq) at self.old }
        requires well { IsWellState (values_of D.Domain.own D.eq) state }
        ensures rows { OnOk result (self.new.rows.items ≡ self.old.rows.items ++ row_after budget self.old.rows.items (Some parent) at state ∷ []) }
        ensures indexed { OnOk result (IsIndexed (values_of D.Domain.own D.eq) self.new) }
        ensures edges { self.new.edges ≡ self.old.edges }
        ensures causes { self.new.causes ≡ self.old.causes }
        ensures writes { self.new.writes ≡ self.old.writes }
    {
        let number = self.rows.len();
        let alloc = *self.rows.allocator();
        visits.index_many(alloc, at, &self.rows)?;
        visits.add(number, &state)?;
        let row = Row::new(Some(parent), at, state, number < budget as usize);
        self.rows.push(row)?;
        self.put(at, visits)
    }

    // A row at a location of which this is kept, unless one there covers it.
    #[tactic(auto, unfolding(flow_log::specs::Log::with_row))]
    fn add_row(
        &mut self,
        parent: u32,
        at: u32,
        state: State<D>,
        visits: Visits<D>,
        budget: u32,
    ) -> Result<(), NoMemory>
        requires taken { IsOf (values_of D.Domain.own D.eq) visits at self.old.rows.items }
        requires others { IsIndexedBut (values_of D.Domain.own D.eq) at self.old }
        requires well { IsWellState (values_of D.Domain.own D.eq) state }
        ensures rows { OnOk result (self.new.rows.items ≡ with_row (covers_state (values_of D.Domain.own D.eq)) budget parent at state self.old.rows.items) }
        ensures indexed { OnOk result (IsIndexed (values_of D.Domain.own D.eq) self.new) }
        ensures edges { self.new.edges ≡ self.old.edges }
        ensures causes { self.new.causes ≡ self.old.causes }
        ensures writes { self.new.writes ≡ self.old.writes }
    {
        if visits.covers(at, &self.rows, &state) {
            return self.put(at, visits);
        }
        self.push_row(parent, at, state, visits, budget)
    }

    // A next pair of a row, with its edge.
    fn add(
        &mut self,
        alloc: Global,
        image: &Image,
        number: u32,
        edge: Edge,
        state: State<D>,
        limits: Limits,
    ) -> Result<(), NoMemory>
        requires { IsIndexed (values_of D.Domain.own D.eq) self.old }
        ensures log { OnOk result (log_in self.new ≡ with_next_pair (covers_state (values_of D.Domain.own D.eq)) (widened_by (values_of D.Domain.own D.eq) limits.k) limits.budget number edge (edge.to, state) (log_in self.old)) }
        ensures indexed { OnOk result (IsIndexed (values_of D.Domain.own D.eq) self.new) }
    {
        let mut visits = self.take(alloc, image, edge.to);
        let widened = visits.widened(alloc, edge.to, &self.rows, limits.k, state)?;
        self.add_row(number, edge.to, widened, visits, limits.budget)?;
        self.edges.push(edge)?;
        Ok(())
    }

    // The causes that the expansion of a row gave, and the ranges that it may write.
    fn note(&mut self, number: u32, expansion: &Expansion<D>) -> Result<(), NoMemory>
        requires { IsIndexed (values_of D.Domain.own D.eq) self.old }
        ensures log { OnOk result (log_in self.new ≡ with_notes number expansion.now (log_in self.old)) }
        ensures indexed { OnOk result (IsIndexed (values_of D.Domain.own D.eq) self.new) }
    {
        push_causes(&mut self.causes, number, expansion.causes())?;
        self.writes.extend_from_slice(expansion.writes())?;
        Ok(())
    }

    // The next pairs of a row, with their edges.
    fn follow(
        &mut self,
        alloc: Global,
        image: &Image,
        number: u32,
        post: Post<D>,
        limits: Limits,
    ) -> Result<(), NoMemory>
        requires { IsIndexed (values_of D.Domain.own D.eq) self.old }
        ensures log { OnOk result (log_in self.new ≡ with_next_pairs (covers_state (values_of D.Domain.own D.eq)) (widened_by (values_of D.Domain.own D.eq) limits.k) limits.budget number (edge_by post.at post.label) post.expansion.next (log_in self.old)) }
        ensures indexed { OnOk result (IsIndexed (values_of D.Domain.own D.eq) self.new) }
    {
        let from = post.at;
        let label = post.label;
        for pair in post.expansion.into_next() {
            let (to, state) = pair;
            let edge = Edge {
                from,
                to,
                label: label.copy(alloc)?,
            };
            self.add(alloc, image, number, edge, state, limits)?;
        }
        Ok(())
    }

    /// The expansion of the row of a number taken in.
    pub fn take_in(
        &mut self,
        alloc: Global,
        image: &Image,
        number: u32,
        post: Post<D>,
        limits: Limits,
    ) -> Result<(), NoMemory>
        requires { IsIndexed (values_of D.Domain.own D.eq) self.old }
        ensures log { OnOk result (log_in self.new ≡ with_next_pairs (covers_state (values_of D.Domain.own D.eq)) (widened_by (values_of D.Domain.own D.eq) limits.k) limits.budget number (edge_by post.at post.label) post.expansion.next (with_notes number post.expansion (log_in self.old))) }
        ensures indexed { OnOk result (IsIndexed (values_of D.Domain.own D.eq) self.new) }
    {
        self.note(number, &post.expansion)?;
        self.follow(alloc, image, number, post, limits)
    }

    /// The log, grown.
    pub fn finish(self) -> Log<D>
        ensures { result ≡ log_in self }
    {
        Log {
            rows: self.rows,
            edges: self.edges,
            causes: self.causes,
            writes: self.writes,
        }
    }
}

fn push_causes(out: &mut Vec<(u32, Cause)>, number: u32, causes: &[Cause]) -> Result<(), NoMemory>
    ensures { OnOk result (out.new.items ≡ out.old.items ++ map (λ c. (number, c)) causes.now) }
{
    for cause in causes {
        out.push((number, *cause))?;
    }
    Ok(())
}
