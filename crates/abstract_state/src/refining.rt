ghost use Rattle.std.specs.Prelude.{◌≡◌, ◌∷◌, [], Some, IfOk, map};
ghost use Rattle.std.specs.Option.{option_map};
ghost use Rattle.std.specs.List.{range_with_len};
ghost use Rattle.domain_laws.specs.Made.{values_of};
ghost use Rattle.partitioned_memory.specs.Lists.{Every};
ghost use Rattle.partitioned_memory.specs.Well.{MayHold};
ghost use Rattle.abstract_state.specs.Notes.{IsWellNote};
ghost use Rattle.abstract_state.specs.Refining.{at_most, below, is_one_place, is_settled, narrowed, noted_value, refined, refined_by, with_noted_value};

use crate::note::Note;
use crate::state::State;
use address_regions::Region;
use bit_words::{NoMemory, Width};
use domain_laws::{Domain, Reach};
use image_loader::Image;
use partitioned_memory::Area;
use std::alloc::Global;
use x86_syntax::Cond;

fn is_one_place(reach: Reach) -> bool
    ensures { result ≡ is_one_place reach }
{
    match reach {
        Reach::Place { low, high, .. } => low == high,
        Reach::Number { .. } | Reach::Anywhere => false,
    }
}

// Whether a value is a number or one place, which tells all that a comparison could.
fn is_settled<D: Domain>(v: D) -> bool
    ensures { result ≡ is_settled (values_of D.Domain.own D.eq) v }
{
    v.number_of().is_some() || is_one_place(v.reach())
}

fn single<D: Domain>(alloc: Global, v: D) -> Result<Vec<D>, NoMemory>
    ensures { IfOk result (λ all. all.items ≡ v ∷ []) }
{
    let mut all = Vec::new(alloc);
    all.push(v)?;
    Ok(all)
}

// The numbers below one, each by itself.
fn numbers_below<D: Domain>(alloc: Global, n: u32) -> Result<Vec<D>, NoMemory>
    ensures { IfOk result (λ all. all.items ≡ map D.number (range_with_len 0 n)) }
{
    let mut all = Vec::new(alloc);
    for x in 0..n {
        all.push(D::number(x))?;
    }
    Ok(all)
}

// A value of which one is at most c: each number by itself where they are at most k.
fn at_most<D: Domain>(alloc: Global, k: u32, v: D, c: u32) -> Result<Vec<D>, NoMemory>
    ensures { IfOk result (λ all. all.items ≡ at_most (values_of D.Domain.own D.eq) k v c) }
{
    if c < k {
        numbers_below(alloc, c + 1)
    } else {
        single(alloc, v.up_to(c))
    }
}

fn below<D: Domain>(alloc: Global, k: u32, v: D, c: u32) -> Result<Vec<D>, NoMemory>
    ensures { IfOk result (λ all. all.items ≡ below (values_of D.Domain.own D.eq) k v c) }
{
    if c == 0 {
        Ok(Vec::new(alloc))
    } else {
        at_most(alloc, k, v, c - 1)
    }
}

// The values to which one that was compared with c is narrowed where a condition is met; None where that tells nothing.
fn narrowed<D: Domain>(
    alloc: Global,
    k: u32,
    condition: Cond,
    v: D,
    c: u32,
) -> Result<Option<Vec<D>>, NoMemory>
    ensures { IfOk result (λ all. option_map (λ vs. vs.items) all ≡ narrowed (values_of D.Domain.own D.eq) k condition v c) }
{
    if is_settled(v) {
        return Ok(None);
    }
    if condition.0 == 4 {
        Ok(Some(single(alloc, D::number(c))?))
    } else if condition.0 == 6 {
        Ok(Some(at_most(alloc, k, v, c)?))
    } else if condition.0 == 2 {
        Ok(Some(below(alloc, k, v, c)?))
    } else {
        Ok(None)
    }
}

impl<D: Domain> State<D> {
    fn noted_value(&self, image: &Image, note: Note) -> D
        requires { IsWellNote note }
        ensures value { result ≡ noted_value (values_of D.Domain.own D.eq) image.now note self.now }
        ensures holds { MayHold (values_of D.Domain.own D.eq) self.now.parts.blocks Width.B32 result }
    {
        match note {
            Note::Register(r, _) => self.register(r),
            Note::Word(o, _) => self.value_at(image, Area::In(Region::Stack), o, Width::B32),
        }
    }

    // Another value of the noted register or word; flags and note stay.
    fn with_noted_value(&self, note: Note, v: D) -> Result<State<D>, NoMemory>
        requires note { IsWellNote note }
        requires value { MayHold (values_of D.Domain.own D.eq) self.now.parts.blocks Width.B32 v }
        ensures { IfOk result (λ s. s ≡ with_noted_value (values_of D.Domain.own D.eq) note self.now v) }
    {
        let mut s = self.copy()?;
        match note {
            Note::Register(r, _) => s.refine_register(r, v),
            Note::Word(o, _) => {
                if v.rank() != 0 {
                    s.write_exact(Area::In(Region::Stack), o, Width::B32, v)?;
                }
            }
        }
        Ok(s)
    }

    fn narrowed_states(
        &self,
        alloc: Global,
        note: Note,
        values: &[D],
    ) -> Result<Vec<State<D>>, NoMemory>
        requires note { IsWellNote note }
        requires values { Every (MayHold (values_of D.Domain.own D.eq) self.now.parts.blocks Width.B32) values.now }
        ensures { IfOk result (λ all. all.items ≡ map (with_noted_value (values_of D.Domain.own D.eq) note self.now) values.now) }
    {
        let mut all = Vec::new(alloc);
        for v in values {
            all.push(self.with_noted_value(note, *v)?)?;
        }
        Ok(all)
    }

    fn alone(&self, alloc: Global) -> Result<Vec<State<D>>, NoMemory>
        ensures { IfOk result (λ all. all.items ≡ self.now ∷ []) }
    {
        let mut all = Vec::new(alloc);
        all.push(self.copy()?)?;
        Ok(all)
    }

    fn refined_by(
        &self,
        alloc: Global,
        image: &Image,
        k: u32,
        condition: Cond,
        note: Note,
    ) -> Result<Vec<State<D>>, NoMemory>
        requires { IsWellNote note }
        ensures { IfOk result (λ all. all.items ≡ refined_by (values_of D.Domain.own D.eq) image.now k condition (Some note) self.now) }
    {
        let v = self.noted_value(image, note);
        match narrowed(alloc, k, condition, v, note.compared_with())? {
            None => self.alone(alloc),
            Some(values) => self.narrowed_states(alloc, note, &values),
        }
    }

    /// The states in which a condition is met of which nothing is known, by the note: the noted register or word was compared with a number c,
    /// and is neither a number nor one place.
    ///
    /// Where it is equal it is c. Where it is at most c it is each number from 0 to c by itself where they are at most `k`, and else at most c.
    /// Where it is below c it is at most c - 1, and for c = 0 there is no state. Any other condition, and a state without a note, tell nothing: the state itself.
    #[tactic(auto, unfolding(crate::specs::Refining::refined))]
    pub fn refined(
        &self,
        alloc: Global,
        image: &Image,
        k: u32,
        condition: Cond,
    ) -> Result<Vec<State<D>>, NoMemory>
        ensures { IfOk result (λ all. all.items ≡ refined (values_of D.Domain.own D.eq) image.now k condition self.now) }
    {
        match self.note() {
            None => self.alone(alloc),
            Some(note) => self.refined_by(alloc, image, k, condition, note),
        }
    }
}
