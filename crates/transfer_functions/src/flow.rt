ghost use Rattle.std.specs.Prelude.{◌≡◌, IfOk, map};
ghost use Rattle.bit_words.specs.declared.width.Width.TheVariants.{B32};
ghost use Rattle.domain_laws.specs.Made.{values_of};
ghost use Rattle.partitioned_memory.specs.Well.{MayHold};
ghost use Rattle.x86_syntax.specs.Text.{next_address};
ghost use Rattle.x86_semantics.specs.Operands.{branch_target};
ghost use Rattle.memory_map.specs.declared.registers.TheConstants.{ECX};
ghost use Rattle.abstract_state.specs.Expanding.{starts};
ghost use Rattle.transfer_functions.specs.Values.{branched, is_zero, register_value, with_register};
ghost use Rattle.transfer_functions.specs.Flow.{call, goto, jump, jump_if_no_count, landing, lands_each, loop, meets_zero, negated, one_less, return, states_where};
ghost use Rattle.transfer_functions.specs.Following.{followed};
ghost use Rattle.transfer_functions.specs.Moves.{pushing};

use crate::after::After;
use crate::moves::{set_stack_pointer, stack_pointer};
use crate::site::Site;
use crate::values::{above, below, is_zero, number, register_value, set_register};
use abstract_state::{Expansion, Path, State, Truth, Truths};
use bit_words::{NoMemory, Width};
use domain_laws::Domain;
use flow_log::Cause;
use memory_map::ECX;
use std::alloc::Global;
use x86_semantics::Looping;
use x86_syntax::{Cond, Operand};

// At a known address, or with the cause that it is not known.
fn landing<D: Domain>(target: Option<u32>, p: Path<D>) -> Result<Expansion<D>, NoMemory>
    ensures { IfOk result (λ x. x ≡ landing target p) }
{
    match target {
        Some(a) => p.lands(a),
        None => p.stopped(Cause::Target),
    }
}

/// One target where it is so, the other where it is not, and both in this order where it is unknown.
pub(crate) fn branched<D: Domain>(
    t: Truth,
    taken: u32,
    past: u32,
    p: Path<D>,
) -> Result<Expansion<D>, NoMemory>
    ensures { IfOk result (λ x. x ≡ branched t taken past p) }
{
    match t {
        Truth::Yes => p.lands(taken),
        Truth::No => p.lands(past),
        Truth::Unknown => {
            let rest = p.copy()?;
            let second = rest.lands(past)?;
            let first = p.lands(taken)?;
            first.join(second)
        }
    }
}

// Several states at one address.
fn pairs_at<D: Domain>(
    alloc: Global,
    target: u32,
    states: Vec<State<D>>,
) -> Result<Vec<(u32, State<D>)>, NoMemory>
    ensures { IfOk result (λ all. all.items ≡ map (λ s. (target, s)) states.items) }
{
    let mut all = Vec::new(alloc);
    for s in states {
        all.push((target, s))?;
    }
    Ok(all)
}

// The condition that holds where this one does not.
fn negated(condition: Cond) -> Cond
    ensures { result ≡ negated condition }
{
    if condition.0 % 2 == 0 {
        Cond(condition.0 + 1)
    } else {
        Cond(condition.0 - 1)
    }
}

// Whether ZF lets a loop go on.
fn meets_zero(kind: Looping, t: &Truths) -> Truth
    ensures { result ≡ meets_zero kind t.now }
{
    match kind {
        Looping::Counted => Truth::Yes,
        Looping::Equal => t.zero,
        Looping::NotEqual => t.zero.opposite(),
    }
}

/// ECX less one.
pub(crate) fn one_less<D: Domain>(s: &State<D>, align: u32) -> D
    ensures value { result ≡ one_less (values_of D.Domain.own D.eq) align s.now }
    ensures holds { MayHold (values_of D.Domain.own D.eq) s.now.parts.blocks B32 result }
{
    let one = number(1);
    below(register_value(s, ECX), one, align)
}

/// ECX with another value.
pub(crate) fn set_count<D: Domain>(s: &mut State<D>, count: D)
    requires { MayHold (values_of D.Domain.own D.eq) s.old.parts.blocks B32 count }
    ensures { s.new ≡ with_register ECX count s.old }
{
    set_register(s, ECX, count);
}

/// What is known of whether ECX is 0.
pub(crate) fn has_no_count<D: Domain>(s: &State<D>, align: u32) -> Truth
    ensures { result ≡ is_zero (values_of D.Domain.own D.eq) align (register_value ECX s.now) }
{
    is_zero(register_value(s, ECX), align)
}

impl Site<'_> {
    // The states in which a condition may hold.
    fn states_where<D: Domain>(
        &self,
        k: u32,
        condition: Cond,
        s: &State<D>,
    ) -> Result<Vec<State<D>>, NoMemory>
        ensures { IfOk result (λ states. states.items ≡ states_where (values_of D.Domain.own D.eq) self.now.image.now k condition s.now) }
    {
        match s.flags().meets(condition) {
            Truth::Yes => {
                let mut alone = Vec::new(self.alloc);
                alone.push(s.copy()?)?;
                Ok(alone)
            }
            Truth::No => Ok(Vec::new(self.alloc)),
            Truth::Unknown => s.refined(self.alloc, self.image, k, condition),
        }
    }

    // The states in which a condition may hold, at one address.
    fn states_at<D: Domain>(
        &self,
        target: u32,
        k: u32,
        condition: Cond,
        s: &State<D>,
    ) -> Result<Expansion<D>, NoMemory>
        ensures { IfOk result (λ x. x ≡ lands_each target (states_where (values_of D.Domain.own D.eq) self.now.image.now k condition s.now) (starts s.now)) }
    {
        let states = self.states_where(k, condition, s)?;
        let next = pairs_at(self.alloc, target, states)?;
        Ok(Expansion::new(next, Vec::new(self.alloc), Vec::new(self.alloc)))
    }

    /// Jcc.
    pub(crate) fn jump<D: Domain>(
        &self,
        k: u32,
        condition: Cond,
        offset: i32,
        s: &State<D>,
    ) -> Result<Expansion<D>, NoMemory>
        ensures { IfOk result (λ x. x ≡ jump (values_of D.Domain.own D.eq) self.now.image.now k condition offset self.now.at self.now.len (starts s.now)) }
    {
        let first = self.states_at(self.target(offset), k, condition, s)?;
        let second = self.states_at(self.next(), k, negated(condition), s)?;
        first.join(second)
    }

    /// JMP.
    pub(crate) fn goto<D: Domain>(
        &self,
        target: Operand,
        p: Path<D>,
    ) -> Result<Expansion<D>, NoMemory>
        ensures { IfOk result (λ x. x ≡ goto (values_of D.Domain.own D.eq) self.now.image.now target self.now.at self.now.len p) }
    {
        match target {
            Operand::Offset(offset) => p.lands(self.target(offset)),
            _ => match self.read(&p.state, target) {
                None => Ok(p.ended()),
                Some(v) => landing(v.number_of(), p),
            },
        }
    }

    /// What follows an access.
    pub(crate) fn follow<D: Domain>(
        &self,
        after: After,
        p: Path<D>,
    ) -> Result<Expansion<D>, NoMemory>
        ensures { IfOk result (λ x. x ≡ followed (values_of D.Domain.own D.eq) self.now.image.now after (next_address self.now.at self.now.len) self.now.at p) }
    {
        match after {
            After::Next => p.lands(self.next()),
            After::Target(target) => landing(target, p),
            After::Count(repeat) => self.counted(repeat, p),
        }
    }

    // The address after a call pushed, and then where it goes.
    fn call_to<D: Domain>(&self, target: Option<u32>, p: Path<D>) -> Result<Expansion<D>, NoMemory>
        ensures { IfOk result (λ x. x ≡ pushing (values_of D.Domain.own D.eq) self.now.image.now p ((values_of D.Domain.own D.eq).number (next_address self.now.at self.now.len)) (λ q. landing target q)) }
    {
        let next = number(self.next());
        self.push_value(next, After::Target(target), p)
    }

    /// CALL.
    pub(crate) fn call<D: Domain>(
        &self,
        target: Operand,
        p: Path<D>,
    ) -> Result<Expansion<D>, NoMemory>
        ensures { IfOk result (λ x. x ≡ call (values_of D.Domain.own D.eq) self.now.image.now target self.now.at self.now.len p) }
    {
        match target {
            Operand::Offset(offset) => self.call_to(Some(self.target(offset)), p),
            _ => match self.read(&p.state, target) {
                None => Ok(p.ended()),
                Some(v) => self.call_to(v.number_of(), p),
            },
        }
    }

    /// RET.
    pub(crate) fn return_to<D: Domain>(
        &self,
        extra: u32,
        mut p: Path<D>,
    ) -> Result<Expansion<D>, NoMemory>
        ensures { IfOk result (λ x. x ≡ return (values_of D.Domain.own D.eq) self.now.image.now extra p) }
    {
        let top = stack_pointer(&p.state);
        match p.state.load(self.image, top, Width::B32) {
            None => Ok(p.ended()),
            Some(v) => {
                let size = number(extra);
                let top = above(self.past_word(&p.state), size, self.image.align());
                set_stack_pointer(&mut p.state, top);
                landing(v.number_of(), p)
            }
        }
    }

    /// LOOP, LOOPE, LOOPNE.
    pub(crate) fn loop_back<D: Domain>(
        &self,
        kind: Looping,
        offset: i32,
        mut p: Path<D>,
    ) -> Result<Expansion<D>, NoMemory>
        ensures { IfOk result (λ x. x ≡ loop (values_of D.Domain.own D.eq) self.now.image.now kind offset self.now.at self.now.len p) }
    {
        let align = self.image.align();
        let count = one_less(&p.state, align);
        set_count(&mut p.state, count);
        let ends = is_zero(count, align).or(meets_zero(kind, &p.state.flags()).opposite());
        branched(ends.opposite(), self.target(offset), self.next(), p)
    }

    /// JECXZ.
    pub(crate) fn jump_if_no_count<D: Domain>(
        &self,
        offset: i32,
        p: Path<D>,
    ) -> Result<Expansion<D>, NoMemory>
        ensures { IfOk result (λ x. x ≡ jump_if_no_count (values_of D.Domain.own D.eq) self.now.image.now offset self.now.at self.now.len p) }
    {
        let none = has_no_count(&p.state, self.image.align());
        branched(none, self.target(offset), self.next(), p)
    }
}
