ghost use Rattle.std.specs.Prelude.{◌≡◌, IfOk, true};
ghost use Rattle.bit_words.specs.declared.width.Width.TheVariants.{B32};
ghost use Rattle.domain_laws.specs.Made.{values_of};
ghost use Rattle.partitioned_memory.specs.Well.{MayHold};
ghost use Rattle.x86_syntax.specs.Text.{next_address};
ghost use Rattle.memory_map.specs.declared.registers.TheConstants.{ESP};
ghost use Rattle.x86_semantics.specs.Widths.{has_own_widths};
ghost use Rattle.abstract_state.specs.Expanding.{joined, lands};
ghost use Rattle.transfer_functions.specs.Following.{followed};
ghost use Rattle.transfer_functions.specs.Values.{MayWrite, with_register, writing};
ghost use Rattle.transfer_functions.specs.Moves.{convert, exchange, lea, leave, move, move_if, past_word, pop, pop_into, push, pushing, set, stack_pointer, word_below};

use crate::after::After;
use crate::site::Site;
use crate::values::{
    above, below, eval, number, offset_value, part, register_value, set_part, set_register,
    value_of_truth,
};
use abstract_state::{Expansion, Path, State, Stored, Truth};
use bit_words::{NoMemory, Op, Width};
use domain_laws::Domain;
use memory_map::{EBP, ESP};
use x86_semantics::Operation;
use x86_syntax::{Address, Cond, Operand};

/// The stack pointer.
pub(crate) fn stack_pointer<D: Domain>(s: &State<D>) -> D
    ensures value { result ≡ stack_pointer s.now }
    ensures holds { MayHold (values_of D.Domain.own D.eq) s.now.parts.blocks B32 result }
{
    register_value(s, ESP)
}

/// Gives the stack pointer another value.
pub(crate) fn set_stack_pointer<D: Domain>(s: &mut State<D>, v: D)
    requires { MayHold (values_of D.Domain.own D.eq) s.old.parts.blocks B32 v }
    ensures { s.new ≡ with_register ESP v s.old }
{
    set_register(s, ESP, v);
}

impl Site<'_> {
    // Where the next word of the stack goes.
    fn word_below<D: Domain>(&self, s: &State<D>) -> D
        ensures value { result ≡ word_below (values_of D.Domain.own D.eq) self.now.image.now s.now }
        ensures holds { MayHold (values_of D.Domain.own D.eq) s.now.parts.blocks B32 result }
    {
        let size = number(4);
        below(stack_pointer(s), size, self.image.align())
    }

    /// ESP past a popped word.
    pub(crate) fn past_word<D: Domain>(&self, s: &State<D>) -> D
        ensures value { result ≡ past_word (values_of D.Domain.own D.eq) self.now.image.now s.now }
        ensures holds { MayHold (values_of D.Domain.own D.eq) s.now.parts.blocks B32 result }
    {
        let size = number(4);
        above(stack_pointer(s), size, self.image.align())
    }

    /// A word stored below ESP, and then ESP moved there, and what follows.
    pub(crate) fn push_value<D: Domain>(
        &self,
        v: D,
        after: After,
        mut p: Path<D>,
    ) -> Result<Expansion<D>, NoMemory>
        requires { MayHold (values_of D.Domain.own D.eq) p.state.parts.blocks B32 v }
        ensures { IfOk result (λ x. x ≡ pushing (values_of D.Domain.own D.eq) self.now.image.now p v (followed (values_of D.Domain.own D.eq) self.now.image.now after (next_address self.now.at self.now.len) self.now.at)) }
    {
        let top = self.word_below(&p.state);
        match self.store(&mut p, Width::B32, top, v)? {
            Stored::Done => {
                set_stack_pointer(&mut p.state, top);
                self.follow(after, p)
            }
            Stored::Faults => Ok(p.ended()),
            Stored::Stopped(cause) => p.stopped(cause),
        }
    }
}

impl Site<'_> {
    /// An operand with another value, and the next instruction.
    pub(crate) fn written<D: Domain>(
        &self,
        to: Operand,
        v: D,
        mut p: Path<D>,
    ) -> Result<Expansion<D>, NoMemory>
        requires { MayWrite (values_of D.Domain.own D.eq) p.state.parts.blocks to v }
        ensures { IfOk result (λ x. x ≡ writing (values_of D.Domain.own D.eq) self.now.image.now p to v (λ q. lands (next_address self.now.at self.now.len) q)) }
    {
        match self.write(&mut p, to, v)? {
            Stored::Done => p.lands(self.next()),
            Stored::Faults => Ok(p.ended()),
            Stored::Stopped(cause) => p.stopped(cause),
        }
    }

    // The same, and beside it the next instruction with the operand as it was.
    fn written_or_not<D: Domain>(
        &self,
        to: Operand,
        v: D,
        p: Path<D>,
    ) -> Result<Expansion<D>, NoMemory>
        requires { MayWrite (values_of D.Domain.own D.eq) p.state.parts.blocks to v }
        ensures { IfOk result (λ x. x ≡ joined (writing (values_of D.Domain.own D.eq) self.now.image.now p to v (λ q. lands (next_address self.now.at self.now.len) q)) (lands (next_address self.now.at self.now.len) p)) }
    {
        let rest = p.copy()?;
        let second = rest.lands(self.next())?;
        let first = self.written(to, v, p)?;
        first.join(second)
    }

    /// MOV, MOVZX.
    pub(crate) fn move_value<D: Domain>(
        &self,
        to: Operand,
        from: Operand,
        p: Path<D>,
    ) -> Result<Expansion<D>, NoMemory>
        requires { has_own_widths (Operation.Move to from) ≡ true }
        ensures { IfOk result (λ x. x ≡ move (values_of D.Domain.own D.eq) self.now.image.now to from (next_address self.now.at self.now.len) p) }
    {
        match self.read(&p.state, from) {
            None => Ok(p.ended()),
            Some(v) => self.written(to, v, p),
        }
    }

    /// NOT, BSWAP, MOVSX, CBW, CWDE, CWD, CDQ.
    pub(crate) fn convert<D: Domain>(
        &self,
        op: Op,
        w: Width,
        to: Operand,
        from: Operand,
        by: u32,
        p: Path<D>,
    ) -> Result<Expansion<D>, NoMemory>
        requires { has_own_widths (Operation.Convert op w to from by) ≡ true }
        ensures { IfOk result (λ x. x ≡ convert (values_of D.Domain.own D.eq) self.now.image.now op w to from by (next_address self.now.at self.now.len) p) }
    {
        match self.read(&p.state, from) {
            None => Ok(p.ended()),
            Some(v) => {
                let second = number(by);
                let r = eval(op, w, v, second, self.image.align());
                self.written(to, r, p)
            }
        }
    }

    /// LEA.
    pub(crate) fn lea<D: Domain>(
        &self,
        to: Operand,
        address: Address,
        p: Path<D>,
    ) -> Result<Expansion<D>, NoMemory>
        requires { has_own_widths (Operation.Lea to address) ≡ true }
        ensures { IfOk result (λ x. x ≡ lea (values_of D.Domain.own D.eq) self.now.image.now to address (next_address self.now.at self.now.len) p) }
    {
        let v = offset_value(&address, &p.state, self.image.align());
        self.written(to, v, p)
    }

    /// XCHG.
    pub(crate) fn exchange<D: Domain>(
        &self,
        place: Operand,
        w: Width,
        r: u8,
        mut p: Path<D>,
    ) -> Result<Expansion<D>, NoMemory>
        requires { has_own_widths (Operation.Exchange place w r) ≡ true }
        ensures { IfOk result (λ x. x ≡ exchange (values_of D.Domain.own D.eq) self.now.image.now place w r (next_address self.now.at self.now.len) p) }
    {
        let align = self.image.align();
        match self.read(&p.state, place) {
            None => Ok(p.ended()),
            Some(a) => {
                let b = part(&p.state, w, r, align);
                match self.write(&mut p, place, b)? {
                    Stored::Done => {
                        set_part(&mut p.state, w, r, a, align);
                        p.lands(self.next())
                    }
                    Stored::Faults => Ok(p.ended()),
                    Stored::Stopped(cause) => p.stopped(cause),
                }
            }
        }
    }

    /// SETcc.
    pub(crate) fn set<D: Domain>(
        &self,
        condition: Cond,
        to: Operand,
        p: Path<D>,
    ) -> Result<Expansion<D>, NoMemory>
        requires { has_own_widths (Operation.Set condition to) ≡ true }
        ensures { IfOk result (λ x. x ≡ set (values_of D.Domain.own D.eq) self.now.image.now condition to (next_address self.now.at self.now.len) p) }
    {
        let v = value_of_truth(p.state.flags().meets(condition));
        self.written(to, v, p)
    }

    /// CMOVcc.
    pub(crate) fn move_if<D: Domain>(
        &self,
        condition: Cond,
        to: Operand,
        from: Operand,
        p: Path<D>,
    ) -> Result<Expansion<D>, NoMemory>
        requires { has_own_widths (Operation.MoveIf condition to from) ≡ true }
        ensures { IfOk result (λ x. x ≡ move_if (values_of D.Domain.own D.eq) self.now.image.now condition to from (next_address self.now.at self.now.len) p) }
    {
        match self.read(&p.state, from) {
            None => Ok(p.ended()),
            Some(v) => match p.state.flags().meets(condition) {
                Truth::Yes => self.written(to, v, p),
                Truth::No => p.lands(self.next()),
                Truth::Unknown => self.written_or_not(to, v, p),
            },
        }
    }

    /// PUSH.
    pub(crate) fn push<D: Domain>(
        &self,
        from: Operand,
        p: Path<D>,
    ) -> Result<Expansion<D>, NoMemory>
        requires { has_own_widths (Operation.Push from) ≡ true }
        ensures { IfOk result (λ x. x ≡ push (values_of D.Domain.own D.eq) self.now.image.now from (next_address self.now.at self.now.len) p) }
    {
        match self.read(&p.state, from) {
            None => Ok(p.ended()),
            Some(v) => self.push_value(v, After::Next, p),
        }
    }

    // A popped word put where it goes.
    fn pop_into<D: Domain>(
        &self,
        to: Operand,
        v: D,
        mut p: Path<D>,
    ) -> Result<Expansion<D>, NoMemory>
        requires own { has_own_widths (Operation.Pop to) ≡ true }
        requires value { MayHold (values_of D.Domain.own D.eq) p.state.parts.blocks B32 v }
        ensures { IfOk result (λ x. x ≡ pop_into (values_of D.Domain.own D.eq) self.now.image.now to v (next_address self.now.at self.now.len) p) }
    {
        let top = self.past_word(&p.state);
        set_stack_pointer(&mut p.state, top);
        self.written(to, v, p)
    }

    /// POP.
    pub(crate) fn pop<D: Domain>(&self, to: Operand, p: Path<D>) -> Result<Expansion<D>, NoMemory>
        requires { has_own_widths (Operation.Pop to) ≡ true }
        ensures { IfOk result (λ x. x ≡ pop (values_of D.Domain.own D.eq) self.now.image.now to (next_address self.now.at self.now.len) p) }
    {
        let top = stack_pointer(&p.state);
        match p.state.load(self.image, top, Width::B32) {
            None => Ok(p.ended()),
            Some(v) => self.pop_into(to, v, p),
        }
    }

    /// LEAVE.
    pub(crate) fn leave<D: Domain>(&self, mut p: Path<D>) -> Result<Expansion<D>, NoMemory>
        ensures { IfOk result (λ x. x ≡ leave (values_of D.Domain.own D.eq) self.now.image.now (next_address self.now.at self.now.len) p) }
    {
        let frame = register_value(&p.state, EBP);
        match p.state.load(self.image, frame, Width::B32) {
            None => Ok(p.ended()),
            Some(v) => {
                let size = number(4);
                let top = above(frame, size, self.image.align());
                set_stack_pointer(&mut p.state, top);
                set_register(&mut p.state, EBP, v);
                p.lands(self.next())
            }
        }
    }
}
