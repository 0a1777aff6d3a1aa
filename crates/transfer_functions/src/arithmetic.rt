ghost use Rattle.std.specs.Prelude.{◌≡◌, IfOk, IsTrue, List, true, pos, ◌+ℤ◌};
ghost use Rattle.abstract_state.specs.Accessing.{lies_in_extent};
ghost use Rattle.std.specs.Option.{ForSome};
ghost use Rattle.domain_laws.specs.Made.{values_of};
ghost use Rattle.bit_words.specs.declared.width.Width.{Width};
ghost use Rattle.partitioned_memory.specs.declared.fact.Counted.{Counted};
ghost use Rattle.partitioned_memory.specs.Areas.{IsInside, interval_at};
ghost use Rattle.partitioned_memory.specs.Well.{MayHold};
ghost use Rattle.x86_syntax.specs.Text.{next_address};
ghost use Rattle.x86_semantics.specs.Widths.{has_own_widths, has_place, width_of};
ghost use Rattle.abstract_state.specs.Notes.{IsWellNote};
ghost use Rattle.transfer_functions.specs.Values.{MayWrite};
ghost use Rattle.transfer_functions.specs.Arithmetic.{carried, carry, combine, combined, compare, compared, compared_with, flagged, keeps, note_of, noted, noted_place, with_ruled};

use crate::flags::flags_after;
use crate::operands::is_same_register;
use crate::site::Site;
use crate::values::{address_value, eval, part, value_of_truth};
use abstract_state::{Expansion, Note, Path, State, Stored};
use address_regions::Region;
use bit_words::{NoMemory, Op, Width};
use domain_laws::{Domain, Reach};
use partitioned_memory::Area;
use x86_semantics::{FlagRule, Operation};
use x86_syntax::Operand;

/// An operator, and the rule of its flags, at a width.
#[derive(Clone, Copy)]
pub(crate) struct Shape {
    pub(crate) op: Op,
    pub(crate) rule: FlagRule,
    pub(crate) w: Width,
}

// Whether a register with itself gives the register.
fn keeps(op: Op) -> bool
    ensures { result ≡ keeps op }
{
    matches!(op, Op::And | Op::Or)
}

// The operator at two operands with these values.
fn combined<D: Domain>(shape: Shape, left: Operand, right: Operand, both: (D, D), align: u32) -> D
    ensures value { result ≡ combined (values_of D.Domain.own D.eq) align shape.op shape.w left right both.0 both.1 }
    ensures writable { (blocks : List Counted) (u : Width) → has_place shape.w left ≡ true → MayHold (values_of D.Domain.own D.eq) blocks (width_of left) both.0 → MayHold (values_of D.Domain.own D.eq) blocks u both.1 → MayWrite (values_of D.Domain.own D.eq) blocks left result }
{
    if keeps(shape.op) && is_same_register(left, right) {
        both.0
    } else {
        eval(shape.op, shape.w, both.0, both.1, align)
    }
}

// The operator twice: with the second operand, and with CF.
fn carried<D: Domain>(shape: Shape, both: (D, D), s: &State<D>, align: u32) -> D
    ensures value { result ≡ carried (values_of D.Domain.own D.eq) align shape.op shape.w both.0 both.1 s.now }
    ensures holds { (blocks : List Counted) (v u : Width) → MayHold (values_of D.Domain.own D.eq) blocks v both.0 → MayHold (values_of D.Domain.own D.eq) blocks u both.1 → MayHold (values_of D.Domain.own D.eq) blocks shape.w result }
{
    let first = eval(shape.op, shape.w, both.0, both.1, align);
    let carry = value_of_truth(s.flags().carry);
    eval(shape.op, shape.w, first, carry, align)
}

// The flags by a rule.
pub(crate) fn set_ruled<D: Domain>(
    s: &mut State<D>,
    rule: FlagRule,
    w: Width,
    both: (D, D),
    r: D,
    align: u32,
)
    ensures { s.new ≡ with_ruled (values_of D.Domain.own D.eq) align rule w both.0 both.1 r s.old }
{
    let flags = s.flags();
    s.set_flags(flags_after(rule, w, both, r, &flags, align));
}

// Whether the four bytes at an offset are bytes of the stack.
fn is_stack_word(low: i32) -> bool
    ensures value { result ≡ lies_in_extent Region.Stack low (low +ℤ pos 4) }
    ensures inside { IsTrue result → IsInside (interval_at (Area.In Region.Stack) low (pos 4)) }
{
    let low = i64::from(low);
    -1_048_576 <= low && low + 4 <= 4096
}

// The note of a word of the stack with a number, where the address is one place.
fn noted_place<D: Domain>(at: D, c: Option<u32>) -> Option<Note>
    ensures note { result ≡ noted_place (values_of D.Domain.own D.eq) 0 (D.reach at) c }
    ensures well { ForSome result IsWellNote }
{
    match at.reach() {
        Reach::Place {
            region: Region::Stack,
            low,
            high,
        } => {
            if low == high && is_stack_word(low) {
                match c {
                    Some(c) => Some(Note::Word(i64::from(low), c)),
                    None => None,
                }
            } else {
                None
            }
        }
        _ => None,
    }
}

// The note of an operand with a number.
fn noted<D: Domain>(o: Operand, c: Option<u32>, s: &State<D>, align: u32) -> Option<Note>
    ensures note { result ≡ noted (values_of D.Domain.own D.eq) align o c s.now }
    ensures well { ForSome result IsWellNote }
{
    match o {
        Operand::Register(Width::B32, r) => match c {
            Some(c) => Some(Note::Register(r % 8, c)),
            None => None,
        },
        Operand::Memory(Width::B32, address) => {
            let at = address_value(&address, s, align);
            noted_place(at, c)
        }
        _ => None,
    }
}

// What an operand is compared with.
fn compared_with<D: Domain>(right: Operand, b: D, s: &State<D>, align: u32) -> D
    ensures { result ≡ compared_with (values_of D.Domain.own D.eq) align right b s.now }
{
    match right {
        Operand::Register(w, r) => part(s, w, r, align),
        _ => b,
    }
}

// The note of a comparison.
fn note_of<D: Domain>(
    op: Op,
    left: Operand,
    right: Operand,
    b: D,
    s: &State<D>,
    align: u32,
) -> Option<Note>
    ensures note { result ≡ note_of (values_of D.Domain.own D.eq) align op left right b s.now }
    ensures well { ForSome result IsWellNote }
{
    match op {
        Op::Sub => {
            let c = compared_with(right, b, s, align).number_of();
            noted(left, c, s, align)
        }
        Op::And => {
            if is_same_register(left, right) {
                noted(left, Some(0), s, align)
            } else {
                None
            }
        }
        _ => None,
    }
}

impl Site<'_> {
    /// The flags of a rule, and the next instruction.
    pub(crate) fn flagged<D: Domain>(
        &self,
        rule: FlagRule,
        w: Width,
        both: (D, D),
        r: D,
        mut p: Path<D>,
    ) -> Result<Expansion<D>, NoMemory>
        ensures { IfOk result (λ x. x ≡ flagged (values_of D.Domain.own D.eq) self.now.image.now rule w both.0 both.1 r (next_address self.now.at self.now.len) p) }
    {
        set_ruled(&mut p.state, rule, w, both, r, self.image.align());
        p.lands(self.next())
    }

    /// ADD, SUB, AND, OR, XOR, INC, DEC, NEG.
    pub(crate) fn combine<D: Domain>(
        &self,
        shape: Shape,
        to: Operand,
        from: Operand,
        mut p: Path<D>,
    ) -> Result<Expansion<D>, NoMemory>
        requires { has_own_widths (Operation.Combine shape.op shape.rule shape.w to from) ≡ true }
        ensures { IfOk result (λ x. x ≡ combine (values_of D.Domain.own D.eq) self.now.image.now shape.op shape.rule shape.w to from (next_address self.now.at self.now.len) p) }
    {
        match self.read_both(&p.state, shape.op, to, from) {
            None => Ok(p.ended()),
            Some(both) => {
                let r = combined(shape, to, from, both, self.image.align());
                match self.write(&mut p, to, r)? {
                    Stored::Done => self.flagged(shape.rule, shape.w, both, r, p),
                    Stored::Faults => Ok(p.ended()),
                    Stored::Stopped(cause) => p.stopped(cause),
                }
            }
        }
    }

    /// ADC, SBB.
    pub(crate) fn carry<D: Domain>(
        &self,
        shape: Shape,
        to: Operand,
        from: Operand,
        mut p: Path<D>,
    ) -> Result<Expansion<D>, NoMemory>
        requires { has_own_widths (Operation.Carry shape.op shape.rule shape.w to from) ≡ true }
        ensures { IfOk result (λ x. x ≡ carry (values_of D.Domain.own D.eq) self.now.image.now shape.op shape.rule shape.w to from (next_address self.now.at self.now.len) p) }
    {
        match self.read_both(&p.state, shape.op, to, from) {
            None => Ok(p.ended()),
            Some(both) => {
                let r = carried(shape, both, &p.state, self.image.align());
                match self.write(&mut p, to, r)? {
                    Stored::Done => self.flagged(shape.rule, shape.w, both, r, p),
                    Stored::Faults => Ok(p.ended()),
                    Stored::Stopped(cause) => p.stopped(cause),
                }
            }
        }
    }

    // The flags of a comparison, and its note.
    fn set_compared<D: Domain>(
        &self,
        shape: Shape,
        left: Operand,
        right: Operand,
        both: (D, D),
        s: &mut State<D>,
    )
        ensures { s.new ≡ compared (values_of D.Domain.own D.eq) self.now.image.now shape.op shape.rule shape.w left right both.0 both.1 s.old }
    {
        let align = self.image.align();
        let note = note_of(shape.op, left, right, both.1, s, align);
        let r = combined(shape, left, right, both, align);
        set_ruled(s, shape.rule, shape.w, both, r, align);
        s.set_note(note);
    }

    /// CMP, TEST.
    pub(crate) fn compare<D: Domain>(
        &self,
        shape: Shape,
        left: Operand,
        right: Operand,
        mut p: Path<D>,
    ) -> Result<Expansion<D>, NoMemory>
        ensures { IfOk result (λ x. x ≡ compare (values_of D.Domain.own D.eq) self.now.image.now shape.op shape.rule shape.w left right (next_address self.now.at self.now.len) p) }
    {
        match self.read_both(&p.state, shape.op, left, right) {
            None => Ok(p.ended()),
            Some(both) => {
                self.set_compared(shape, left, right, both, &mut p.state);
                p.lands(self.next())
            }
        }
    }
}
