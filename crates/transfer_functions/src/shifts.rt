ghost use Rattle.std.specs.Prelude.{◌≡◌, ◌<◌, IfOk, List, true};
ghost use Rattle.bit_words.specs.Width.{bits_of};
ghost use Rattle.bit_words.specs.declared.width.Width.{Width};
ghost use Rattle.partitioned_memory.specs.declared.fact.Counted.{Counted};
ghost use Rattle.domain_laws.specs.Made.{values_of};
ghost use Rattle.partitioned_memory.specs.Well.{MayHold};
ghost use Rattle.x86_syntax.specs.Text.{next_address};
ghost use Rattle.x86_semantics.specs.Widths.{has_own_widths, has_place, width_of};
ghost use Rattle.transfer_functions.specs.Shifts.{double_shift, double_shift_by, double_shifted, double_truths, is_below, is_no_shift, or_of_shifts, shift, shift_by, shifted, unshifted};

use crate::arithmetic::Shape;
use crate::flags::flags_after;
use crate::site::Site;
use crate::values::{anything, eval, number, part};
use abstract_state::{Expansion, Path, Stored, Truths};
use bit_words::{NoMemory, Op, Width};
use domain_laws::Domain;
use x86_semantics::{FlagRule, Operation};
use x86_syntax::Operand;

// Whether a count is a number that is 0 modulo 32.
fn is_no_shift(count: Option<u32>) -> bool
    ensures { result ≡ is_no_shift count }
{
    match count {
        None => false,
        Some(n) => n % 32 == 0,
    }
}

// A value shifted by a number of places; any where that is unknown.
fn shifted<D: Domain>(op: Op, w: Width, a: D, count: Option<u32>, align: u32) -> D
    ensures value { result ≡ shifted (values_of D.Domain.own D.eq) align op w a count }
    ensures holds { (blocks : List Counted) (v : Width) → MayHold (values_of D.Domain.own D.eq) blocks v a → MayHold (values_of D.Domain.own D.eq) blocks w result }
{
    match count {
        None => anything(),
        Some(n) => {
            let places = number(n % 32);
            eval(op, w, a, places, align)
        }
    }
}

// Whether a count is a number that is below the width, modulo 32.
fn is_below(w: Width, count: Option<u32>) -> bool
    ensures { result ≡ is_below w count }
{
    match count {
        None => false,
        Some(n) => n % 32 < w.bits(),
    }
}

// The bits of one value moved by `n`, and behind them those of another.
fn or_of_shifts<D: Domain>(ops: (Op, Op), w: Width, both: (D, D), n: u32, align: u32) -> D
    requires { n < bits_of w }
    ensures value { result ≡ or_of_shifts (values_of D.Domain.own D.eq) align ops.0 ops.1 w both.0 both.1 n }
    ensures holds { (blocks : List Counted) (u v : Width) → MayHold (values_of D.Domain.own D.eq) blocks u both.0 → MayHold (values_of D.Domain.own D.eq) blocks v both.1 → MayHold (values_of D.Domain.own D.eq) blocks w result }
{
    let places = number(n);
    let rest = number(w.bits() - n);
    let moved = eval(ops.0, w, both.0, places, align);
    let behind = eval(ops.1, w, both.1, rest, align);
    eval(Op::Or, w, moved, behind, align)
}

// By a known count below the width; any by another.
fn double_shifted<D: Domain>(
    ops: (Op, Op),
    w: Width,
    both: (D, D),
    count: Option<u32>,
    align: u32,
) -> D
    ensures value { result ≡ double_shifted (values_of D.Domain.own D.eq) align ops.0 ops.1 w both.0 both.1 count }
    ensures holds { (blocks : List Counted) (u v : Width) → MayHold (values_of D.Domain.own D.eq) blocks u both.0 → MayHold (values_of D.Domain.own D.eq) blocks v both.1 → MayHold (values_of D.Domain.own D.eq) blocks w result }
{
    match count {
        None => anything(),
        Some(n) => {
            if n % 32 < w.bits() {
                or_of_shifts(ops, w, both, n % 32, align)
            } else {
                anything()
            }
        }
    }
}

// The flags after it.
fn double_truths<D: Domain>(
    rule: FlagRule,
    w: Width,
    both: (D, D),
    r: D,
    t: &Truths,
    align: u32,
) -> Truths
    ensures { result ≡ double_truths (values_of D.Domain.own D.eq) align rule w both.0 both.1 r t.now }
{
    if is_below(w, both.1.number_of()) {
        flags_after(rule, w, both, r, t, align)
    } else {
        Truths::unknown(t.direction)
    }
}

impl Site<'_> {
    // By a count of 0: an operand of memory is stored to with its old value.
    fn unshifted<D: Domain>(&self, to: Operand, a: D, p: Path<D>) -> Result<Expansion<D>, NoMemory>
        requires { MayHold (values_of D.Domain.own D.eq) p.state.parts.blocks (width_of to) a }
        ensures { IfOk result (λ x. x ≡ unshifted (values_of D.Domain.own D.eq) self.now.image.now to a (next_address self.now.at self.now.len) p) }
    {
        match to {
            Operand::Memory(_, _) => self.written(to, a, p),
            _ => p.lands(self.next()),
        }
    }

    // By a value.
    fn shift_by<D: Domain>(
        &self,
        shape: Shape,
        to: Operand,
        a: D,
        v: D,
        mut p: Path<D>,
    ) -> Result<Expansion<D>, NoMemory>
        requires place { has_place shape.w to ≡ true }
        requires value { MayHold (values_of D.Domain.own D.eq) p.state.parts.blocks (width_of to) a }
        ensures { IfOk result (λ x. x ≡ shift_by (values_of D.Domain.own D.eq) self.now.image.now shape.op shape.rule shape.w to a v (next_address self.now.at self.now.len) p) }
    {
        let count = v.number_of();
        if is_no_shift(count) {
            return self.unshifted(to, a, p);
        }
        let r = shifted(shape.op, shape.w, a, count, self.image.align());
        match self.write(&mut p, to, r)? {
            Stored::Done => self.flagged(shape.rule, shape.w, (a, v), r, p),
            Stored::Faults => Ok(p.ended()),
            Stored::Stopped(cause) => p.stopped(cause),
        }
    }

    /// SHL, SHR, SAR, ROL, ROR.
    pub(crate) fn shift<D: Domain>(
        &self,
        shape: Shape,
        to: Operand,
        count: Operand,
        p: Path<D>,
    ) -> Result<Expansion<D>, NoMemory>
        requires { has_own_widths (Operation.Shift shape.op shape.rule shape.w to count) ≡ true }
        ensures { IfOk result (λ x. x ≡ shift (values_of D.Domain.own D.eq) self.now.image.now shape.op shape.rule shape.w to count (next_address self.now.at self.now.len) p) }
    {
        match self.read(&p.state, to) {
            None => Ok(p.ended()),
            Some(a) => match self.read(&p.state, count) {
                None => Ok(p.ended()),
                Some(v) => self.shift_by(shape, to, a, v, p),
            },
        }
    }

    // Of `both.0` by a value, with the bits of `both.1`.
    fn double_shift_by<D: Domain>(
        &self,
        shape: Shape,
        other: Op,
        to: Operand,
        both: (D, D),
        v: D,
        mut p: Path<D>,
    ) -> Result<Expansion<D>, NoMemory>
        requires place { has_place shape.w to ≡ true }
        requires value { MayHold (values_of D.Domain.own D.eq) p.state.parts.blocks (width_of to) both.0 }
        requires behind { MayHold (values_of D.Domain.own D.eq) p.state.parts.blocks shape.w both.1 }
        ensures { IfOk result (λ x. x ≡ double_shift_by (values_of D.Domain.own D.eq) self.now.image.now shape.op other shape.rule shape.w to both.0 both.1 v (next_address self.now.at self.now.len) p) }
    {
        let align = self.image.align();
        let count = v.number_of();
        if is_no_shift(count) {
            return self.unshifted(to, both.0, p);
        }
        let r = double_shifted((shape.op, other), shape.w, both, count, align);
        match self.write(&mut p, to, r)? {
            Stored::Done => {
                let flags = p.state.flags();
                let flags = double_truths(shape.rule, shape.w, (both.0, v), r, &flags, align);
                p.state.set_flags(flags);
                p.lands(self.next())
            }
            Stored::Faults => Ok(p.ended()),
            Stored::Stopped(cause) => p.stopped(cause),
        }
    }

    /// SHLD, SHRD.
    pub(crate) fn double_shift<D: Domain>(
        &self,
        shape: Shape,
        other: Op,
        to: Operand,
        r: u8,
        count: Operand,
        p: Path<D>,
    ) -> Result<Expansion<D>, NoMemory>
        requires { has_own_widths (Operation.DoubleShift shape.op other shape.rule shape.w to r count) ≡ true }
        ensures { IfOk result (λ x. x ≡ double_shift (values_of D.Domain.own D.eq) self.now.image.now shape.op other shape.rule shape.w to r count (next_address self.now.at self.now.len) p) }
    {
        let b = part(&p.state, shape.w, r, self.image.align());
        match self.read(&p.state, to) {
            None => Ok(p.ended()),
            Some(a) => match self.read(&p.state, count) {
                None => Ok(p.ended()),
                Some(v) => self.double_shift_by(shape, other, to, (a, b), v, p),
            },
        }
    }
}
