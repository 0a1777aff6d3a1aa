ghost use Rattle.std.specs.Prelude.{◌≡◌, IfOk, List, true};
ghost use Rattle.bit_words.specs.declared.width.Width.{Width};
ghost use Rattle.bit_words.specs.declared.width.Width.TheVariants.{B32};
ghost use Rattle.domain_laws.specs.Made.{values_of};
ghost use Rattle.partitioned_memory.specs.declared.fact.Counted.{Counted};
ghost use Rattle.partitioned_memory.specs.Well.{MayHold};
ghost use Rattle.x86_syntax.specs.Text.{next_address};
ghost use Rattle.transfer_functions.specs.BitTests.{bit_changed, bit_value, find_bit, found_bit, test_bit, with_bit};

use crate::flags::by_operator;
use crate::site::Site;
use crate::values::{anything, eval, number, part, set_part};
use abstract_state::{Expansion, Path, State, Truth};
use bit_words::{NoMemory, Op, Width};
use domain_laws::Domain;
use x86_semantics::{BitChange, FlagRule};
use x86_syntax::Operand;

// The bit at a place alone, which counts modulo the width; any where the place is unknown.
fn bit_value<D: Domain>(w: Width, place: Option<u32>, align: u32) -> D
    ensures value { result ≡ bit_value (values_of D.Domain.own D.eq) align w place }
    ensures holds { (blocks : List Counted) → MayHold (values_of D.Domain.own D.eq) blocks w result }
{
    match place {
        None => anything(),
        Some(i) => {
            let one = number(1);
            let places = number(i % w.bits());
            eval(Op::Shl, w, one, places, align)
        }
    }
}

// A value with a bit set, cleared or flipped.
fn bit_changed<D: Domain>(change: BitChange, w: Width, a: D, bit: D, align: u32) -> D
    ensures value { result ≡ bit_changed (values_of D.Domain.own D.eq) align change w a bit }
    ensures holds { (blocks : List Counted) → MayHold (values_of D.Domain.own D.eq) blocks w a → MayHold (values_of D.Domain.own D.eq) blocks w bit → MayHold (values_of D.Domain.own D.eq) blocks w result }
{
    match change {
        BitChange::KeepBit => a,
        BitChange::SetBit => eval(Op::Or, w, a, bit, align),
        BitChange::ClearBit => {
            let zero = number(0);
            let others = eval(Op::Not, w, bit, zero, align);
            eval(Op::And, w, a, others, align)
        }
        BitChange::FlipBit => eval(Op::Xor, w, a, bit, align),
    }
}

// Changes a bit of a register.
fn change_bit<D: Domain>(s: &mut State<D>, change: BitChange, w: Width, r: u8, bit: D, align: u32)
    requires { MayHold (values_of D.Domain.own D.eq) s.old.parts.blocks w bit }
    ensures { s.new ≡ with_bit (values_of D.Domain.own D.eq) align change w r bit s.old }
{
    match change {
        BitChange::KeepBit => {}
        BitChange::SetBit | BitChange::ClearBit | BitChange::FlipBit => {
            let a = part(s, w, r, align);
            let v = bit_changed(change, w, a, bit, align);
            set_part(s, w, r, v, align);
        }
    }
}

// The place of the bit that is looked for, where it is certain that one is set; else any.
fn found_bit<D: Domain>(is_zero: Truth, op: Op, w: Width, b: D, align: u32) -> D
    ensures value { result ≡ found_bit (values_of D.Domain.own D.eq) align is_zero op w b }
    ensures holds { (blocks : List Counted) (v : Width) → MayHold (values_of D.Domain.own D.eq) blocks v b → MayHold (values_of D.Domain.own D.eq) blocks w result }
{
    match is_zero {
        Truth::No => {
            let second = number(0);
            eval(op, w, b, second, align)
        }
        Truth::Yes | Truth::Unknown => anything(),
    }
}

impl Site<'_> {
    /// BT, BTS, BTR, BTC.
    pub(crate) fn test_bit<D: Domain>(
        &self,
        change: BitChange,
        w: Width,
        r: u8,
        index: Operand,
        mut p: Path<D>,
    ) -> Result<Expansion<D>, NoMemory>
        ensures { IfOk result (λ x. x ≡ test_bit (values_of D.Domain.own D.eq) self.now.image.now change w r index (next_address self.now.at self.now.len) p) }
    {
        let align = self.image.align();
        match self.read(&p.state, index) {
            None => Ok(p.ended()),
            Some(v) => {
                let a = part(&p.state, w, r, align);
                let bit = bit_value(w, v.number_of(), align);
                let none = number(0);
                change_bit(&mut p.state, change, w, r, bit, align);
                self.flagged(FlagRule::BitTest, w, (a, v), none, p)
            }
        }
    }

    /// BSF, BSR.
    pub(crate) fn find_bit<D: Domain>(
        &self,
        op: Op,
        w: Width,
        r: u8,
        from: Operand,
        mut p: Path<D>,
    ) -> Result<Expansion<D>, NoMemory>
        ensures { IfOk result (λ x. x ≡ find_bit (values_of D.Domain.own D.eq) self.now.image.now op w r from (next_address self.now.at self.now.len) p) }
    {
        let align = self.image.align();
        match self.read(&p.state, from) {
            None => Ok(p.ended()),
            Some(b) => {
                let none = number(0);
                let is_zero = by_operator(Op::Eq, w, b, none, align);
                let place = found_bit(is_zero, op, w, b, align);
                set_part(&mut p.state, w, r, place, align);
                self.flagged(FlagRule::BitScan, w, (b, none), place, p)
            }
        }
    }
}
