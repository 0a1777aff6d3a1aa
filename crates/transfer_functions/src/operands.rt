ghost use Rattle.std.specs.Prelude.{◌≡◌, IfOk, IfSome};
ghost use Rattle.domain_laws.specs.Made.{values_of};
ghost use Rattle.domain_laws.specs.Reached.{named};
ghost use Rattle.partitioned_memory.specs.Well.{HasCount, MayHold};
ghost use Rattle.x86_semantics.specs.Widths.{width_of};
ghost use Rattle.abstract_state.specs.Accessing.{stored};
ghost use Rattle.transfer_functions.specs.Values.{MayWrite, operand_value, operand_written};
ghost use Rattle.transfer_functions.specs.Arithmetic.{cancels, is_same_register, operand_values};

use crate::site::Site;
use crate::values::{address_value, low_number, number, part, set_part};
use abstract_state::{Path, State, Stored};
use bit_words::{NoMemory, Op, Width};
use domain_laws::Domain;
use x86_syntax::Operand;

// Whether two operands are the same register of the same width.
pub(crate) fn is_same_register(left: Operand, right: Operand) -> bool
    ensures { result ≡ is_same_register left right }
{
    match (left, right) {
        (Operand::Register(v, q), Operand::Register(w, r)) => v.bits() == w.bits() && q == r,
        _ => false,
    }
}

// Whether a register with itself is read as 0.
fn cancels(op: Op) -> bool
    ensures { result ≡ cancels op }
{
    matches!(op, Op::Sub | Op::Xor)
}

impl Site<'_> {
    /// The value of an operand, where it can be read.
    pub(crate) fn read<D: Domain>(&self, s: &State<D>, o: Operand) -> Option<D>
        ensures value { result ≡ operand_value (values_of D.Domain.own D.eq) self.now.image.now o s.now }
        ensures holds { IfSome result (MayHold (values_of D.Domain.own D.eq) s.now.parts.blocks (width_of o)) }
    {
        let align = self.image.align();
        match o {
            Operand::Register(w, r) => Some(part(s, w, r, align)),
            Operand::Number(w, n) => Some(low_number(w, n)),
            Operand::Memory(w, address) => {
                let at = address_value(&address, s, align);
                s.load(self.image, at, w)
            }
            Operand::Offset(offset) => Some(number(offset.cast_unsigned())),
        }
    }

    /// A store of a value at an address.
    pub(crate) fn store<D: Domain>(
        &self,
        p: &mut Path<D>,
        w: Width,
        at: D,
        v: D,
    ) -> Result<Stored, NoMemory>
        requires address { HasCount p.old.state.parts.blocks (named (D.reach at)) }
        requires value { MayHold (values_of D.Domain.own D.eq) p.old.state.parts.blocks w v }
        ensures value { IfOk result (λ done. (done, p.new) ≡ stored (values_of D.Domain.own D.eq) self.now.image.now w at v p.old) }
        ensures blocks { IfOk result (λ _. p.new.state.parts.blocks ≡ p.old.state.parts.blocks) }
    {
        p.store(self.image, w, at, v)
    }

    /// Gives an operand another value, where it can be written.
    pub(crate) fn write<D: Domain>(
        &self,
        p: &mut Path<D>,
        o: Operand,
        v: D,
    ) -> Result<Stored, NoMemory>
        requires { MayWrite (values_of D.Domain.own D.eq) p.old.state.parts.blocks o v }
        ensures blocks { IfOk result (λ _. p.new.state.parts.blocks ≡ p.old.state.parts.blocks) }
        ensures value { IfOk result (λ done. (done, p.new) ≡ operand_written (values_of D.Domain.own D.eq) self.now.image.now o v p.old) }
    {
        let align = self.image.align();
        match o {
            Operand::Register(w, r) => {
                set_part(&mut p.state, w, r, v, align);
                Ok(Stored::Done)
            }
            Operand::Memory(w, address) => {
                let at = address_value(&address, &p.state, align);
                self.store(p, w, at, v)
            }
            Operand::Number(_, _) => Ok(Stored::Done),
            Operand::Offset(_) => Ok(Stored::Done),
        }
    }

    /// Both operands of an operator. A register that the operator cancels with itself is read as 0.
    pub(crate) fn read_both<D: Domain>(
        &self,
        s: &State<D>,
        op: Op,
        left: Operand,
        right: Operand,
    ) -> Option<(D, D)>
        ensures value { result ≡ operand_values (values_of D.Domain.own D.eq) self.now.image.now op left right s.now }
        ensures left { IfSome result (λ both. MayHold (values_of D.Domain.own D.eq) s.now.parts.blocks (width_of left) both.0) }
        ensures right { IfSome result (λ both. MayHold (values_of D.Domain.own D.eq) s.now.parts.blocks (width_of right) both.1) }
    {
        if cancels(op) && is_same_register(left, right) {
            let zero = number(0);
            return Some((zero, zero));
        }
        match self.read(s, left) {
            None => None,
            Some(a) => match self.read(s, right) {
                None => None,
                Some(b) => Some((a, b)),
            },
        }
    }
}
