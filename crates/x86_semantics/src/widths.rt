ghost use Rattle.std.specs.Prelude.{◌≡◌};
ghost use Rattle.x86_semantics.specs.Widths.{fits_width, has_own_widths, has_place, has_width, is_bit_index, is_count, is_place, is_register, is_target, is_value, width_of};

use crate::Operation;
use bit_words::Width;
use x86_syntax::Operand;

fn width_of(o: Operand) -> Width
    ensures { result ≡ width_of o }
{
    match o {
        Operand::Register(w, _) => w,
        Operand::Number(w, _) => w,
        Operand::Memory(w, _) => w,
        Operand::Offset(_) => Width::B32,
    }
}

fn is_value(o: Operand) -> bool
    ensures { result ≡ is_value o }
{
    !matches!(o, Operand::Offset(_))
}

fn is_place(o: Operand) -> bool
    ensures { result ≡ is_place o }
{
    matches!(o, Operand::Register(_, _) | Operand::Memory(_, _))
}

fn is_register(o: Operand) -> bool
    ensures { result ≡ is_register o }
{
    matches!(o, Operand::Register(_, _))
}

fn has_width(w: Width, o: Operand) -> bool
    ensures { result ≡ has_width w o }
{
    is_value(o) && width_of(o).bits() == w.bits()
}

fn fits_width(w: Width, o: Operand) -> bool
    ensures { result ≡ fits_width w o }
{
    is_value(o) && width_of(o).bits() <= w.bits()
}

fn has_place(w: Width, o: Operand) -> bool
    ensures { result ≡ has_place w o }
{
    is_place(o) && width_of(o).bits() == w.bits()
}

fn is_count(o: Operand) -> bool
    ensures { result ≡ is_count o }
{
    match o {
        Operand::Number(Width::B8, _) => true,
        Operand::Register(Width::B8, r) => r == 1,
        _ => false,
    }
}

fn is_bit_index(w: Width, o: Operand) -> bool
    ensures { result ≡ is_bit_index w o }
{
    match o {
        Operand::Number(Width::B8, _) => true,
        Operand::Register(v, _) => v.bits() == w.bits(),
        _ => false,
    }
}

fn is_target(o: Operand) -> bool
    ensures { result ≡ is_target o }
{
    match o {
        Operand::Offset(_) => true,
        _ => has_width(Width::B32, o),
    }
}

/// Whether the operands have the widths that the opcode table spells for the operation, and what it writes to is a place.
#[tactic(auto, unfolding(crate::specs::Widths::has_own_widths))]
pub fn has_own_widths(operation: Operation) -> bool
    ensures { result ≡ has_own_widths operation }
{
    match operation {
        Operation::Combine { w, to, from, .. } => has_place(w, to) && has_width(w, from),
        Operation::Carry { w, to, from, .. } => has_place(w, to) && has_width(w, from),
        Operation::Compare { w, left, right, .. } => has_width(w, left) && has_width(w, right),
        Operation::Move { to, from } => is_place(to) && fits_width(width_of(to), from),
        Operation::Convert { w, to, from, .. } => has_place(w, to) && fits_width(w, from),
        Operation::Lea { to, .. } => {
            is_register(to) && (has_place(Width::B16, to) || has_place(Width::B32, to))
        }
        Operation::Exchange { place, w, .. } => has_place(w, place),
        Operation::Shift { w, to, count, .. } => has_place(w, to) && is_count(count),
        Operation::DoubleShift { w, to, count, .. } => has_place(w, to) && is_count(count),
        Operation::TestBit { w, index, .. } => is_bit_index(w, index),
        Operation::FindBit { w, from, .. } => has_width(w, from),
        Operation::CompareExchange { place, w, .. } => has_place(w, place),
        Operation::ExchangeAdd { place, w, .. } => has_place(w, place),
        Operation::MultiplyLong { w, from, .. } => has_width(w, from),
        Operation::Multiply { w, left, right, .. } => has_width(w, left) && has_width(w, right),
        Operation::Divide { w, by, .. } => has_width(w, by),
        Operation::Goto { target } => is_target(target),
        Operation::Call { target } => is_target(target),
        Operation::Push { from } => has_width(Width::B32, from),
        Operation::Pop { to } => has_place(Width::B32, to),
        Operation::Set { to, .. } => has_place(Width::B8, to),
        Operation::MoveIf { to, from, .. } => is_place(to) && has_width(width_of(to), from),
        _ => true,
    }
}
