ghost use Rattle.std.specs.Prelude.{◌≡◌, IfOk, true};
ghost use Rattle.domain_laws.specs.Made.{values_of};
ghost use Rattle.x86_semantics.specs.Widths.{has_own_widths};
ghost use Rattle.abstract_state.specs.Expanding.{starts};
ghost use Rattle.transfer_functions.specs.Post.{expand_instr, expand_operation};

use crate::arithmetic::Shape;
use crate::site::Site;
use abstract_state::{Expansion, Path, State};
use bit_words::NoMemory;
use domain_laws::Domain;
use image_loader::Image;
use std::alloc::Global;
use x86_semantics::{Operation, operation_of};
use x86_syntax::Instr;

impl Site<'_> {
    // A path that begins with a state.
    fn begin<D: Domain>(&self, s: &State<D>) -> Result<Path<D>, NoMemory>
        ensures { IfOk result (λ p. p ≡ starts s.now) }
    {
        Ok(Path::start(self.alloc, s.copy()?))
    }

    fn expand_operation<D: Domain>(
        &self,
        k: u32,
        operation: Operation,
        s: &State<D>,
    ) -> Result<Expansion<D>, NoMemory>
        requires { has_own_widths operation ≡ true }
        ensures { IfOk result (λ x. x ≡ expand_operation (values_of D.Domain.own D.eq) self.now.image.now k operation self.now.at self.now.len (starts s.now)) }
    {
        let p = match operation {
            Operation::Jump { condition, offset } => return self.jump(k, condition, offset, s),
            _ => self.begin(s)?,
        };
        match operation {
            Operation::Combine {
                op,
                rule,
                w,
                to,
                from,
            } => self.combine(Shape { op, rule, w }, to, from, p),
            Operation::Carry {
                op,
                rule,
                w,
                to,
                from,
            } => self.carry(Shape { op, rule, w }, to, from, p),
            Operation::Compare {
                op,
                rule,
                w,
                left,
                right,
            } => self.compare(Shape { op, rule, w }, left, right, p),
            Operation::Shift {
                op,
                rule,
                w,
                to,
                count,
            } => self.shift(Shape { op, rule, w }, to, count, p),
            Operation::DoubleShift {
                op,
                other,
                rule,
                w,
                to,
                register,
                count,
            } => self.double_shift(Shape { op, rule, w }, other, to, register, count, p),
            Operation::TestBit {
                change,
                w,
                register,
                index,
            } => self.test_bit(change, w, register, index, p),
            Operation::FindBit {
                op,
                w,
                register,
                from,
            } => self.find_bit(op, w, register, from, p),
            Operation::CompareExchange { place, w, register } => self.compare_exchange(
                place, w, register, p,
            ),
            Operation::ExchangeAdd { place, w, register } => self.exchange_add(
                place, w, register, p,
            ),
            Operation::MultiplyLong {
                high,
                rule,
                w,
                from,
            } => self.multiply_long(high, rule, w, from, p),
            Operation::Multiply {
                w,
                register,
                left,
                right,
            } => self.multiply(w, register, left, right, p),
            Operation::Divide { signed, w, by } => self.divide(signed, w, by, p),
            Operation::Move { to, from } => self.move_value(to, from, p),
            Operation::Convert {
                op,
                w,
                to,
                from,
                by,
            } => self.convert(op, w, to, from, by, p),
            Operation::Lea { to, address } => self.lea(to, address, p),
            Operation::Exchange { place, w, register } => self.exchange(place, w, register, p),
            Operation::Set { condition, to } => self.set(condition, to, p),
            Operation::MoveIf {
                condition,
                to,
                from,
            } => self.move_if(condition, to, from, p),
            Operation::Push { from } => self.push(from, p),
            Operation::Pop { to } => self.pop(to, p),
            Operation::Leave => self.leave(p),
            Operation::Element {
                kind,
                w,
                seg,
                repeat,
            } => self.string(kind, w, seg, repeat, p),
            Operation::Goto { target } => self.goto(target, p),
            Operation::Loop { kind, offset } => self.loop_back(kind, offset, p),
            Operation::JumpIfNoCount { offset } => self.jump_if_no_count(offset, p),
            Operation::Call { target } => self.call(target, p),
            Operation::Return { extra } => self.return_to(extra, p),
            Operation::Flag { change } => self.change_flag(change, p),
            Operation::LoadStatus => self.load_status(p),
            Operation::StoreStatus => self.store_status(p),
            Operation::Nothing => p.lands(self.next()),
            Operation::Jump { .. } => unreachable!(),
            Operation::Stop { .. } => Ok(Expansion::new(
                Vec::new(self.alloc),
                Vec::new(self.alloc),
                Vec::new(self.alloc),
            )),
        }
    }
}

/// Where the instruction `i` of `len` bytes at an address of the image leads from a state: its next pairs, the causes that leave its location
/// open, and the ranges of the image that it may write. `k` bounds how many states a jump makes of one.
#[tactic(auto, unfolding(crate::specs::Post::expand_instr))]
pub fn expand_instr<D: Domain>(
    alloc: Global,
    image: &Image,
    at: u32,
    i: &Instr,
    len: u8,
    s: &State<D>,
    k: u32,
) -> Result<Expansion<D>, NoMemory>
    ensures { IfOk result (λ x. x ≡ expand_instr (values_of D.Domain.own D.eq) image.now k i.now at len s.now) }
{
    let site = Site {
        alloc,
        image,
        at,
        len,
    };
    site.expand_operation(k, operation_of(i), s)
}
