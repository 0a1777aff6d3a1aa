ghost use Rattle.std.specs.Prelude.{◌≡◌, ◌≢◌, ◌<◌, ◌==◌, ◌^◌, IfOk, List, None, Some, false, if◌then◌else◌, pos, ◌*ℤ◌, ◌+ℤ◌};
ghost use Rattle.domain_laws.specs.Made.{values_of};
ghost use Rattle.partitioned_memory.specs.declared.fact.Counted.{Counted};
ghost use Rattle.partitioned_memory.specs.Well.{MayHold};
ghost use Rattle.bit_words.specs.declared.width.Width.TheVariants.{B32};
ghost use Rattle.bit_words.specs.Width.{bits_of, cut, is_signed, word_of};
ghost use Rattle.x86_syntax.specs.Text.{next_address};
ghost use Rattle.transfer_functions.specs.Products.{accumulator, divide, divide_known, divided, exact, multiply, multiply_long, product, quotients, quotients_signed, quotients_unsigned, upper_half, with_long};

use crate::site::Site;
use crate::values::{anything, number, part, set_part};
use abstract_state::{Expansion, Path, State, Truths};
use bit_words::{NoMemory, Op, Width, apply};
use domain_laws::Domain;
use memory_map::EAX;
use x86_semantics::{FlagRule, upper_register};
use x86_syntax::Operand;

// Quotient and remainder, where the quotient fits.
fn quotients_unsigned(w: Width, x: u64, y: u64) -> Option<(u32, u32)>
    requires some { 0 < y }
    requires small { y < 2 ^ 32 }
    ensures { result ≡ quotients_unsigned w x y }
{
    let quotient = x / y;
    if quotient < w.size() {
        Some((quotient as u32, (x % y) as u32))
    } else {
        None
    }
}

// Two signed numbers as words, where the first fits.
fn signed_words(w: Width, quotient: i64, remainder: i64) -> Option<(u32, u32)>
    ensures { result ≡ (if is_signed w quotient then Some (word_of w quotient, word_of w remainder) else None) }
{
    if w.holds(quotient) {
        Some((w.word(quotient), w.word(remainder)))
    } else {
        None
    }
}

// The same of signed numbers, truncated towards 0.
fn quotients_signed(w: Width, x: i64, y: i64) -> Option<(u32, u32)>
    requires { y ≢ pos 0 }
    ensures { result ≡ quotients_signed w x y }
{
    match x.checked_div(y) {
        Some(quotient) => {
            let remainder = x % y;
            signed_words(w, quotient, remainder)
        }
        None => None,
    }
}

// A signed upper half and a lower one.
fn long_signed(w: Width, high: i32, low: u32) -> i64
    ensures { result ≡ high *ℤ pos (2 ^ bits_of w) +ℤ pos low }
{
    match w {
        Width::B8 => i64::from(high) * 0x100 + i64::from(low),
        Width::B16 => i64::from(high) * 0x1_0000 + i64::from(low),
        Width::B32 => i64::from(high) * 0x1_0000_0000 + i64::from(low),
    }
}

// Quotient and remainder of a dividend with these halves.
#[tactic(auto, unfolding(crate::specs::Products::quotients))]
fn quotients(signed: bool, w: Width, high: u32, low: u32, by: u32) -> Option<(u32, u32)>
    requires { (cut w by == 0) ≡ false }
    ensures { result ≡ quotients signed w high low by }
{
    if signed {
        quotients_signed(
            w,
            long_signed(w, w.signed(high), low),
            i64::from(w.signed(by)),
        )
    } else {
        quotients_unsigned(
            w,
            u64::from(high) * w.size() + u64::from(low),
            u64::from(w.cut(by)),
        )
    }
}

// An operator at two numbers, and any where one is not known.
fn exact<D: Domain>(op: Op, w: Width, a: Option<u32>, b: Option<u32>) -> D
    ensures value { result ≡ exact (values_of D.Domain.own D.eq) op w a b }
    ensures holds { (blocks : List Counted) → MayHold (values_of D.Domain.own D.eq) blocks B32 result }
{
    match (a, b) {
        (Some(x), Some(y)) => number(apply(op, w, x, y)),
        _ => anything(),
    }
}

// The product of two values.
fn product<D: Domain>(op: Op, w: Width, a: D, b: D) -> D
    ensures value { result ≡ product (values_of D.Domain.own D.eq) op w a b }
    ensures holds { (blocks : List Counted) → MayHold (values_of D.Domain.own D.eq) blocks B32 result }
{
    exact(op, w, a.number_of(), b.number_of())
}

pub(crate) fn accumulator<D: Domain>(s: &State<D>, w: Width, align: u32) -> D
    ensures value { result ≡ accumulator (values_of D.Domain.own D.eq) align w s.now }
    ensures holds { MayHold (values_of D.Domain.own D.eq) s.now.parts.blocks w result }
{
    part(s, w, EAX, align)
}

// The upper half of a dividend.
fn upper_half<D: Domain>(s: &State<D>, w: Width, align: u32) -> D
    ensures { result ≡ upper_half (values_of D.Domain.own D.eq) align w s.now }
{
    part(s, w, upper_register(w), align)
}

// Gives the accumulator and the register above it other values.
fn set_long<D: Domain>(s: &mut State<D>, w: Width, low: D, high: D, align: u32)
    requires low { MayHold (values_of D.Domain.own D.eq) s.old.parts.blocks B32 low }
    requires high { MayHold (values_of D.Domain.own D.eq) s.old.parts.blocks B32 high }
    ensures { s.new ≡ with_long (values_of D.Domain.own D.eq) align w low high s.old }
{
    set_part(s, w, EAX, low, align);
    set_part(s, w, upper_register(w), high, align);
}

impl Site<'_> {
    /// MUL, IMUL of the accumulator.
    pub(crate) fn multiply_long<D: Domain>(
        &self,
        high: Op,
        rule: FlagRule,
        w: Width,
        from: Operand,
        mut p: Path<D>,
    ) -> Result<Expansion<D>, NoMemory>
        ensures { IfOk result (λ x. x ≡ multiply_long (values_of D.Domain.own D.eq) self.now.image.now high rule w from (next_address self.now.at self.now.len) p) }
    {
        let align = self.image.align();
        match self.read(&p.state, from) {
            None => Ok(p.ended()),
            Some(b) => {
                let a = accumulator(&p.state, w, align);
                let low = product(Op::Mul, w, a, b);
                let upper = product(high, w, a, b);
                set_long(&mut p.state, w, low, upper, align);
                self.flagged(rule, w, (a, b), low, p)
            }
        }
    }

    /// IMUL with a register to write.
    pub(crate) fn multiply<D: Domain>(
        &self,
        w: Width,
        r: u8,
        left: Operand,
        right: Operand,
        mut p: Path<D>,
    ) -> Result<Expansion<D>, NoMemory>
        ensures { IfOk result (λ x. x ≡ multiply (values_of D.Domain.own D.eq) self.now.image.now w r left right (next_address self.now.at self.now.len) p) }
    {
        match self.read(&p.state, left) {
            None => Ok(p.ended()),
            Some(a) => match self.read(&p.state, right) {
                None => Ok(p.ended()),
                Some(b) => {
                    let low = product(Op::Mul, w, a, b);
                    set_part(&mut p.state, w, r, low, self.image.align());
                    self.flagged(FlagRule::SignedProduct, w, (a, b), low, p)
                }
            },
        }
    }

    // Quotient and remainder in their registers, and nothing known of the six flags.
    fn divided<D: Domain>(
        &self,
        w: Width,
        quotient: D,
        remainder: D,
        mut p: Path<D>,
    ) -> Result<Expansion<D>, NoMemory>
        requires quotient { MayHold (values_of D.Domain.own D.eq) p.state.parts.blocks B32 quotient }
        requires remainder { MayHold (values_of D.Domain.own D.eq) p.state.parts.blocks B32 remainder }
        ensures { IfOk result (λ x. x ≡ divided (values_of D.Domain.own D.eq) self.now.image.now w quotient remainder (next_address self.now.at self.now.len) p) }
    {
        set_long(&mut p.state, w, quotient, remainder, self.image.align());
        let flags = Truths::unknown(p.state.flags().direction);
        p.state.set_flags(flags);
        p.lands(self.next())
    }

    // Where an input is not known.
    fn divided_somehow<D: Domain>(&self, w: Width, p: Path<D>) -> Result<Expansion<D>, NoMemory>
        ensures { IfOk result (λ x. x ≡ divided (values_of D.Domain.own D.eq) self.now.image.now w D.any D.any (next_address self.now.at self.now.len) p) }
    {
        let unknown = anything();
        self.divided(w, unknown, unknown, p)
    }

    // By a number other than 0.
    fn divide_known<D: Domain>(
        &self,
        signed: bool,
        w: Width,
        by: u32,
        p: Path<D>,
    ) -> Result<Expansion<D>, NoMemory>
        requires { (cut w by == 0) ≡ false }
        ensures { IfOk result (λ x. x ≡ divide_known (values_of D.Domain.own D.eq) self.now.image.now signed w by (next_address self.now.at self.now.len) p) }
    {
        let align = self.image.align();
        let high = upper_half(&p.state, w, align).number_of();
        let low = accumulator(&p.state, w, align).number_of();
        match (high, low) {
            (Some(high), Some(low)) => match quotients(signed, w, high, low, by) {
                None => Ok(p.ended()),
                Some((quotient, remainder)) => {
                    let first = number(quotient);
                    let second = number(remainder);
                    self.divided(w, first, second, p)
                }
            },
            _ => self.divided_somehow(w, p),
        }
    }

    /// DIV, IDIV.
    pub(crate) fn divide<D: Domain>(
        &self,
        signed: bool,
        w: Width,
        by: Operand,
        p: Path<D>,
    ) -> Result<Expansion<D>, NoMemory>
        ensures { IfOk result (λ x. x ≡ divide (values_of D.Domain.own D.eq) self.now.image.now signed w by (next_address self.now.at self.now.len) p) }
    {
        match self.read(&p.state, by) {
            None => Ok(p.ended()),
            Some(v) => match v.number_of() {
                None => self.divided_somehow(w, p),
                Some(n) => {
                    if w.cut(n) == 0 {
                        Ok(p.ended())
                    } else {
                        self.divide_known(signed, w, n, p)
                    }
                }
            },
        }
    }
}
