ghost use Rattle.std.specs.Prelude.{◌≡◌, IfOk, true};
ghost use Rattle.bit_words.specs.declared.width.Width.TheVariants.{B32};
ghost use Rattle.domain_laws.specs.Made.{values_of};
ghost use Rattle.partitioned_memory.specs.Well.{MayHold};
ghost use Rattle.x86_semantics.specs.Exchanges.{is_register_numbered};
ghost use Rattle.x86_syntax.specs.Text.{next_address};
ghost use Rattle.x86_semantics.specs.Widths.{has_own_widths, has_place};
ghost use Rattle.abstract_state.specs.Expanding.{joined};
ghost use Rattle.transfer_functions.specs.Exchanges.{compare_exchange, compared_to, exchange_add, exchanged, not_exchanged, taken};

use crate::flags::by_operator;
use crate::products::accumulator;
use crate::site::Site;
use crate::values::{eval, part, set_part};
use abstract_state::{Expansion, Path, Stored, Truth};
use bit_words::{NoMemory, Op, Width};
use domain_laws::Domain;
use memory_map::EAX;
use x86_semantics::{FlagRule, Operation};
use x86_syntax::Operand;

// Whether a place is a register itself.
fn is_register_numbered(register: u8, place: Operand) -> bool
    ensures { result ≡ is_register_numbered register place }
{
    match place {
        Operand::Register(_, r) => r == register,
        _ => false,
    }
}

impl Site<'_> {
    // The flags of the accumulator less a value; no comparison is noted.
    fn compared_to<D: Domain>(
        &self,
        w: Width,
        both: (D, D),
        p: Path<D>,
    ) -> Result<Expansion<D>, NoMemory>
        ensures { IfOk result (λ x. x ≡ compared_to (values_of D.Domain.own D.eq) self.now.image.now w both.0 both.1 (next_address self.now.at self.now.len) p) }
    {
        let r = eval(Op::Sub, w, both.0, both.1, self.image.align());
        self.flagged(FlagRule::Difference, w, both, r, p)
    }

    // Where both are equal the place takes the register.
    fn exchanged<D: Domain>(
        &self,
        place: Operand,
        w: Width,
        r: u8,
        both: (D, D),
        mut p: Path<D>,
    ) -> Result<Expansion<D>, NoMemory>
        requires { has_place w place ≡ true }
        ensures { IfOk result (λ x. x ≡ exchanged (values_of D.Domain.own D.eq) self.now.image.now place w r both.0 both.1 (next_address self.now.at self.now.len) p) }
    {
        let b = part(&p.state, w, r, self.image.align());
        match self.write(&mut p, place, b)? {
            Stored::Done => self.compared_to(w, both, p),
            Stored::Faults => Ok(p.ended()),
            Stored::Stopped(cause) => p.stopped(cause),
        }
    }

    // The accumulator takes a value.
    fn taken<D: Domain>(
        &self,
        w: Width,
        both: (D, D),
        mut p: Path<D>,
    ) -> Result<Expansion<D>, NoMemory>
        requires { MayHold (values_of D.Domain.own D.eq) p.state.parts.blocks B32 both.1 }
        ensures { IfOk result (λ x. x ≡ taken (values_of D.Domain.own D.eq) self.now.image.now w both.0 both.1 (next_address self.now.at self.now.len) p) }
    {
        set_part(&mut p.state, w, EAX, both.1, self.image.align());
        self.compared_to(w, both, p)
    }

    // Where they are not the accumulator takes the place, of which memory is stored to with its old value.
    fn not_exchanged<D: Domain>(
        &self,
        place: Operand,
        w: Width,
        both: (D, D),
        mut p: Path<D>,
    ) -> Result<Expansion<D>, NoMemory>
        requires place { has_place w place ≡ true }
        requires value { MayHold (values_of D.Domain.own D.eq) p.state.parts.blocks w both.1 }
        ensures { IfOk result (λ x. x ≡ not_exchanged (values_of D.Domain.own D.eq) self.now.image.now place w both.0 both.1 (next_address self.now.at self.now.len) p) }
    {
        match place {
            Operand::Memory(_, _) => match self.write(&mut p, place, both.1)? {
                Stored::Done => self.taken(w, both, p),
                Stored::Faults => Ok(p.ended()),
                Stored::Stopped(cause) => p.stopped(cause),
            },
            _ => self.taken(w, both, p),
        }
    }

    // The one and then the other.
    fn exchanged_or_not<D: Domain>(
        &self,
        place: Operand,
        w: Width,
        r: u8,
        both: (D, D),
        p: Path<D>,
    ) -> Result<Expansion<D>, NoMemory>
        requires place { has_place w place ≡ true }
        requires value { MayHold (values_of D.Domain.own D.eq) p.state.parts.blocks w both.1 }
        ensures { IfOk result (λ x. x ≡ joined (exchanged (values_of D.Domain.own D.eq) self.now.image.now place w r both.0 both.1 (next_address self.now.at self.now.len) p) (not_exchanged (values_of D.Domain.own D.eq) self.now.image.now place w both.0 both.1 (next_address self.now.at self.now.len) p)) }
    {
        let rest = p.copy()?;
        let second = self.not_exchanged(place, w, both, rest)?;
        let first = self.exchanged(place, w, r, both, p)?;
        first.join(second)
    }

    /// CMPXCHG.
    pub(crate) fn compare_exchange<D: Domain>(
        &self,
        place: Operand,
        w: Width,
        r: u8,
        p: Path<D>,
    ) -> Result<Expansion<D>, NoMemory>
        requires { has_own_widths (Operation.CompareExchange place w r) ≡ true }
        ensures { IfOk result (λ x. x ≡ compare_exchange (values_of D.Domain.own D.eq) self.now.image.now place w r (next_address self.now.at self.now.len) p) }
    {
        let align = self.image.align();
        match self.read(&p.state, place) {
            None => Ok(p.ended()),
            Some(a) => {
                let both = (accumulator(&p.state, w, align), a);
                match by_operator(Op::Eq, w, both.0, both.1, align) {
                    Truth::Yes => self.exchanged(place, w, r, both, p),
                    Truth::No => self.not_exchanged(place, w, both, p),
                    Truth::Unknown => self.exchanged_or_not(place, w, r, both, p),
                }
            }
        }
    }

    /// XADD.
    pub(crate) fn exchange_add<D: Domain>(
        &self,
        place: Operand,
        w: Width,
        r: u8,
        mut p: Path<D>,
    ) -> Result<Expansion<D>, NoMemory>
        requires { has_own_widths (Operation.ExchangeAdd place w r) ≡ true }
        ensures { IfOk result (λ x. x ≡ exchange_add (values_of D.Domain.own D.eq) self.now.image.now place w r (next_address self.now.at self.now.len) p) }
    {
        let align = self.image.align();
        match self.read(&p.state, place) {
            None => Ok(p.ended()),
            Some(a) => {
                let b = part(&p.state, w, r, align);
                let sum = eval(Op::Add, w, a, b, align);
                match self.write(&mut p, place, sum)? {
                    Stored::Done => {
                        let v = if is_register_numbered(r, place) {
                            sum
                        } else {
                            a
                        };
                        set_part(&mut p.state, w, r, v, align);
                        self.flagged(FlagRule::Sum, w, (a, b), sum, p)
                    }
                    Stored::Faults => Ok(p.ended()),
                    Stored::Stopped(cause) => p.stopped(cause),
                }
            }
        }
    }
}
