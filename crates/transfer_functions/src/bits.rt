ghost use Rattle.std.specs.Prelude.{◌≡◌, IfOk, List};
ghost use Rattle.bit_words.specs.declared.width.Width.TheVariants.{B32};
ghost use Rattle.partitioned_memory.specs.declared.fact.Counted.{Counted};
ghost use Rattle.partitioned_memory.specs.Well.{MayHold};
ghost use Rattle.bit_words.specs.Operators.{one_if};
ghost use Rattle.domain_laws.specs.Made.{values_of};
ghost use Rattle.x86_semantics.specs.Bits.{status_byte};
ghost use Rattle.x86_syntax.specs.Text.{next_address};
ghost use Rattle.transfer_functions.specs.Bits.{change_flag, changed, flags_set, has_status, is_known, is_yes, load_status, status_value, store_status, with_carry};

use crate::arithmetic::set_ruled;
use crate::site::Site;
use crate::values::{anything, number, part, set_part};
use abstract_state::{Expansion, Path, State, Truth, Truths};
use bit_words::{NoMemory, Width};
use domain_laws::Domain;
use x86_semantics::{AH, FlagChange, FlagRule};

fn is_known(t: Truth) -> bool
    ensures { result ≡ is_known t }
{
    !matches!(t, Truth::Unknown)
}

// Whether the five flags of the status byte are known.
fn has_status(t: &Truths) -> bool
    ensures { result ≡ has_status t.now }
{
    is_known(t.carry)
        && is_known(t.parity)
        && is_known(t.adjust)
        && is_known(t.zero)
        && is_known(t.sign)
}

// 1 for a flag that is known to be set.
fn bit(t: Truth) -> u32
    ensures { result ≡ one_if (is_yes t) }
{
    match t {
        Truth::Yes => 1,
        Truth::No | Truth::Unknown => 0,
    }
}

// The status byte of the flags that are known to be set.
fn status_byte(t: &Truths) -> u32
    ensures { result ≡ status_byte (flags_set t.now) }
{
    2 + bit(t.carry) + 4 * bit(t.parity) + 16 * bit(t.adjust) + 64 * bit(t.zero) + 128 * bit(t.sign)
}

// What is known of the status byte.
fn status_value<D: Domain>(t: &Truths) -> D
    ensures value { result ≡ status_value (values_of D.Domain.own D.eq) t.now }
    ensures holds { (blocks : List Counted) → MayHold (values_of D.Domain.own D.eq) blocks B32 result }
{
    if has_status(t) {
        number(status_byte(t))
    } else {
        anything()
    }
}

fn set_carry<D: Domain>(s: &mut State<D>, carry: Truth)
    ensures { s.new ≡ with_carry carry s.old }
{
    let flags = Truths { carry, ..s.flags() };
    s.set_flags(flags);
}

fn change<D: Domain>(s: &mut State<D>, change: FlagChange)
    ensures { s.new ≡ changed change s.old }
{
    match change {
        FlagChange::FlipCarry => set_carry(s, s.flags().carry.opposite()),
        FlagChange::ClearCarry => set_carry(s, Truth::No),
        FlagChange::SetCarry => set_carry(s, Truth::Yes),
        FlagChange::ClearDirection => s.set_direction(Truth::No),
        FlagChange::SetDirection => s.set_direction(Truth::Yes),
    }
}

impl Site<'_> {
    /// CMC, CLC, STC, CLD, STD.
    pub(crate) fn change_flag<D: Domain>(
        &self,
        which: FlagChange,
        mut p: Path<D>,
    ) -> Result<Expansion<D>, NoMemory>
        ensures { IfOk result (λ x. x ≡ change_flag which (next_address self.now.at self.now.len) p) }
    {
        change(&mut p.state, which);
        p.lands(self.next())
    }

    /// LAHF.
    pub(crate) fn load_status<D: Domain>(&self, mut p: Path<D>) -> Result<Expansion<D>, NoMemory>
        ensures { IfOk result (λ x. x ≡ load_status (values_of D.Domain.own D.eq) self.now.image.now (next_address self.now.at self.now.len) p) }
    {
        let v = status_value(&p.state.flags());
        set_part(&mut p.state, Width::B8, AH, v, self.image.align());
        p.lands(self.next())
    }

    /// SAHF.
    pub(crate) fn store_status<D: Domain>(&self, mut p: Path<D>) -> Result<Expansion<D>, NoMemory>
        ensures { IfOk result (λ x. x ≡ store_status (values_of D.Domain.own D.eq) self.now.image.now (next_address self.now.at self.now.len) p) }
    {
        let align = self.image.align();
        let v = part(&p.state, Width::B8, AH, align);
        let zero = D::number(0);
        set_ruled(
            &mut p.state,
            FlagRule::Status,
            Width::B8,
            (v, zero),
            zero,
            align,
        );
        p.lands(self.next())
    }
}
