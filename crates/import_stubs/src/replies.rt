ghost use Rattle.std.specs.Prelude.{◌≡◌, ◌+◌, ◌≤ℤ◌, ◌+ℤ◌, ◌-ℤ◌, IfOk, None, OnOk, pos, neg_ℤ};
ghost use Rattle.bit_words.specs.declared.width.Width.TheVariants.{B32};
ghost use Rattle.domain_laws.specs.Made.{values_of};
ghost use Rattle.partitioned_memory.specs.Held.{after_forgetting};
ghost use Rattle.partitioned_memory.specs.Well.{MayHold};
ghost use Rattle.import_semantics.specs.StubDoes.{block_size};
ghost use Rattle.abstract_state.specs.declared.truth.Truth.TheVariants.{No};
ghost use Rattle.abstract_state.specs.Expanding.{joined, lands};
ghost use Rattle.abstract_state.specs.Flags.{unknown_flags};
ghost use Rattle.import_stubs.specs.Stub.{enters, freed, hands_out, replies, returns, returns_block, returns_null, returns_to, with_result};

use crate::call::Call;
use crate::values::{anything, block_place, number, stack_place};
use abstract_state::{Expansion, Path, State, Stored, Truth, Truths};
use address_regions::Region;
use bit_words::{NoMemory, Width};
use domain_laws::Domain;
use flow_log::Cause;
use memory_map::{EAX, ECX, EDX, ESP, USER_END};
use stub_file::{Reply, Stub};

// No block is larger.
const LARGEST_BLOCK: u32 = 67_108_864;

// What a call leaves free: the facts of the stack below the arguments' end go, ECX and EDX are any, and nothing is known of the flags but that
// DF is clear.
fn free<D: Domain>(s: &mut State<D>, end: i64) -> Result<(), NoMemory>
    ensures { OnOk result (s.new ≡ record { regs = record (s.old.regs) { ecx = D.any; edx = D.any }; flags = unknown_flags No; note = None; parts = after_forgetting end s.old.parts }) }
{
    s.forget_below(end)?;
    s.set_register(ECX, anything());
    s.set_register(EDX, anything());
    s.set_flags(Truths::unknown(Truth::No));
    Ok(())
}

// A value in EAX, and the stack pointer at an offset.
fn set_result<D: Domain>(s: &mut State<D>, top: i32, v: D)
    requires value { MayHold (values_of D.Domain.own D.eq) s.old.parts.blocks B32 v }
    requires unnoted { s.old.note ≡ None }
    ensures { s.new ≡ record s.old { regs = record (s.old.regs) { eax = v; esp = D.place Region.Stack top } } }
{
    s.set_register(EAX, v);
    s.set_register(ESP, stack_place(top));
}

// A block has a byte at least.
fn block_size(n: u32) -> u32
    ensures { result ≡ block_size n }
{
    if n == 0 { 1 } else { n }
}

impl Call<'_> {
    // At an address, with a value in EAX and the stack pointer at an offset.
    fn land<D: Domain>(
        &self,
        target: u32,
        top: i32,
        v: D,
        mut p: Path<D>,
    ) -> Result<Expansion<D>, NoMemory>
        requires value { MayHold (values_of D.Domain.own D.eq) p.state.parts.blocks B32 v }
        requires unnoted { p.state.note ≡ None }
        ensures { IfOk result (λ x. x ≡ lands target (with_result (values_of D.Domain.own D.eq) self.now.image.now top v p)) }
    {
        set_result(&mut p.state, top, v);
        p.lands(target)
    }

    // Back to the caller with a block, or nowhere where it is larger than any may be.
    fn hand_out<D: Domain>(
        &self,
        top: i32,
        site: u32,
        size: u32,
        zeroed: bool,
        mut p: Path<D>,
    ) -> Result<Expansion<D>, NoMemory>
        requires { p.state.note ≡ None }
        ensures { IfOk result (λ x. x ≡ hands_out (values_of D.Domain.own D.eq) self.now.image.now top site size zeroed p) }
    {
        if size > LARGEST_BLOCK {
            return Ok(p.ended());
        }
        p.state.add_block(Region::Block { site, size, zeroed })?;
        self.land(site, top, block_place(site, size, zeroed), p)
    }

    // The same where the size may not be known.
    fn return_block<D: Domain>(
        &self,
        top: i32,
        site: u32,
        size: Option<u32>,
        zeroed: bool,
        p: Path<D>,
    ) -> Result<Expansion<D>, NoMemory>
        requires { p.state.note ≡ None }
        ensures { IfOk result (λ x. x ≡ returns_block (values_of D.Domain.own D.eq) self.now.image.now top site size zeroed p) }
    {
        match size {
            Some(n) => self.hand_out(top, site, block_size(n), zeroed, p),
            None => self.land(site, top, anything(), p),
        }
    }

    // Back to the caller with 0, where the call may fail.
    fn return_null<D: Domain>(
        &self,
        top: i32,
        site: u32,
        may_fail: bool,
        p: Path<D>,
    ) -> Result<Expansion<D>, NoMemory>
        requires { p.state.note ≡ None }
        ensures { IfOk result (λ x. x ≡ returns_null (values_of D.Domain.own D.eq) self.now.image.now top site may_fail p) }
    {
        if may_fail {
            self.land(site, top, number(0), p)
        } else {
            Ok(p.ended())
        }
    }

    fn return_block_or_null<D: Domain>(
        &self,
        top: i32,
        site: u32,
        size: Option<u32>,
        zeroed: bool,
        may_fail: bool,
        p: Path<D>,
    ) -> Result<Expansion<D>, NoMemory>
        requires { p.state.note ≡ None }
        ensures { IfOk result (λ x. x ≡ joined (returns_block (values_of D.Domain.own D.eq) self.now.image.now top site size zeroed p) (returns_null (values_of D.Domain.own D.eq) self.now.image.now top site may_fail p)) }
    {
        let rest = p.copy()?;
        let first = self.return_block(top, site, size, zeroed, p)?;
        let second = self.return_null(top, site, may_fail, rest)?;
        first.join(second)
    }

    // Back to the caller.
    fn return_with<D: Domain>(
        &self,
        top: i32,
        reply: Reply,
        site: u32,
        s: &State<D>,
        p: Path<D>,
    ) -> Result<Expansion<D>, NoMemory>
        requires { p.state.note ≡ None }
        ensures { IfOk result (λ x. x ≡ returns (values_of D.Domain.own D.eq) self.now.image.now self.now.offset top reply site s.now p) }
    {
        match reply {
            Reply::Anything => self.land(site, top, anything(), p),
            Reply::Number(n) => self.land(site, top, number(Width::B32.cut(n)), p),
            Reply::Block {
                size,
                zeroed,
                may_fail,
            } => self.return_block_or_null(
                top,
                site,
                self.amount_known(size, s),
                zeroed,
                may_fail,
                p,
            ),
            Reply::Never | Reply::Enter(_) => Ok(p.ended()),
        }
    }

    fn return_to<D: Domain>(
        &self,
        top: i32,
        reply: Reply,
        site: Option<u32>,
        s: &State<D>,
        p: Path<D>,
    ) -> Result<Expansion<D>, NoMemory>
        requires { p.state.note ≡ None }
        ensures { IfOk result (λ x. x ≡ returns_to (values_of D.Domain.own D.eq) self.now.image.now self.now.offset top reply site s.now p) }
    {
        match site {
            Some(site) => self.return_with(top, reply, site, s, p),
            None => p.stopped(Cause::Target),
        }
    }

    // Into a function, with the exit place as its return address.
    fn enter<D: Domain>(
        &self,
        top: i32,
        function: Option<u32>,
        mut p: Path<D>,
    ) -> Result<Expansion<D>, NoMemory>
        requires { p.state.note ≡ None }
        ensures { IfOk result (λ x. x ≡ enters (values_of D.Domain.own D.eq) self.now.image.now top function p) }
    {
        match function {
            Some(f) => match p.store_in(Region::Stack, top, top, Width::B32, number(USER_END))? {
                Stored::Done => self.land(f, top, anything(), p),
                Stored::Faults => Ok(p.ended()),
                Stored::Stopped(cause) => p.stopped(cause),
            },
            None => p.stopped(Cause::Target),
        }
    }

    // The stack pointer below the exit place, in a function that is entered.
    fn below(&self) -> i32
        requires { neg_ℤ (pos 1048576) ≤ℤ self.now.offset }
        ensures { result ≡ self.now.offset -ℤ pos 4 }
    {
        self.offset - 4
    }

    // The stack pointer above the return address and what the function takes off.
    fn above(&self, stub: &Stub) -> i32
        requires { self.now.offset ≤ℤ pos 4096 }
        ensures { result ≡ self.now.offset +ℤ pos (4 + stub.now.cleans) }
    {
        self.offset + i32::from(4 + u16::from(stub.cleans))
    }

    // Where a call leads that wrote what it writes.
    fn reply<D: Domain>(
        &self,
        stub: &Stub,
        s: &State<D>,
        p: Path<D>,
    ) -> Result<Expansion<D>, NoMemory>
        requires least { neg_ℤ (pos 1048576) ≤ℤ self.now.offset }
        requires greatest { self.now.offset ≤ℤ pos 4096 }
        requires unnoted { p.state.note ≡ None }
        ensures { IfOk result (λ x. x ≡ replies (values_of D.Domain.own D.eq) self.now.image.now self.now.offset stub.now stub.now.reply s.now p) }
    {
        match stub.reply {
            Reply::Enter(i) => {
                let function = self.argument_value(i, s).number_of();
                self.enter(self.below(), function, p)
            }
            Reply::Anything | Reply::Number(_) | Reply::Block { .. } | Reply::Never => {
                let site = self.return_value(s).number_of();
                self.return_to(self.above(stub), stub.reply, site, s, p)
            }
        }
    }

    /// Where a call leads that wrote what it writes: what it leaves free goes, and the reply follows.
    pub(crate) fn finish<D: Domain>(
        &self,
        stub: &Stub,
        end: i64,
        s: &State<D>,
        mut p: Path<D>,
    ) -> Result<Expansion<D>, NoMemory>
        requires least { neg_ℤ (pos 1048576) ≤ℤ self.now.offset }
        requires greatest { self.now.offset ≤ℤ pos 4096 }
        ensures { IfOk result (λ x. x ≡ replies (values_of D.Domain.own D.eq) self.now.image.now self.now.offset stub.now stub.now.reply s.now (freed (values_of D.Domain.own D.eq) self.now.image.now end p)) }
    {
        free(&mut p.state, end)?;
        self.reply(stub, s, p)
    }
}
