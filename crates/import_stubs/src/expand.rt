ghost use Rattle.std.specs.Prelude.{◌≡◌, IfOk, IsSome};
ghost use Rattle.domain_laws.specs.Made.{values_of};
ghost use Rattle.memory_map.specs.Image.{name_at};
ghost use Rattle.import_stubs.specs.Stub.{calls, calls_at, expand_at, expand_call, expand_stub, stack_offset};

use crate::call::{Call, stack_offset};
use abstract_state::{Expansion, Path, State, Stored};
use bit_words::NoMemory;
use domain_laws::Domain;
use flow_log::Cause;
use image_loader::Image;
use memory_map::ESP;
use std::alloc::Global;
use stub_file::{Reply, Stub, Stubs};

impl Call<'_> {
    // A call with the stack pointer at an offset.
    fn expand<D: Domain>(&self, stub: &Stub, s: &State<D>) -> Result<Expansion<D>, NoMemory>
        ensures { IfOk result (λ x. x ≡ calls_at (values_of D.Domain.own D.eq) self.now.image.now stub.now self.now.offset s.now) }
    {
        let end = self.end(stub);
        if !self.lies_in_stack(end) {
            return Ok(Expansion::nothing(self.alloc));
        }
        let mut p = Path::start(self.alloc, s.copy()?);
        match self.write_all(stub.writes.as_slice(), s, &mut p)? {
            Stored::Done => self.finish(stub, end, s, p),
            Stored::Faults => Ok(p.ended()),
            Stored::Stopped(cause) => p.stopped(cause),
        }
    }
}

// A call of a function that does not return leads nowhere.
fn expand_call<D: Domain>(
    alloc: Global,
    image: &Image,
    stub: &Stub,
    s: &State<D>,
) -> Result<Expansion<D>, NoMemory>
    ensures { IfOk result (λ x. x ≡ expand_call (values_of D.Domain.own D.eq) image.now stub.now stub.now.reply s.now) }
{
    match stub.reply {
        Reply::Never => Ok(Expansion::nothing(alloc)),
        Reply::Anything | Reply::Number(_) | Reply::Block { .. } | Reply::Enter(_) => {
            expand_returning(alloc, image, stub, s)
        }
    }
}

// The stack pointer is at a place of the stack, or that is the cause.
#[tactic(auto, unfolding(memory_map::specs::Registers::register))]
fn expand_returning<D: Domain>(
    alloc: Global,
    image: &Image,
    stub: &Stub,
    s: &State<D>,
) -> Result<Expansion<D>, NoMemory>
    ensures { IfOk result (λ x. x ≡ calls (values_of D.Domain.own D.eq) image.now stub.now (stack_offset (D.reach s.now.regs.esp)) s.now) }
{
    match stack_offset(s.register(ESP).reach()) {
        Some(offset) => {
            let call = Call {
                alloc,
                image,
                offset,
            };
            call.expand(stub, s)
        }
        None => Expansion::caused(alloc, Cause::Target),
    }
}

/// What a row with a state leads to at an import's place: next pairs, the causes that leave the place open, and the ranges of the image that are
/// written, by what the stub of the import's name says.
///
/// Without a stub the cause is `NoStub`. A function that never returns leads nowhere. The stack pointer must be one place of the stack (else the
/// cause is `Target`), and where the return address and the arguments do not lie in the stack's window there is no next state. Then the stub's
/// writes are done in their order; what they leave free goes; and the reply follows: back to the return address, or into the function that is entered
/// (the cause is `Target` where that is not known).
#[tactic(auto, unfolding(crate::specs::Stub::expand_stub))]
pub fn expand_stub<D: Domain>(
    alloc: Global,
    image: &Image,
    stubs: &Stubs,
    place: u32,
    s: &State<D>,
) -> Result<Expansion<D>, NoMemory>
    requires { IsSome (name_at image.now place) }
    ensures { IfOk result (λ x. x ≡ expand_at (values_of D.Domain.own D.eq) image.now stubs.now place s.now) }
{
    match image.name_at(place) {
        Some(name) => match stubs.find(name) {
            Some(stub) => expand_call(alloc, image, stub, s),
            None => Expansion::caused(alloc, Cause::NoStub),
        },
        None => Ok(Expansion::nothing(alloc)),
    }
}
