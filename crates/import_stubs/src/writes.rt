ghost use Rattle.std.specs.Prelude.{◌≡◌, IfOk, fold};
ghost use Rattle.domain_laws.specs.Made.{values_of};
ghost use Rattle.domain_laws.specs.Reached.{named};
ghost use Rattle.partitioned_memory.specs.Well.{HasCount};
ghost use Rattle.import_stubs.specs.Stub.{is_null, may_be_null, with_write, written, written_at};

use crate::call::Call;
use abstract_state::{Path, State, Stored};
use bit_words::NoMemory;
use domain_laws::{Domain, Reach};
use flow_log::Cause;
use stub_file::StubWrite;

// Whether a value is the number 0.
fn is_null(reach: Reach) -> bool
    ensures { result ≡ is_null reach }
{
    match reach {
        Reach::Number { high, .. } => high == 0,
        Reach::Place { .. } | Reach::Anywhere => false,
    }
}

// Whether a value is 0 or another number.
fn may_be_null(reach: Reach) -> bool
    ensures { result ≡ may_be_null reach }
{
    match reach {
        Reach::Number { low, high } => low == 0 && high != 0,
        Reach::Place { .. } | Reach::Anywhere => false,
    }
}

impl Call<'_> {
    // So many bytes of which nothing is known, from a pointer on: none where it is 0.
    fn write_at<D: Domain>(&self, p: &mut Path<D>, pointer: D, n: u32) -> Result<Stored, NoMemory>
        requires { HasCount p.old.state.parts.blocks (named (D.reach pointer)) }
        ensures value { IfOk result (λ done. (done, p.new) ≡ written_at (values_of D.Domain.own D.eq) self.now.image.now pointer n p.old) }
        ensures blocks { IfOk result (λ _. p.new.state.parts.blocks ≡ p.old.state.parts.blocks) }
    {
        let reach = pointer.reach();
        if n == 0 || is_null(reach) {
            Ok(Stored::Done)
        } else if may_be_null(reach) {
            Ok(Stored::Stopped(Cause::Store))
        } else {
            p.store_any(self.image, pointer, n)
        }
    }

    // The same where the number of bytes may not be known.
    fn write<D: Domain>(
        &self,
        p: &mut Path<D>,
        pointer: D,
        length: Option<u32>,
    ) -> Result<Stored, NoMemory>
        requires { HasCount p.old.state.parts.blocks (named (D.reach pointer)) }
        ensures value { IfOk result (λ done. (done, p.new) ≡ written (values_of D.Domain.own D.eq) self.now.image.now pointer length p.old) }
        ensures blocks { IfOk result (λ _. p.new.state.parts.blocks ≡ p.old.state.parts.blocks) }
    {
        match length {
            Some(n) => self.write_at(p, pointer, n),
            None => {
                if is_null(pointer.reach()) {
                    Ok(Stored::Done)
                } else {
                    Ok(Stored::Stopped(Cause::Store))
                }
            }
        }
    }

    // A write of a stub, where those before it were done.
    fn write_next<D: Domain>(
        &self,
        done: Stored,
        w: StubWrite,
        s: &State<D>,
        p: &mut Path<D>,
    ) -> Result<Stored, NoMemory>
        requires { p.old.state.parts.blocks ≡ s.now.parts.blocks }
        ensures value { IfOk result (λ next. (next, p.new) ≡ with_write (values_of D.Domain.own D.eq) self.now.image.now self.now.offset s.now (done, p.old) w) }
        ensures blocks { IfOk result (λ _. p.new.state.parts.blocks ≡ p.old.state.parts.blocks) }
    {
        match done {
            Stored::Done => {
                let pointer = self.argument_value(w.arg, s);
                let length = self.amount_known(w.length, s);
                self.write(p, pointer, length)
            }
            Stored::Faults => Ok(Stored::Faults),
            Stored::Stopped(cause) => Ok(Stored::Stopped(cause)),
        }
    }

    /// The writes of a stub, in order, by what a state knows.
    pub(crate) fn write_all<D: Domain>(
        &self,
        writes: &[StubWrite],
        s: &State<D>,
        p: &mut Path<D>,
    ) -> Result<Stored, NoMemory>
        requires { p.old.state.parts.blocks ≡ s.now.parts.blocks }
        ensures { IfOk result (λ done. (done, p.new) ≡ fold (with_write (values_of D.Domain.own D.eq) self.now.image.now self.now.offset s.now) (Stored.Done, p.old) writes.now) }
    {
        let mut done = Stored::Done;
        for w in writes {
            done = self.write_next(done, *w, s, p)?;
        }
        Ok(done)
    }
}
