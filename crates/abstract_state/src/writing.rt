ghost use Rattle.std.specs.Prelude.{◌≡◌, ◌≤ℤ◌, IfOk};
ghost use Rattle.domain_laws.specs.Made.{values_of};
ghost use Rattle.domain_laws.specs.Reached.{named};
ghost use Rattle.partitioned_memory.specs.Areas.{block_in};
ghost use Rattle.partitioned_memory.specs.Well.{HasCount};
ghost use Rattle.abstract_state.specs.Accessing.{any_put, any_stored};

use crate::access::{end_of, lies_in_extent};
use crate::path::{Path, cause_outside};
use crate::stored::Stored;
use address_regions::Region;
use bit_words::NoMemory;
use domain_laws::{Domain, Reach};
use flow_log::Cause;
use image_loader::Image;
use partitioned_memory::Area;

impl<D: Domain> Path<D> {
    /// A write of `n` bytes of which nothing is known, at an address of which a value is known. It adds no fact, and where it was not done the path
    /// is as it was.
    ///
    /// At one number or more it faults where all bytes are in the fault zone, or are image bytes none of which may be written;
    /// where they are image bytes otherwise, those that may be written become unknown.
    /// At one place or more whose bytes are in their region those become unknown. All else is a cause.
    /// What is written of the image is recorded, and a noted word that is written is noted no more.
    /// After want of memory the path may have been written in part.
    #[tactic(auto, unfolding(crate::specs::Accessing::any_stored))]
    pub fn store_any(&mut self, image: &Image, address: D, n: u32) -> Result<Stored, NoMemory>
        requires { HasCount self.old.state.parts.blocks (named (D.reach address)) }
        ensures { IfOk result (λ done. (done, self.new) ≡ any_stored (values_of D.Domain.own D.eq) image.now address n self.old) }
    {
        match address.reach() {
            Reach::Number { low, high } => {
                let end = u64::from(high) + u64::from(n);
                self.store_among(image, low, end.saturating_sub(u64::from(low)))
            }
            Reach::Place { region, low, high } => self.store_any_in(region, low, high, n),
            Reach::Anywhere => Ok(Stored::Stopped(Cause::Store)),
        }
    }

    fn store_any_in(
        &mut self,
        region: Region,
        low: i32,
        high: i32,
        n: u32,
    ) -> Result<Stored, NoMemory>
        requires ordered { low ≤ℤ high }
        requires region { HasCount self.old.state.parts.blocks (block_in (Area.In region)) }
        ensures { IfOk result (λ done. (done, self.new) ≡ any_put region low high n self.old) }
    {
        let end = end_of(i64::from(high), n);
        if lies_in_extent(region, i64::from(low), end) {
            self.state
                .write_some_in(region, i64::from(low), i64::from(high), n)?;
            self.state.drop_note_in(region, i64::from(low), end);
            Ok(Stored::Done)
        } else {
            Ok(Stored::Stopped(cause_outside(region)))
        }
    }
}
