ghost use Rattle.std.specs.Prelude.{◌≡◌, ◌+ℤ◌, ◌≤ℤ◌, pos, neg_ℤ, true};
ghost use Rattle.bit_words.specs.declared.width.Width.TheVariants.{B32};
ghost use Rattle.domain_laws.specs.Made.{values_of};
ghost use Rattle.partitioned_memory.specs.Well.{MayHold};
ghost use Rattle.import_semantics.specs.StubDoes.{frame_size};
ghost use Rattle.abstract_state.specs.Accessing.{lies_in_extent};
ghost use Rattle.import_stubs.specs.Stub.{amount_known, argument_value, offset_by, return_value, stack_offset, word_above};

use abstract_state::State;
use address_regions::Region;
use bit_words::Width;
use domain_laws::{Domain, Reach};
use image_loader::Image;
use std::alloc::Global;
use stub_file::{Amount, Stub};

/// A call of an imported function, by the offset in the stack at which the stack pointer is.
#[derive(Clone, Copy)]
pub(crate) struct Call<'a> {
    pub(crate) alloc: Global,
    pub(crate) image: &'a Image,
    pub(crate) offset: i32,
}

// The same offset twice, in the stack.
#[tactic(auto, using(std::proofs::lemmas::Int::int_wrap_fits))]
fn offset_by(region: Region, low: i32, high: i32) -> Option<i32>
    ensures { result ≡ offset_by region low high }
{
    match region {
        Region::Stack => { if low == high { Some(low) } else { None } }
        Region::Fs | Region::Gs | Region::Block { .. } => None,
    }
}

/// The offset in the stack of the one place that a value is.
pub(crate) fn stack_offset(reach: Reach) -> Option<i32>
    ensures { result ≡ stack_offset reach }
{
    match reach {
        Reach::Place { region, low, high } => offset_by(region, low, high),
        Reach::Number { .. } | Reach::Anywhere => None,
    }
}

// How many bytes the return address and the arguments have.
fn frame_size(stub: &Stub) -> u16
    ensures { result ≡ frame_size stub.now }
{
    4 + u16::from(stub.args)
}

impl Call<'_> {
    /// The offset at which the arguments end.
    pub(crate) fn end(&self, stub: &Stub) -> i64
        ensures value { result ≡ self.now.offset +ℤ pos (frame_size stub.now) }
        ensures above { self.now.offset ≤ℤ result }
    {
        i64::from(self.offset) + i64::from(frame_size(stub))
    }

    /// Whether the bytes below an offset, from the stack pointer on, lie in the stack's window.
    pub(crate) fn lies_in_stack(&self, end: i64) -> bool
        ensures lies { result ≡ lies_in_extent Region.Stack self.now.offset end }
        ensures least { result ≡ true → neg_ℤ (pos 1048576) ≤ℤ self.now.offset }
        ensures greatest { result ≡ true → end ≤ℤ pos 4096 }
    {
        let (low, high) = Region::Stack.extent();
        low <= i64::from(self.offset) && end <= high
    }

    // The word so many bytes above the stack pointer.
    fn word_above<D: Domain>(&self, above: u16, s: &State<D>) -> D
        ensures value { result ≡ word_above (values_of D.Domain.own D.eq) self.now.image.now self.now.offset above s.now }
        ensures holds { MayHold (values_of D.Domain.own D.eq) s.now.parts.blocks B32 result }
    {
        let low = i64::from(self.offset) + i64::from(above);
        s.load_in(self.image, Region::Stack, low, Width::B32)
    }

    /// The return address.
    pub(crate) fn return_value<D: Domain>(&self, s: &State<D>) -> D
        ensures { result ≡ return_value (values_of D.Domain.own D.eq) self.now.image.now self.now.offset s.now }
    {
        self.word_above(0, s)
    }

    /// The argument with an index.
    pub(crate) fn argument_value<D: Domain>(&self, i: u8, s: &State<D>) -> D
        ensures value { result ≡ argument_value (values_of D.Domain.own D.eq) self.now.image.now self.now.offset i s.now }
        ensures holds { MayHold (values_of D.Domain.own D.eq) s.now.parts.blocks B32 result }
    {
        self.word_above(4 + 4 * u16::from(i), s)
    }

    /// An amount, where it is known.
    pub(crate) fn amount_known<D: Domain>(&self, amount: Amount, s: &State<D>) -> Option<u32>
        ensures { result ≡ amount_known (values_of D.Domain.own D.eq) self.now.image.now self.now.offset amount s.now }
    {
        match amount {
            Amount::Fixed(n) => Some(n),
            Amount::Argument(i) => self.argument_value(i, s).number_of(),
        }
    }
}
