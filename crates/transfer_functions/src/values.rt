ghost use Rattle.std.specs.Prelude.{◌≡◌, ◌<◌, ◌^◌, List, pos, true};
ghost use Rattle.bit_words.specs.declared.width.Width.{Width};
ghost use Rattle.bit_words.specs.declared.width.Width.TheVariants.{B8, B16, B32};
ghost use Rattle.bit_words.specs.Width.{bits_of, cut};
ghost use Rattle.address_regions.specs.Extents.{has_one_base};
ghost use Rattle.domain_laws.specs.Made.{values_of};
ghost use Rattle.domain_laws.specs.Reached.{named};
ghost use Rattle.partitioned_memory.specs.declared.fact.Counted.{Counted};
ghost use Rattle.partitioned_memory.specs.Well.{HasCount, MayHold};
ghost use Rattle.transfer_functions.specs.Values.{above, address_value, base_value, below, in_segment, index_value, is_zero, log_of_scale, offset_value, part, register_value, scaled_value, value_of_truth, with_part, with_register};

use abstract_state::{State, Truth};
use address_regions::Region;
use bit_words::{Op, Width};
use domain_laws::Domain;
use x86_semantics::{byte_part, put_byte_part};
use x86_syntax::{Address, Seg};

/// The value of a number; it may be held at every width that the number fits.
pub(crate) fn number<D: Domain>(n: u32) -> D
    ensures value { result ≡ D.number n }
    ensures holds { (blocks : List Counted) (w : Width) → n < 2 ^ bits_of w → MayHold (values_of D.Domain.own D.eq) blocks w result }
    ensures word { (blocks : List Counted) → MayHold (values_of D.Domain.own D.eq) blocks B32 result }
{
    D::number(n)
}

/// The value of the low bits of a number.
pub(crate) fn low_number<D: Domain>(w: Width, n: u32) -> D
    ensures value { result ≡ D.number (cut w n) }
    ensures holds { (blocks : List Counted) → MayHold (values_of D.Domain.own D.eq) blocks w result }
{
    let low = w.cut(n);
    number(low)
}

/// The value of every number; it may be held at every width.
pub(crate) fn anything<D: Domain>() -> D
    ensures value { result ≡ D.any }
    ensures holds { (blocks : List Counted) (w : Width) → MayHold (values_of D.Domain.own D.eq) blocks w result }
{
    D::any()
}

/// An operator's value; it may be held at its width where its operands may be held.
pub(crate) fn eval<D: Domain>(op: Op, w: Width, a: D, b: D, align: u32) -> D
    ensures value { result ≡ D.eval op w a b align }
    ensures holds { (blocks : List Counted) (v u : Width) → MayHold (values_of D.Domain.own D.eq) blocks v a → MayHold (values_of D.Domain.own D.eq) blocks u b → MayHold (values_of D.Domain.own D.eq) blocks w result }
    ensures counted { (blocks : List Counted) → HasCount blocks (named (D.reach a)) → HasCount blocks (named (D.reach b)) → HasCount blocks (named (D.reach result)) }
{
    D::eval(op, w, a, b, align)
}

/// 1 or 0 by what is known, and any where it is unknown.
pub(crate) fn value_of_truth<D: Domain>(t: Truth) -> D
    ensures value { result ≡ value_of_truth (values_of D.Domain.own D.eq) t }
    ensures holds { (blocks : List Counted) (w : Width) → MayHold (values_of D.Domain.own D.eq) blocks w result }
{
    match t {
        Truth::Yes => number(1),
        Truth::No => number(0),
        Truth::Unknown => anything(),
    }
}

/// A value some bytes above another.
pub(crate) fn above<D: Domain>(a: D, size: D, align: u32) -> D
    ensures value { result ≡ above (values_of D.Domain.own D.eq) align a size }
    ensures holds { (blocks : List Counted) → MayHold (values_of D.Domain.own D.eq) blocks B32 a → MayHold (values_of D.Domain.own D.eq) blocks B32 size → MayHold (values_of D.Domain.own D.eq) blocks B32 result }
{
    eval(Op::Add, Width::B32, a, size, align)
}

/// A value some bytes below another.
pub(crate) fn below<D: Domain>(a: D, size: D, align: u32) -> D
    ensures value { result ≡ below (values_of D.Domain.own D.eq) align a size }
    ensures holds { (blocks : List Counted) → MayHold (values_of D.Domain.own D.eq) blocks B32 a → MayHold (values_of D.Domain.own D.eq) blocks B32 size → MayHold (values_of D.Domain.own D.eq) blocks B32 result }
{
    eval(Op::Sub, Width::B32, a, size, align)
}

/// Whether a value is 0.
pub(crate) fn is_zero<D: Domain>(v: D, align: u32) -> Truth
    ensures { result ≡ is_zero (values_of D.Domain.own D.eq) align v }
{
    Truth::of_number(D::eval(Op::Eq, Width::B32, v, D::number(0), align).number_of())
}

/// The value of a register of 32 bits.
pub(crate) fn register_value<D: Domain>(s: &State<D>, r: u8) -> D
    ensures value { result ≡ register_value r s.now }
    ensures holds { MayHold (values_of D.Domain.own D.eq) s.now.parts.blocks B32 result }
{
    s.register(r % 8)
}

/// Gives a register of 32 bits another value.
pub(crate) fn set_register<D: Domain>(s: &mut State<D>, r: u8, v: D)
    requires { MayHold (values_of D.Domain.own D.eq) s.old.parts.blocks B32 v }
    ensures { s.new ≡ with_register r v s.old }
{
    s.set_register(r % 8, v);
}

// The low or the high byte of a register.
fn byte_value<D: Domain>(s: &State<D>, r: u8, align: u32) -> D
    ensures value { result ≡ part (values_of D.Domain.own D.eq) align B8 r s.now }
    ensures holds { MayHold (values_of D.Domain.own D.eq) s.now.parts.blocks B8 result }
{
    let op = byte_part(r);
    let whole = register_value(s, r % 4);
    let zero = number(0);
    D::eval(op, Width::B32, whole, zero, align)
}

// The low half of a register.
fn half_value<D: Domain>(s: &State<D>, r: u8, align: u32) -> D
    ensures value { result ≡ part (values_of D.Domain.own D.eq) align B16 r s.now }
    ensures holds { MayHold (values_of D.Domain.own D.eq) s.now.parts.blocks B16 result }
{
    let whole = register_value(s, r);
    let zero = number(0);
    D::eval(Op::Low16, Width::B32, whole, zero, align)
}

/// The value of a register of a width.
pub(crate) fn part<D: Domain>(s: &State<D>, w: Width, r: u8, align: u32) -> D
    ensures value { result ≡ part (values_of D.Domain.own D.eq) align w r s.now }
    ensures holds { MayHold (values_of D.Domain.own D.eq) s.now.parts.blocks w result }
{
    match w {
        Width::B8 => byte_value(s, r, align),
        Width::B16 => half_value(s, r, align),
        Width::B32 => register_value(s, r),
    }
}

/// Gives a register of a width another value.
pub(crate) fn set_part<D: Domain>(s: &mut State<D>, w: Width, r: u8, v: D, align: u32)
    requires { MayHold (values_of D.Domain.own D.eq) s.old.parts.blocks B32 v }
    ensures { s.new ≡ with_part (values_of D.Domain.own D.eq) align w r v s.old }
{
    match w {
        Width::B8 => {
            let whole = r % 4;
            let old = register_value(s, whole);
            let put = eval(put_byte_part(r), Width::B32, old, v, align);
            set_register(s, whole, put);
        }
        Width::B16 => {
            let old = register_value(s, r);
            let put = eval(Op::PutLow16, Width::B32, old, v, align);
            set_register(s, r, put);
        }
        Width::B32 => set_register(s, r, v),
    }
}

// The logarithm of a scale.
fn log_of_scale(scale: u8) -> Option<u32>
    ensures { result ≡ log_of_scale scale }
{
    match scale {
        1 => Some(0),
        2 => Some(1),
        4 => Some(2),
        8 => Some(3),
        _ => None,
    }
}

fn base_value<D: Domain>(base: Option<u8>, s: &State<D>, align: u32) -> D
    ensures value { result ≡ base_value (values_of D.Domain.own D.eq) align base s.now }
    ensures holds { MayHold (values_of D.Domain.own D.eq) s.now.parts.blocks B32 result }
{
    match base {
        None => number(0),
        Some(r) => register_value(s, r),
    }
}

fn scaled_value<D: Domain>(log: Option<u32>, v: D, align: u32) -> D
    ensures value { result ≡ scaled_value (values_of D.Domain.own D.eq) align log v }
    ensures holds { (blocks : List Counted) → MayHold (values_of D.Domain.own D.eq) blocks B32 v → MayHold (values_of D.Domain.own D.eq) blocks B32 result }
{
    match log {
        None => anything(),
        Some(log) => {
            let places = number(log);
            eval(Op::Shl, Width::B32, v, places, align)
        }
    }
}

fn index_value<D: Domain>(index: Option<(u8, u8)>, s: &State<D>, align: u32) -> D
    ensures value { result ≡ index_value (values_of D.Domain.own D.eq) align index s.now }
    ensures holds { MayHold (values_of D.Domain.own D.eq) s.now.parts.blocks B32 result }
{
    match index {
        None => number(0),
        Some((r, scale)) => {
            let v = register_value(s, r);
            scaled_value(log_of_scale(scale), v, align)
        }
    }
}

/// The offset in its segment of an address.
#[tactic(auto, unfolding(crate::specs::Values::offset_value))]
pub(crate) fn offset_value<D: Domain>(a: &Address, s: &State<D>, align: u32) -> D
    ensures value { result ≡ offset_value (values_of D.Domain.own D.eq) align a.now s.now }
    ensures holds { MayHold (values_of D.Domain.own D.eq) s.now.parts.blocks B32 result }
{
    let base = base_value(a.base, s, align);
    let index = index_value(a.index, s, align);
    let sum = above(base, index, align);
    let disp = number(Width::B32.cut(a.disp));
    above(sum, disp, align)
}

// The base of fs or of gs, as a value.
fn segment_base<D: Domain>(region: Region) -> D
    requires { has_one_base region ≡ true }
    ensures value { result ≡ D.place region (pos 0) }
    ensures counted { (blocks : List Counted) → HasCount blocks (named (D.reach result)) }
{
    D::place(region, 0)
}

/// A place in a segment: the base of fs or gs is added.
pub(crate) fn in_segment<D: Domain>(seg: Seg, v: D, align: u32) -> D
    ensures value { result ≡ in_segment (values_of D.Domain.own D.eq) align seg v }
    ensures counted { (blocks : List Counted) → HasCount blocks (named (D.reach v)) → HasCount blocks (named (D.reach result)) }
{
    match seg {
        Seg::Plain => v,
        Seg::Fs => {
            let base = segment_base(Region::Fs);
            eval(Op::Add, Width::B32, base, v, align)
        }
        Seg::Gs => {
            let base = segment_base(Region::Gs);
            eval(Op::Add, Width::B32, base, v, align)
        }
    }
}

/// The address of an operand of memory.
pub(crate) fn address_value<D: Domain>(a: &Address, s: &State<D>, align: u32) -> D
    ensures value { result ≡ address_value (values_of D.Domain.own D.eq) align a.now s.now }
    ensures counted { HasCount s.now.parts.blocks (named (D.reach result)) }
{
    let offset = offset_value(a, s, align);
    in_segment(a.seg, offset, align)
}
