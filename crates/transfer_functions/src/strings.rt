ghost use Rattle.std.specs.Prelude.{◌≡◌, IfOk, IfSome, List};
ghost use Rattle.partitioned_memory.specs.declared.fact.Counted.{Counted};
ghost use Rattle.bit_words.specs.declared.width.Width.TheVariants.{B32};
ghost use Rattle.domain_laws.specs.Made.{values_of};
ghost use Rattle.partitioned_memory.specs.Well.{MayHold};
ghost use Rattle.x86_syntax.specs.Text.{next_address};
ghost use Rattle.abstract_state.specs.Accessing.{loaded, storing};
ghost use Rattle.abstract_state.specs.Expanding.{joined, lands};
ghost use Rattle.transfer_functions.specs.Following.{followed};
ghost use Rattle.transfer_functions.specs.Values.{on_state};
ghost use Rattle.transfer_functions.specs.Strings.{compare_element, compared, counted, element, ends_by, load_element, move_element, moved, moved_both, repeated, scan_element, source_value, step_by, store_element, string, target_value};

use crate::after::After;
use crate::arithmetic::set_ruled;
use crate::flow::{branched, has_no_count, one_less, set_count};
use crate::site::Site;
use crate::values::{
    above, anything, in_segment, is_zero, number, part, register_value, set_part, set_register,
};
use abstract_state::{Expansion, Path, State, Stored, Truth, Truths};
use bit_words::{NoMemory, Op, Width};
use domain_laws::Domain;
use memory_map::{EAX, EDI, ESI};
use x86_semantics::{FlagRule, StringKind};
use x86_syntax::{Repeat, Seg};

// Whether a repetition ends by ZF.
fn ends_by(repeat: Repeat, t: &Truths) -> Truth
    ensures { result ≡ ends_by repeat t.now }
{
    match repeat {
        Repeat::Repe => t.zero.opposite(),
        Repeat::Repne => t.zero,
        Repeat::Once | Repeat::Rep => Truth::No,
    }
}

// How far ESI and EDI move, by what is known of DF.
fn step_by<D: Domain>(w: Width, direction: Truth) -> D
    ensures value { result ≡ step_by (values_of D.Domain.own D.eq) w direction }
    ensures holds { (blocks : List Counted) → MayHold (values_of D.Domain.own D.eq) blocks B32 result }
{
    match direction {
        Truth::No => number(w.bytes()),
        Truth::Yes => number(0xFFFF_FFFF - (w.bytes() - 1)),
        Truth::Unknown => anything(),
    }
}

fn target_value<D: Domain>(s: &State<D>) -> D
    ensures value { result ≡ target_value s.now }
    ensures holds { MayHold (values_of D.Domain.own D.eq) s.now.parts.blocks B32 result }
{
    register_value(s, EDI)
}

// Where the element at ESI is.
fn source_value<D: Domain>(seg: Seg, s: &State<D>, align: u32) -> D
    ensures { result ≡ source_value (values_of D.Domain.own D.eq) align seg s.now }
{
    in_segment(seg, register_value(s, ESI), align)
}

// A register moved by a step.
fn move_index<D: Domain>(s: &mut State<D>, r: u8, step: D, align: u32)
    requires { MayHold (values_of D.Domain.own D.eq) s.old.parts.blocks B32 step }
    ensures { s.new ≡ moved (values_of D.Domain.own D.eq) align r step s.old }
{
    let there = above(register_value(s, r), step, align);
    set_register(s, r, there);
}

fn move_both<D: Domain>(s: &mut State<D>, step: D, align: u32)
    requires { MayHold (values_of D.Domain.own D.eq) s.old.parts.blocks B32 step }
    ensures { s.new ≡ moved_both (values_of D.Domain.own D.eq) align step s.old }
{
    move_index(s, ESI, step, align);
    move_index(s, EDI, step, align);
}

// The flags of a comparison of two elements.
fn set_compared<D: Domain>(s: &mut State<D>, w: Width, a: D, b: D, align: u32)
    ensures { s.new ≡ compared (values_of D.Domain.own D.eq) align w a b s.old }
{
    let r = D::eval(Op::Sub, w, a, b, align);
    set_ruled(s, FlagRule::Difference, w, (a, b), r, align);
}

impl Site<'_> {
    fn load_source<D: Domain>(&self, s: &State<D>, w: Width, seg: Seg) -> Option<D>
        ensures value { result ≡ loaded (values_of D.Domain.own D.eq) self.now.image.now w (source_value (values_of D.Domain.own D.eq) self.now.image.now.align seg s.now) s.now }
        ensures holds { IfSome result (MayHold (values_of D.Domain.own D.eq) s.now.parts.blocks w) }
    {
        s.load(self.image, source_value(seg, s, self.image.align()), w)
    }

    fn load_target<D: Domain>(&self, s: &State<D>, w: Width) -> Option<D>
        ensures value { result ≡ loaded (values_of D.Domain.own D.eq) self.now.image.now w (target_value s.now) s.now }
        ensures holds { IfSome result (MayHold (values_of D.Domain.own D.eq) s.now.parts.blocks w) }
    {
        s.load(self.image, target_value(s), w)
    }

    // MOVS, of an element that was loaded.
    fn store_moved<D: Domain>(
        &self,
        w: Width,
        v: D,
        step: D,
        after: After,
        mut p: Path<D>,
    ) -> Result<Expansion<D>, NoMemory>
        requires value { MayHold (values_of D.Domain.own D.eq) p.state.parts.blocks w v }
        requires step { MayHold (values_of D.Domain.own D.eq) p.state.parts.blocks B32 step }
        ensures { IfOk result (λ x. x ≡ storing (values_of D.Domain.own D.eq) self.now.image.now p w (target_value p.state) v (λ q. followed (values_of D.Domain.own D.eq) self.now.image.now after (next_address self.now.at self.now.len) self.now.at (on_state (moved_both (values_of D.Domain.own D.eq) self.now.image.now.align step) q))) }
    {
        let at = target_value(&p.state);
        match self.store(&mut p, w, at, v)? {
            Stored::Done => {
                move_both(&mut p.state, step, self.image.align());
                self.follow(after, p)
            }
            Stored::Faults => Ok(p.ended()),
            Stored::Stopped(cause) => p.stopped(cause),
        }
    }

    // MOVS, of one element.
    fn move_element<D: Domain>(
        &self,
        w: Width,
        seg: Seg,
        step: D,
        after: After,
        p: Path<D>,
    ) -> Result<Expansion<D>, NoMemory>
        requires { MayHold (values_of D.Domain.own D.eq) p.state.parts.blocks B32 step }
        ensures { IfOk result (λ x. x ≡ move_element (values_of D.Domain.own D.eq) self.now.image.now w seg step p (followed (values_of D.Domain.own D.eq) self.now.image.now after (next_address self.now.at self.now.len) self.now.at)) }
    {
        match self.load_source(&p.state, w, seg) {
            None => Ok(p.ended()),
            Some(v) => self.store_moved(w, v, step, after, p),
        }
    }

    // CMPS.
    fn compare_element<D: Domain>(
        &self,
        w: Width,
        seg: Seg,
        step: D,
        after: After,
        mut p: Path<D>,
    ) -> Result<Expansion<D>, NoMemory>
        requires { MayHold (values_of D.Domain.own D.eq) p.state.parts.blocks B32 step }
        ensures { IfOk result (λ x. x ≡ compare_element (values_of D.Domain.own D.eq) self.now.image.now w seg step p (followed (values_of D.Domain.own D.eq) self.now.image.now after (next_address self.now.at self.now.len) self.now.at)) }
    {
        let align = self.image.align();
        match self.load_source(&p.state, w, seg) {
            None => Ok(p.ended()),
            Some(a) => match self.load_target(&p.state, w) {
                None => Ok(p.ended()),
                Some(b) => {
                    set_compared(&mut p.state, w, a, b, align);
                    move_both(&mut p.state, step, align);
                    self.follow(after, p)
                }
            },
        }
    }

    // STOS.
    fn store_element<D: Domain>(
        &self,
        w: Width,
        step: D,
        after: After,
        mut p: Path<D>,
    ) -> Result<Expansion<D>, NoMemory>
        requires { MayHold (values_of D.Domain.own D.eq) p.state.parts.blocks B32 step }
        ensures { IfOk result (λ x. x ≡ store_element (values_of D.Domain.own D.eq) self.now.image.now w step p (followed (values_of D.Domain.own D.eq) self.now.image.now after (next_address self.now.at self.now.len) self.now.at)) }
    {
        let align = self.image.align();
        let v = part(&p.state, w, EAX, align);
        let at = target_value(&p.state);
        match self.store(&mut p, w, at, v)? {
            Stored::Done => {
                move_index(&mut p.state, EDI, step, align);
                self.follow(after, p)
            }
            Stored::Faults => Ok(p.ended()),
            Stored::Stopped(cause) => p.stopped(cause),
        }
    }

    // LODS.
    fn load_element<D: Domain>(
        &self,
        w: Width,
        seg: Seg,
        step: D,
        after: After,
        mut p: Path<D>,
    ) -> Result<Expansion<D>, NoMemory>
        requires { MayHold (values_of D.Domain.own D.eq) p.state.parts.blocks B32 step }
        ensures { IfOk result (λ x. x ≡ load_element (values_of D.Domain.own D.eq) self.now.image.now w seg step p (followed (values_of D.Domain.own D.eq) self.now.image.now after (next_address self.now.at self.now.len) self.now.at)) }
    {
        let align = self.image.align();
        match self.load_source(&p.state, w, seg) {
            None => Ok(p.ended()),
            Some(v) => {
                set_part(&mut p.state, w, EAX, v, align);
                move_index(&mut p.state, ESI, step, align);
                self.follow(after, p)
            }
        }
    }

    // SCAS.
    fn scan_element<D: Domain>(
        &self,
        w: Width,
        step: D,
        after: After,
        mut p: Path<D>,
    ) -> Result<Expansion<D>, NoMemory>
        requires { MayHold (values_of D.Domain.own D.eq) p.state.parts.blocks B32 step }
        ensures { IfOk result (λ x. x ≡ scan_element (values_of D.Domain.own D.eq) self.now.image.now w step p (followed (values_of D.Domain.own D.eq) self.now.image.now after (next_address self.now.at self.now.len) self.now.at)) }
    {
        let align = self.image.align();
        match self.load_target(&p.state, w) {
            None => Ok(p.ended()),
            Some(b) => {
                let a = part(&p.state, w, EAX, align);
                set_compared(&mut p.state, w, a, b, align);
                move_index(&mut p.state, EDI, step, align);
                self.follow(after, p)
            }
        }
    }

    // One element, and what follows.
    fn element<D: Domain>(
        &self,
        kind: StringKind,
        w: Width,
        seg: Seg,
        after: After,
        p: Path<D>,
    ) -> Result<Expansion<D>, NoMemory>
        ensures { IfOk result (λ x. x ≡ element (values_of D.Domain.own D.eq) self.now.image.now kind w seg p (followed (values_of D.Domain.own D.eq) self.now.image.now after (next_address self.now.at self.now.len) self.now.at)) }
    {
        let step = step_by(w, p.state.flags().direction);
        match kind {
            StringKind::Move => self.move_element(w, seg, step, after, p),
            StringKind::Compare => self.compare_element(w, seg, step, after, p),
            StringKind::Store => self.store_element(w, step, after, p),
            StringKind::Load => self.load_element(w, seg, step, after, p),
            StringKind::Scan => self.scan_element(w, step, after, p),
        }
    }

    /// One repetition is done, and whether there is another.
    pub(crate) fn counted<D: Domain>(
        &self,
        repeat: Repeat,
        mut p: Path<D>,
    ) -> Result<Expansion<D>, NoMemory>
        ensures { IfOk result (λ x. x ≡ counted (values_of D.Domain.own D.eq) self.now.image.now repeat (next_address self.now.at self.now.len) self.now.at p) }
    {
        let align = self.image.align();
        let count = one_less(&p.state, align);
        set_count(&mut p.state, count);
        let ends = is_zero(count, align).or(ends_by(repeat, &p.state.flags()));
        branched(ends, self.next(), self.at, p)
    }

    // Nothing changed, and beside it one element done.
    fn left_or_done<D: Domain>(
        &self,
        repeat: Repeat,
        kind: StringKind,
        w: Width,
        seg: Seg,
        p: Path<D>,
    ) -> Result<Expansion<D>, NoMemory>
        ensures { IfOk result (λ x. x ≡ joined (lands (next_address self.now.at self.now.len) p) (element (values_of D.Domain.own D.eq) self.now.image.now kind w seg p (counted (values_of D.Domain.own D.eq) self.now.image.now repeat (next_address self.now.at self.now.len) self.now.at))) }
    {
        let rest = p.copy()?;
        let left = rest.lands(self.next())?;
        let done = self.element(kind, w, seg, After::Count(repeat), p)?;
        left.join(done)
    }

    fn repeated<D: Domain>(
        &self,
        repeat: Repeat,
        kind: StringKind,
        w: Width,
        seg: Seg,
        p: Path<D>,
    ) -> Result<Expansion<D>, NoMemory>
        ensures { IfOk result (λ x. x ≡ repeated (values_of D.Domain.own D.eq) self.now.image.now repeat kind w seg (next_address self.now.at self.now.len) self.now.at p) }
    {
        match has_no_count(&p.state, self.image.align()) {
            Truth::Yes => p.lands(self.next()),
            Truth::No => self.element(kind, w, seg, After::Count(repeat), p),
            Truth::Unknown => self.left_or_done(repeat, kind, w, seg, p),
        }
    }

    /// MOVS, CMPS, STOS, LODS, SCAS, once or repeated.
    pub(crate) fn string<D: Domain>(
        &self,
        kind: StringKind,
        w: Width,
        seg: Seg,
        repeat: Repeat,
        p: Path<D>,
    ) -> Result<Expansion<D>, NoMemory>
        ensures { IfOk result (λ x. x ≡ string (values_of D.Domain.own D.eq) self.now.image.now kind w seg repeat (next_address self.now.at self.now.len) self.now.at p) }
    {
        match repeat {
            Repeat::Once => self.element(kind, w, seg, After::Next, p),
            _ => self.repeated(repeat, kind, w, seg, p),
        }
    }
}
