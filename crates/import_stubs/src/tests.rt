ghost use Rattle.std.specs.Prelude.{IfOk, ◌≡◌};
ghost use Rattle.bit_words.specs.declared.width.Width.TheVariants.{B32};
ghost use Rattle.domain_laws.specs.Made.{values_of};
ghost use Rattle.partitioned_memory.specs.Well.{MayHold};

mod rows;

use crate::expand_stub;
use crate::values::{anything, block_place, number, stack_place};
use abstract_state::{Expansion, Note, Path, Seen, State, Stored, Truth, Truths};
use address_regions::Region;
use bit_words::Width;
use bounded_values::Bounded;
use domain_laws::{Domain, FlatNumbers, Reach};
use flow_log::Cause;
use image_loader::Image;
use memory_map::{Bytes, Format, ImportName, Items, Name, Perm, Ranges, Segment, Segments, Span};
use partitioned_memory::{Area, Parts};
use std::alloc::Global;
use std::test::Fail;
use stub_file::read_stubs;

// The place of the image's one import.
const PLACE: u32 = 0xF000_0010;

// Where each call returns to.
const SITE: u32 = 0x0804_8123;

const SIZE: u32 = 16;

const NAMES: [(&str, u8); 8] = [
    ("eax", 0),
    ("ecx", 1),
    ("edx", 2),
    ("ebx", 3),
    ("esp", 4),
    ("ebp", 5),
    ("esi", 6),
    ("edi", 7),
];

// ---- the image

// Each segment's address, its size, and whether it may be written.
const SEGMENTS: [(u32, u8, bool); 7] = [
    (0x0000_1000, 16, true),
    (0x0804_9000, 16, true),
    (0x0804_9010, 16, false),
    (0x0804_A000, 4, true),
    (0x0804_A004, 4, false),
    (0x0804_A008, 8, true),
    (0xEFFF_FFF0, 16, true),
];

fn segment(alloc: Global, low: u32, size: u8, write: bool) -> Result<Segment, Fail> {
    let mut bytes = Vec::new(alloc);
    for i in 0..size {
        bytes.push(i)?;
    }
    Ok(Segment {
        low,
        bytes: Bytes::from_vec(bytes),
        perm: Perm::new(write, false),
    })
}

// An image that imports `f`.
fn image(alloc: Global) -> Result<Image, Fail> {
    let mut list = Vec::new(alloc);
    for (low, size, write) in SEGMENTS {
        list.push(segment(alloc, low, size, write)?)?;
    }
    let segments = Segments::new(list)?;
    let mut names = Vec::new(alloc);
    names.push(ImportName {
        name: Name::new(b"f".to_vec(alloc)?).ok_or("a name")?,
        zero: false,
    })?;
    let unset: Vec<Span> = Vec::new(alloc);
    let image = Image::new(
        segments,
        Ranges::from_vec(unset),
        0x0000_1000,
        Format::Elf,
        Items::from_vec(names),
        16,
    );
    Ok(image.ok_or("an image")?)
}

// ---- the state before, by its text

fn register_number(name: &str) -> Option<u8> {
    for (known, r) in NAMES {
        if known == name {
            return Some(r);
        }
    }
    None
}

// A number, a place in the stack, a register's value, or any.
fn value_named<D: Domain>(s: &State<D>, text: &str) -> Result<D, Fail>
    ensures { IfOk result (λ v. MayHold (values_of D.Domain.own D.eq) s.now.parts.blocks B32 v) }
{
    if text == "any" {
        return Ok(anything());
    }
    if let Some(r) = register_number(text) {
        return Ok(s.register(r));
    }
    match text.strip_prefix('s') {
        Some(offset) => {
            let offset = i32::from_str_radix(offset, 16)?;
            Ok(stack_place(offset))
        }
        None => {
            let n = u32::from_str_radix(text, 16)?;
            Ok(number(n))
        }
    }
}

// A word in memory.
fn put<D: Domain>(
    alloc: Global,
    image: &Image,
    s: State<D>,
    place: &str,
    text: &str,
) -> Result<State<D>, Fail> {
    let v = value_named(&s, text)?;
    let at = value_named(&s, place)?;
    let mut p = Path::start(alloc, s);
    let stored = p.store(image, Width::B32, at, v)?;
    (stored == Stored::Done).then_some(()).ok_or("a store")?;
    let Path { state, .. } = p;
    Ok(state)
}

// A block more, and its first byte's place in a register.
fn hand_to<D: Domain>(s: &mut State<D>, name: &str, zeroed: bool) -> Result<(), Fail> {
    let r = register_number(name).ok_or("a register")?;
    s.add_block(Region::Block {
        site: SITE,
        size: SIZE,
        zeroed,
    })?;
    let v = block_place(SITE, SIZE, zeroed);
    s.set_register(r, v);
    Ok(())
}

// Each flag set, and a comparison noted.
fn set_flags<D: Domain>(s: &mut State<D>) {
    s.set_flags(Truths {
        carry: Truth::Yes,
        parity: Truth::Yes,
        adjust: Truth::Yes,
        zero: Truth::Yes,
        sign: Truth::Yes,
        overflow: Truth::Yes,
        direction: Truth::Yes,
    });
    s.set_note(Some(Note::Register(3, 5)));
}

fn set<D: Domain>(s: &mut State<D>, name: &str, text: &str) -> Result<(), Fail> {
    if let Some(kind) = text.strip_prefix("new ") {
        return hand_to(s, name, kind == "z");
    }
    let r = register_number(name).ok_or("a register")?;
    let v = value_named(s, text)?;
    s.set_register(r, v);
    Ok(())
}

// The state after one part of a text.
fn after_part<D: Domain>(
    alloc: Global,
    image: &Image,
    mut s: State<D>,
    seen: &mut Seen<D>,
    part: &str,
) -> Result<State<D>, Fail> {
    if part == "flags" {
        set_flags(&mut s);
        return Ok(s);
    }
    if part == "seen" {
        seen.add(&s)?;
        return Ok(s);
    }
    if part == "widen" {
        return Ok(s.widen(1, seen)?);
    }
    let (name, text) = part.split_once('=').ok_or("a setting")?;
    match name.strip_prefix('[') {
        Some(place) => {
            let place = place.strip_suffix(']').ok_or("a place")?;
            put(alloc, image, s, place, text)
        }
        None => {
            set(&mut s, name, text)?;
            Ok(s)
        }
    }
}

// The state that a text tells of.
fn state_of<D: Domain>(alloc: Global, image: &Image, text: &str) -> Result<State<D>, Fail> {
    let mut s = State::start(alloc, image)?;
    let mut seen = Seen::new(alloc);
    for part in text.split(';') {
        if !part.is_empty() {
            s = after_part(alloc, image, s, &mut seen, part)?;
        }
    }
    Ok(s)
}

// ---- an expansion's text

// What stands between two parts of a text.
fn push_between(out: &mut String, between: &str) -> Result<(), Fail> {
    if !out.is_empty() {
        out.push_str(between)?;
    }
    Ok(())
}

fn push_offset(out: &mut String, o: i64) -> Result<(), Fail> {
    let size = o.unsigned_abs();
    if o < 0 {
        write!(out, "-{size:X}")?;
    } else {
        write!(out, "+{size:X}")?;
    }
    Ok(())
}

fn push_region(out: &mut String, region: Region) -> Result<(), Fail> {
    match region {
        Region::Stack => out.push_str("s")?,
        Region::Fs => out.push_str("fs")?,
        Region::Gs => out.push_str("gs")?,
        Region::Block { site, size, zeroed } => {
            let kind = if zeroed { 'z' } else { 'p' };
            write!(out, "{kind}{site:X}:{size:X}")?;
        }
    }
    Ok(())
}

fn push_place(out: &mut String, area: Area, low: i64) -> Result<(), Fail> {
    match area {
        Area::Image => {
            let address = low.unsigned_abs();
            write!(out, "{address:X}")?;
        }
        Area::In(region) => {
            push_region(out, region)?;
            push_offset(out, low)?;
        }
    }
    Ok(())
}

fn push_value<D: Domain>(out: &mut String, v: D) -> Result<(), Fail> {
    match v.reach() {
        Reach::Number { low, .. } => write!(out, "{low:X}")?,
        Reach::Place { region, low, high } => {
            if low == high {
                push_place(out, Area::In(region), i64::from(low))?;
            } else {
                out.push_str("in ")?;
                push_region(out, region)?;
            }
        }
        Reach::Anywhere => out.push_str("any")?,
    }
    Ok(())
}

fn value_text<D: Domain>(alloc: Global, v: D) -> Result<String, Fail> {
    let mut out = String::new(alloc);
    push_value(&mut out, v)?;
    Ok(out)
}

fn digit_of(t: Truth) -> char {
    match t {
        Truth::Yes => '1',
        Truth::No => '0',
        Truth::Unknown => '?',
    }
}

fn flags_text(alloc: Global, t: &Truths) -> Result<String, Fail> {
    let mut out = String::new(alloc);
    out.push(digit_of(t.carry))?;
    out.push(digit_of(t.parity))?;
    out.push(digit_of(t.adjust))?;
    out.push(digit_of(t.zero))?;
    out.push(digit_of(t.sign))?;
    out.push(digit_of(t.overflow))?;
    out.push(digit_of(t.direction))?;
    Ok(out)
}

// The facts.
fn facts_text<D: Domain>(alloc: Global, parts: &Parts<D>) -> Result<String, Fail> {
    let mut out = String::new(alloc);
    let facts = parts.copy_facts()?;
    for f in &facts {
        push_between(&mut out, ",")?;
        out.push('[')?;
        push_place(&mut out, f.area, f.low)?;
        out.push_str("]=")?;
        push_value(&mut out, f.value)?;
    }
    Ok(out)
}

// The dirty ranges, of which there are at most 8.
fn dirty_text<D: Domain>(alloc: Global, parts: &Parts<D>) -> Result<String, Fail> {
    let mut out = String::new(alloc);
    for i in 0..8usize {
        if let Some(d) = parts.dirty(i) {
            push_between(&mut out, ",")?;
            push_place(&mut out, d.area, d.low)?;
            push_offset(&mut out, d.size)?;
        }
    }
    Ok(out)
}

// The counts, of which there are at most 8.
fn counts_text<D: Domain>(alloc: Global, parts: &Parts<D>) -> Result<String, Fail> {
    let mut out = String::new(alloc);
    for i in 0..8usize {
        if let Some(c) = parts.counted(i) {
            push_between(&mut out, ",")?;
            push_region(&mut out, c.region)?;
            out.push_str(if c.many { " many" } else { " one" })?;
        }
    }
    Ok(out)
}

fn push_change(out: &mut String, name: &str, before: &str, after: &str) -> Result<(), Fail> {
    if before != after {
        write!(out, " {name}={after}")?;
    }
    Ok(())
}

fn push_registers<D: Domain>(
    alloc: Global,
    out: &mut String,
    before: &State<D>,
    after: &State<D>,
) -> Result<(), Fail> {
    for (name, r) in NAMES {
        let old = value_text(alloc, before.register(r))?;
        let new = value_text(alloc, after.register(r))?;
        push_change(out, name, old.as_str(), new.as_str())?;
    }
    Ok(())
}

fn push_flags<D: Domain>(
    alloc: Global,
    out: &mut String,
    before: &State<D>,
    after: &State<D>,
) -> Result<(), Fail> {
    let old = flags_text(alloc, &before.flags())?;
    let new = flags_text(alloc, &after.flags())?;
    push_change(out, "f", old.as_str(), new.as_str())?;
    if after.note().is_some() {
        out.push_str(" noted")?;
    }
    Ok(())
}

fn push_parts<D: Domain>(
    alloc: Global,
    out: &mut String,
    before: &Parts<D>,
    after: &Parts<D>,
) -> Result<(), Fail> {
    let new = facts_text(alloc, after)?;
    if !new.is_empty() {
        let new = new.as_str();
        write!(out, " m={new}")?;
    }
    let old = dirty_text(alloc, before)?;
    let new = dirty_text(alloc, after)?;
    push_change(out, "d", old.as_str(), new.as_str())?;
    let old = counts_text(alloc, before)?;
    let new = counts_text(alloc, after)?;
    push_change(out, "c", old.as_str(), new.as_str())
}

fn cause_name(cause: Cause) -> &'static str {
    match cause {
        Cause::Bytes => "bytes",
        Cause::NoStub => "nostub",
        Cause::Target => "target",
        Cause::Store => "store",
        Cause::Stack => "stack",
        Cause::Block => "block",
        Cause::Code => "code",
        Cause::Budget => "budget",
    }
}

fn push_next<D: Domain>(
    alloc: Global,
    out: &mut String,
    before: &State<D>,
    next: &[(u32, State<D>)],
) -> Result<(), Fail> {
    for pair in next {
        let target = pair.0;
        push_between(out, " / ")?;
        write!(out, "{target:X}")?;
        push_registers(alloc, out, before, &pair.1)?;
        push_flags(alloc, out, before, &pair.1)?;
        push_parts(alloc, out, before.parts(), pair.1.parts())?;
    }
    Ok(())
}

// The next pairs with what each has changed, the causes and the written ranges.
fn expansion_text<D: Domain>(
    alloc: Global,
    before: &State<D>,
    x: &Expansion<D>,
) -> Result<String, Fail> {
    let mut out = String::new(alloc);
    push_next(alloc, &mut out, before, x.next())?;
    for cause in x.causes() {
        let name = cause_name(*cause);
        push_between(&mut out, " / ")?;
        write!(&mut out, "! {name}")?;
    }
    for (low, size) in x.writes() {
        push_between(&mut out, " / ")?;
        write!(&mut out, "w {low:X}+{size:X}")?;
    }
    if out.is_empty() {
        out.push_str("none")?;
    }
    Ok(out)
}

// ---- the tables

// A stub file of which one line has the keys of the stub of `f`, divided by ';'; none where there are none.
fn stub_file(alloc: Global, keys: &str) -> Result<Vec<u8>, Fail> {
    let mut file = Vec::new(alloc);
    if keys.is_empty() {
        return Ok(file);
    }
    file.extend_from_slice(b"[stub.f]")?;
    for key in keys.split(';') {
        file.push(b'\n')?;
        file.extend_from_slice(key.as_bytes())?;
    }
    Ok(file)
}

// The text of the expansion of which a row tells.
fn outcome<D: Domain>(alloc: Global, keys: &str, setup: &str) -> Result<String, Fail> {
    let image = image(alloc)?;
    let file = stub_file(alloc, keys)?;
    let stubs = read_stubs(alloc, file.as_slice())?;
    let before: State<D> = state_of(alloc, &image, setup)?;
    if image.name_at(PLACE).is_none() {
        return Err(Fail::from("an import"));
    }
    let x = expand_stub(alloc, &image, &stubs, PLACE, &before)?;
    expansion_text(alloc, &before, &x)
}

// Adds a row that is not as it says, and what came of it.
fn check_row<D: Domain>(alloc: Global, out: &mut String, row: &str) -> Result<(), Fail> {
    let (keys, rest) = row.split_once('|').ok_or("what is known before")?;
    let (setup, want) = rest.split_once('|').ok_or("what comes of it")?;
    let is = outcome::<D>(alloc, keys, setup)?;
    if is.as_str() != want {
        let is = is.as_str();
        write!(out, "{row}\n    is {is}\n")?;
    }
    Ok(())
}

// The rows of a table that are not as they say. A line that begins with '#' is none.
fn differences<D: Domain>(alloc: Global, table: &str) -> Result<String, Fail> {
    let mut out = String::new(alloc);
    for line in table.lines() {
        if !line.starts_with('#') {
            check_row::<D>(alloc, &mut out, line)?;
        }
    }
    Ok(out)
}

#[test]
fn each_call_is_as_defined(rt: HostRuntime) -> Result<(), Fail> {
    let bounded = differences::<Bounded>(rt.alloc(), rows::BOUNDED)?;
    assert_eq!(rt; bounded.as_str(), "");
    let flat = differences::<FlatNumbers>(rt.alloc(), rows::FLAT)?;
    assert_eq!(rt; flat.as_str(), "");
    Ok(())
}
