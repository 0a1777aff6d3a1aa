ghost use Rattle.std.specs.Prelude.{IfOk, List, pos, ◌≡◌};
ghost use Rattle.bit_words.specs.declared.width.Width.TheVariants.{B32};
ghost use Rattle.domain_laws.specs.Made.{values_of};
ghost use Rattle.bit_words.specs.declared.op.Op.TheVariants.{Add};
ghost use Rattle.partitioned_memory.specs.declared.fact.Counted.{Counted};
ghost use Rattle.partitioned_memory.specs.Held.{counted_more};
ghost use Rattle.partitioned_memory.specs.Well.{MayHold};

mod known_rows;
mod rows;

use crate::values::{above, anything, below, low_number, number, register_value, set_register};
use crate::{KnownCode, expand_instr, known_code};
use abstract_state::{Expansion, Note, Path, Seen, State, Stored, Truth, Truths};
use address_regions::Region;
use bit_words::{Op, Width};
use bounded_values::Bounded;
use domain_laws::{Domain, FlatNumbers, Reach};
use flow_log::Cause;
use image_loader::Image;
use interval_values::Interval;
use memory_map::{Bytes, Format, Items, Perm, Ranges, Segment, Segments, Span};
use partitioned_memory::{Area, Parts};
use std::alloc::Global;
use std::test::Fail;
use x86_decoder::decode;

// Where each instruction stands.
const AT: u32 = 0x0804_8000;

// 16 bytes that begin as 0, and 16 that begin as anything.
const ZEROED: Region = Region::Block {
    site: 0x0804_8100,
    size: 16,
    zeroed: true,
};

const PLAIN: Region = Region::Block {
    site: 0x0804_8200,
    size: 16,
    zeroed: false,
};

const NAMES: [(&str, u8); 8] = [
    ("eax", 0),
    ("ecx", 1),
    ("edx", 2),
    ("ebx", 3),
    ("esp", 4),
    ("ebp", 5),
    ("esi", 6),
    ("edi", 7),
];

// ---- the image

// Each segment's address, its size, its first byte, of which the others follow, and whether it may be written and executed.
const SEGMENTS: [(u32, u8, u8, bool, bool); 12] = [
    (0x0000_1000, 16, 0x30, true, false),
    (0x0804_9000, 16, 0x10, true, false),
    (0x0804_9010, 16, 0x20, false, false),
    (0x0804_A000, 4, 0x50, true, false),
    (0x0804_A004, 4, 0x54, false, false),
    (0x0804_A008, 8, 0x58, true, false),
    (0x0804_A010, 16, 0x60, true, false),
    (0x0804_C000, 20, 0x70, true, true),
    (0x0804_C014, 4, 0x84, false, true),
    (0x0804_C018, 4, 0x88, true, false),
    (0x0804_D000, 8, 0x90, true, true),
    (0xEFFF_FFF0, 16, 0x40, true, false),
];

// The bytes that are not known at the start.
const UNSET: [(u32, u32); 2] = [(0x0804_9008, 2), (0x0804_D004, 2)];

fn segment(alloc: Global, low: u32, size: u8, first: u8, perm: Perm) -> Result<Segment, Fail> {
    let mut bytes = Vec::new(alloc);
    for i in 0..size {
        bytes.push(first.wrapping_add(i))?;
    }
    Ok(Segment {
        low,
        bytes: Bytes::from_vec(bytes),
        perm,
    })
}

fn image(alloc: Global, format: Format) -> Result<Image, Fail> {
    let mut list = Vec::new(alloc);
    for (low, size, first, write, execute) in SEGMENTS {
        let perm = Perm::new(write, execute);
        list.push(segment(alloc, low, size, first, perm)?)?;
    }
    let segments = Segments::new(list)?;
    let mut unset = Vec::new(alloc);
    for (low, size) in UNSET {
        unset.push(Span { low, size })?;
    }
    let image = Image::new(
        segments,
        Ranges::from_vec(unset),
        0x0000_1000,
        format,
        Items::from_vec(Vec::new(alloc)),
        16,
    );
    Ok(image.ok_or("an image")?)
}

// ---- the state before, by its text

fn register_number(name: &str) -> Option<u8> {
    for (known, r) in NAMES {
        if known == name {
            return Some(r);
        }
    }
    None
}

fn width_named(size: &str) -> Option<Width> {
    if size == "1" {
        return Some(Width::B8);
    }
    if size == "2" {
        return Some(Width::B16);
    }
    if size == "4" {
        return Some(Width::B32);
    }
    None
}

// A number, a register's value, or any.
fn base_value<D: Domain>(s: &State<D>, text: &str) -> Result<D, Fail>
    ensures { IfOk result (λ v. MayHold (values_of D.Domain.own D.eq) s.now.parts.blocks B32 v) }
{
    if text == "any" {
        return Ok(anything());
    }
    match register_number(text) {
        Some(r) => Ok(register_value(s, r)),
        None => {
            let n = u32::from_str_radix(text, 16)?;
            Ok(number(n))
        }
    }
}

// The same, or with a number added to it or taken off.
fn value_named<D: Domain>(s: &State<D>, text: &str) -> Result<D, Fail>
    ensures { IfOk result (λ v. MayHold (values_of D.Domain.own D.eq) s.now.parts.blocks B32 v) }
{
    match text.split_once('-') {
        Some((base, down)) => {
            let v = base_value(s, base)?;
            let n = number(u32::from_str_radix(down, 16)?);
            Ok(below(v, n, 16))
        }
        None => match text.split_once('+') {
            Some((base, up)) => {
                let v = base_value(s, base)?;
                let n = number(u32::from_str_radix(up, 16)?);
                Ok(above(v, n, 16))
            }
            None => base_value(s, text),
        },
    }
}

fn set_value<D: Domain>(s: &mut State<D>, name: &str, text: &str) -> Result<(), Fail> {
    let r = register_number(name).ok_or("a register")?;
    let v = value_named(s, text)?;
    set_register(s, r, v);
    Ok(())
}

// A number in memory.
fn put<D: Domain>(
    alloc: Global,
    image: &Image,
    s: State<D>,
    place: &str,
    size: &str,
    text: &str,
) -> Result<State<D>, Fail> {
    let w = width_named(size).ok_or("a width")?;
    let v = low_number(w, u32::from_str_radix(text, 16)?);
    let at = value_named(&s, place)?;
    let mut p = Path::start(alloc, s);
    let stored = p.store(image, w, at, v)?;
    (stored == Stored::Done).then_some(()).ok_or("a store")?;
    let Path { state, .. } = p;
    Ok(state)
}

// A place in a block of a region, once the block is counted.
fn block_place<D: Domain>(region: Region, n: u32) -> D
    ensures value { result ≡ D.eval Add B32 (D.place region (pos 0)) (D.number n) 16 }
    ensures holds { (blocks : List Counted) → MayHold (values_of D.Domain.own D.eq) (counted_more region blocks) B32 result }
{
    D::eval(Op::Add, Width::B32, D::place(region, 0), D::number(n), 16)
}

fn region_named(text: &str) -> Option<Region> {
    if text == "z" {
        return Some(ZEROED);
    }
    if text == "p" {
        return Some(PLAIN);
    }
    None
}

// A block more of a region.
fn hand_out<D: Domain>(s: &mut State<D>, text: &str) -> Result<(), Fail> {
    let region = region_named(text).ok_or("a region")?;
    if region.has_one_base() {
        return Err(Fail::from("a block"));
    }
    s.add_block(region)?;
    Ok(())
}

// A block more of a region, and a place in it in a register.
fn hand_to<D: Domain>(
    s: &mut State<D>,
    name: &str,
    region: Region,
    offset: &str,
) -> Result<(), Fail> {
    let r = register_number(name).ok_or("a register")?;
    let n = u32::from_str_radix(offset, 16)?;
    if region.has_one_base() {
        return Err(Fail::from("a block"));
    }
    s.add_block(region)?;
    let v = block_place(region, n);
    set_register(s, r, v);
    Ok(())
}

fn truth_named(digit: u8) -> Truth {
    match digit {
        b'1' => Truth::Yes,
        b'0' => Truth::No,
        _ => Truth::Unknown,
    }
}

// The six flags but DF.
fn set_six<D: Domain>(s: &mut State<D>, digits: &str) -> Result<(), Fail> {
    match digits.as_bytes() {
        [c, p, a, z, sign, o] => {
            let flags = Truths {
                carry: truth_named(*c),
                parity: truth_named(*p),
                adjust: truth_named(*a),
                zero: truth_named(*z),
                sign: truth_named(*sign),
                overflow: truth_named(*o),
                direction: s.flags().direction,
            };
            s.set_flags(flags);
            Ok(())
        }
        _ => Err(Fail::from("six flags")),
    }
}

// DF.
fn set_seventh<D: Domain>(s: &mut State<D>, digits: &str) -> Result<(), Fail> {
    match digits.as_bytes() {
        [d] => {
            s.set_direction(truth_named(*d));
            Ok(())
        }
        _ => Err(Fail::from("a flag")),
    }
}

fn set<D: Domain>(s: &mut State<D>, name: &str, text: &str) -> Result<(), Fail> {
    if name == "f" {
        return set_six(s, text);
    }
    if name == "df" {
        return set_seventh(s, text);
    }
    if let Some((base, offset)) = text.split_once('+') {
        if let Some(region) = region_named(base) {
            return hand_to(s, name, region, offset);
        }
    }
    set_value(s, name, text)
}

// An image, and how many states a jump makes of one.
#[derive(Clone, Copy)]
struct Setting<'a> {
    alloc: Global,
    image: &'a Image,
    k: u32,
}

fn bytes_of(alloc: Global, words: &str) -> Result<Vec<u8>, Fail> {
    let mut bytes = Vec::new(alloc);
    for word in words.split_whitespace() {
        bytes.push(u8::from_str_radix(word, 16)?)?;
    }
    Ok(bytes)
}

// Where an instruction leads from a state, and its length.
fn expanded<D: Domain>(
    setting: Setting<'_>,
    s: &State<D>,
    words: &str,
) -> Result<(Expansion<D>, u8), Fail> {
    let Setting { alloc, image, k } = setting;
    let bytes = bytes_of(alloc, words)?;
    match decode(bytes.as_slice()) {
        Ok((i, len)) => Ok((expand_instr(alloc, image, AT, &i, len, s, k)?, len)),
        Err(_) => Err(Fail::from("no instruction")),
    }
}

// The state after an instruction that leads to one.
fn stepped<D: Domain>(setting: Setting<'_>, s: &State<D>, words: &str) -> Result<State<D>, Fail> {
    let (expansion, _) = expanded(setting, s, words)?;
    let mut next = expansion.into_next();
    let (_, after) = next.pop().ok_or("a next pair")?;
    next.is_empty().then_some(()).ok_or("one next pair")?;
    Ok(after)
}

// The state after one part of a text.
fn after_part<D: Domain>(
    setting: Setting<'_>,
    mut s: State<D>,
    seen: &mut Seen<D>,
    part: &str,
) -> Result<State<D>, Fail> {
    if let Some(words) = part.strip_prefix('!') {
        return stepped(setting, &s, words);
    }
    if part == "pe" || part.starts_with("k=") {
        return Ok(s);
    }
    if part == "seen" {
        seen.add(&s)?;
        return Ok(s);
    }
    if part == "widen" {
        return Ok(s.widen(1, seen)?);
    }
    if let Some(region) = part.strip_prefix("new ") {
        hand_out(&mut s, region)?;
        return Ok(s);
    }
    let (name, text) = part.split_once('=').ok_or("a setting")?;
    match name.strip_prefix('[') {
        Some(place) => {
            let (place, size) = place.split_once(']').ok_or("a place")?;
            put(setting.alloc, setting.image, s, place, size, text)
        }
        None => {
            set(&mut s, name, text)?;
            Ok(s)
        }
    }
}

// The state that a text tells of.
fn state_of<D: Domain>(setting: Setting<'_>, text: &str) -> Result<State<D>, Fail> {
    let mut s = State::start(setting.alloc, setting.image)?;
    let mut seen = Seen::new(setting.alloc);
    for part in text.split(';') {
        let part = part.trim();
        if !part.is_empty() {
            s = after_part(setting, s, &mut seen, part)?;
        }
    }
    Ok(s)
}

// ---- an expansion's text

// What stands between two parts of a text.
fn push_between(out: &mut String, between: &str) -> Result<(), Fail> {
    if !out.is_empty() {
        out.push_str(between)?;
    }
    Ok(())
}

fn push_offset(out: &mut String, o: i64) -> Result<(), Fail> {
    let size = o.unsigned_abs();
    if o < 0 {
        write!(out, "-{size:X}")?;
    } else {
        write!(out, "+{size:X}")?;
    }
    Ok(())
}

fn region_name(region: Region) -> &'static str {
    match region {
        Region::Stack => "s",
        Region::Fs => "fs",
        Region::Gs => "gs",
        Region::Block { zeroed: true, .. } => "z",
        Region::Block { zeroed: false, .. } => "p",
    }
}

fn push_place(out: &mut String, area: Area, low: i64) -> Result<(), Fail> {
    match area {
        Area::Image => {
            let address = low.unsigned_abs();
            write!(out, "{address:X}")?;
        }
        Area::In(region) => {
            out.push_str(region_name(region))?;
            push_offset(out, low)?;
        }
    }
    Ok(())
}

fn push_range(out: &mut String, low: u32, high: u32) -> Result<(), Fail> {
    write!(out, "{low:X}")?;
    if low != high {
        write!(out, "..{high:X}")?;
    }
    Ok(())
}

fn push_value<D: Domain>(out: &mut String, v: D) -> Result<(), Fail> {
    match v.reach() {
        Reach::Number { low, high } => push_range(out, low, high)?,
        Reach::Place { region, low, high } => {
            if low == high {
                push_place(out, Area::In(region), i64::from(low))?;
            } else {
                out.push_str("in ")?;
                out.push_str(region_name(region))?;
            }
        }
        Reach::Anywhere => out.push_str("any")?,
    }
    Ok(())
}

fn value_text<D: Domain>(alloc: Global, v: D) -> Result<String, Fail> {
    let mut out = String::new(alloc);
    push_value(&mut out, v)?;
    Ok(out)
}

fn digit_of(t: Truth) -> char {
    match t {
        Truth::Yes => '1',
        Truth::No => '0',
        Truth::Unknown => '?',
    }
}

fn flags_text(alloc: Global, t: &Truths) -> Result<String, Fail> {
    let mut out = String::new(alloc);
    out.push(digit_of(t.carry))?;
    out.push(digit_of(t.parity))?;
    out.push(digit_of(t.adjust))?;
    out.push(digit_of(t.zero))?;
    out.push(digit_of(t.sign))?;
    out.push(digit_of(t.overflow))?;
    Ok(out)
}

fn direction_text(alloc: Global, t: &Truths) -> Result<String, Fail> {
    let mut out = String::new(alloc);
    out.push(digit_of(t.direction))?;
    Ok(out)
}

fn register_name(number: u8) -> &'static str {
    for (name, r) in NAMES {
        if r == number {
            return name;
        }
    }
    "none"
}

fn note_text(alloc: Global, note: Option<Note>) -> Result<String, Fail> {
    let mut out = String::new(alloc);
    match note {
        None => out.push_str("none")?,
        Some(Note::Register(r, c)) => {
            let name = register_name(r);
            write!(&mut out, "{name},{c:X}")?;
        }
        Some(Note::Word(o, c)) => {
            push_place(&mut out, Area::In(Region::Stack), o)?;
            write!(&mut out, ",{c:X}")?;
        }
    }
    Ok(out)
}

// The facts.
fn facts_text<D: Domain>(alloc: Global, parts: &Parts<D>) -> Result<String, Fail> {
    let mut out = String::new(alloc);
    let facts = parts.copy_facts()?;
    for f in &facts {
        push_between(&mut out, ",")?;
        out.push('[')?;
        push_place(&mut out, f.area, f.low)?;
        let size = f.w.bytes();
        write!(&mut out, "]{size}=")?;
        push_value(&mut out, f.value)?;
    }
    Ok(out)
}

// The dirty ranges, of which there are at most 16.
fn dirty_text<D: Domain>(alloc: Global, parts: &Parts<D>) -> Result<String, Fail> {
    let mut out = String::new(alloc);
    for i in 0..16usize {
        if let Some(d) = parts.dirty(i) {
            push_between(&mut out, ",")?;
            push_place(&mut out, d.area, d.low)?;
            push_offset(&mut out, d.size)?;
        }
    }
    Ok(out)
}

// The counts, of which there are at most 16.
fn counts_text<D: Domain>(alloc: Global, parts: &Parts<D>) -> Result<String, Fail> {
    let mut out = String::new(alloc);
    for i in 0..16usize {
        if let Some(c) = parts.counted(i) {
            push_between(&mut out, ",")?;
            out.push_str(region_name(c.region))?;
            out.push_str(if c.many { " many" } else { " one" })?;
        }
    }
    Ok(out)
}

fn push_change(out: &mut String, name: &str, before: &str, after: &str) -> Result<(), Fail> {
    if before != after {
        write!(out, " {name}={after}")?;
    }
    Ok(())
}

fn push_registers<D: Domain>(
    alloc: Global,
    out: &mut String,
    before: &State<D>,
    after: &State<D>,
) -> Result<(), Fail> {
    for (name, r) in NAMES {
        let old = value_text(alloc, before.register(r))?;
        let new = value_text(alloc, after.register(r))?;
        push_change(out, name, old.as_str(), new.as_str())?;
    }
    Ok(())
}

fn push_flags<D: Domain>(
    alloc: Global,
    out: &mut String,
    before: &State<D>,
    after: &State<D>,
) -> Result<(), Fail> {
    let old = flags_text(alloc, &before.flags())?;
    let new = flags_text(alloc, &after.flags())?;
    push_change(out, "f", old.as_str(), new.as_str())?;
    let old = direction_text(alloc, &before.flags())?;
    let new = direction_text(alloc, &after.flags())?;
    push_change(out, "df", old.as_str(), new.as_str())?;
    let old = note_text(alloc, before.note())?;
    let new = note_text(alloc, after.note())?;
    push_change(out, "note", old.as_str(), new.as_str())
}

fn push_parts<D: Domain>(
    alloc: Global,
    out: &mut String,
    before: &Parts<D>,
    after: &Parts<D>,
) -> Result<(), Fail> {
    let old = facts_text(alloc, before)?;
    let new = facts_text(alloc, after)?;
    push_change(out, "m", old.as_str(), new.as_str())?;
    let old = dirty_text(alloc, before)?;
    let new = dirty_text(alloc, after)?;
    push_change(out, "d", old.as_str(), new.as_str())?;
    let old = counts_text(alloc, before)?;
    let new = counts_text(alloc, after)?;
    push_change(out, "c", old.as_str(), new.as_str())
}

// An address: that of the instruction, the one after it, or another.
fn push_address(out: &mut String, address: u32, len: u8) -> Result<(), Fail> {
    if address == AT {
        out.push_str("stay")?;
    } else if address == AT + u32::from(len) {
        out.push_str("next")?;
    } else {
        write!(out, "{address:X}")?;
    }
    Ok(())
}

fn cause_name(cause: Cause) -> &'static str {
    match cause {
        Cause::Bytes => "bytes",
        Cause::NoStub => "nostub",
        Cause::Target => "target",
        Cause::Store => "store",
        Cause::Stack => "stack",
        Cause::Block => "block",
        Cause::Code => "code",
        Cause::Budget => "budget",
    }
}

fn push_next<D: Domain>(
    alloc: Global,
    out: &mut String,
    before: &State<D>,
    len: u8,
    next: &[(u32, State<D>)],
) -> Result<(), Fail> {
    for pair in next {
        push_between(out, " / ")?;
        push_address(out, pair.0, len)?;
        push_registers(alloc, out, before, &pair.1)?;
        push_flags(alloc, out, before, &pair.1)?;
        push_parts(alloc, out, before.parts(), pair.1.parts())?;
    }
    Ok(())
}

// The next pairs with what each has changed, the causes and the written ranges.
fn expansion_text<D: Domain>(
    alloc: Global,
    before: &State<D>,
    len: u8,
    x: &Expansion<D>,
) -> Result<String, Fail> {
    let mut out = String::new(alloc);
    push_next(alloc, &mut out, before, len, x.next())?;
    for cause in x.causes() {
        let name = cause_name(*cause);
        push_between(&mut out, " / ")?;
        write!(&mut out, "! {name}")?;
    }
    for (low, size) in x.writes() {
        push_between(&mut out, " / ")?;
        write!(&mut out, "w {low:X}+{size:X}")?;
    }
    if out.is_empty() {
        out.push_str("none")?;
    }
    Ok(out)
}

// ---- the tables

fn most_states(setup: &str) -> Result<u32, Fail> {
    for part in setup.split(';') {
        if let Some(text) = part.trim().strip_prefix("k=") {
            return Ok(u32::from_str_radix(text, 16)?);
        }
    }
    Ok(32)
}

fn format_of(setup: &str) -> Format {
    for part in setup.split(';') {
        if part.trim() == "pe" {
            return Format::Pe;
        }
    }
    Format::Elf
}

// The text of the expansion of which a row tells.
fn outcome<D: Domain>(alloc: Global, setup: &str, words: &str) -> Result<String, Fail> {
    let image = image(alloc, format_of(setup))?;
    let k = most_states(setup)?;
    let setting = Setting {
        alloc,
        image: &image,
        k,
    };
    let before: State<D> = state_of(setting, setup)?;
    let (x, len) = expanded(setting, &before, words)?;
    expansion_text(alloc, &before, len, &x)
}

// Adds a row that is not as it says, and what came of it.
fn check_row<D: Domain>(alloc: Global, out: &mut String, row: &str) -> Result<(), Fail> {
    let (setup, rest) = row.split_once('|').ok_or("an instruction")?;
    let (words, want) = rest.split_once('|').ok_or("what comes of it")?;
    let is = outcome::<D>(alloc, setup, words)?;
    if is.as_str() != want {
        let is = is.as_str();
        write!(out, "{row}\n    is {is}\n")?;
    }
    Ok(())
}

// The rows of a table that are not as they say. A line that begins with '#' is none.
fn differences<D: Domain>(alloc: Global, table: &str) -> Result<String, Fail> {
    let mut out = String::new(alloc);
    for line in table.lines() {
        if !line.starts_with('#') {
            check_row::<D>(alloc, &mut out, line)?;
        }
    }
    Ok(out)
}

// ---- known code

// The code that is known, and whether a byte that is not known ended it.
fn code_text(alloc: Global, code: &KnownCode) -> Result<String, Fail> {
    let mut out = String::new(alloc);
    for b in code.bytes.as_slice() {
        let b = *b;
        push_between(&mut out, " ")?;
        write!(&mut out, "{b:02X}")?;
    }
    if code.cut {
        push_between(&mut out, " ")?;
        out.push_str("cut")?;
    }
    Ok(out)
}

// Adds a row of known code that is not as it says, and what is known.
fn check_code(setting: Setting<'_>, out: &mut String, row: &str) -> Result<(), Fail> {
    let (setup, rest) = row.split_once('|').ok_or("an address")?;
    let (at, want) = rest.split_once('|').ok_or("what is known")?;
    let s: State<Bounded> = state_of(setting, setup)?;
    let code = known_code(setting.image, u32::from_str_radix(at, 16)?, &s);
    let is = code_text(setting.alloc, &code)?;
    if is.as_str() != want {
        let is = is.as_str();
        write!(out, "{row}\n    is {is}\n")?;
    }
    Ok(())
}

#[test]
fn code_is_known_where_its_bytes_are(rt: HostRuntime) -> Result<(), Fail> {
    let alloc = rt.alloc();
    let image = image(alloc, Format::Elf)?;
    let setting = Setting {
        alloc,
        image: &image,
        k: 32,
    };
    let mut out = String::new(alloc);
    for line in known_rows::KNOWN.lines() {
        check_code(setting, &mut out, line)?;
    }
    assert_eq!(rt; out.as_str(), "");
    Ok(())
}

#[test]
fn each_expansion_is_as_defined(rt: HostRuntime) -> Result<(), Fail> {
    let bounded = differences::<Bounded>(rt.alloc(), rows::BOUNDED)?;
    assert_eq!(rt; bounded.as_str(), "");
    let flat = differences::<FlatNumbers>(rt.alloc(), rows::FLAT)?;
    assert_eq!(rt; flat.as_str(), "");
    let intervals = differences::<Interval>(rt.alloc(), rows::INTERVALS)?;
    assert_eq!(rt; intervals.as_str(), "");
    Ok(())
}
