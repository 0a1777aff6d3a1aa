ghost use Rattle.std.specs.Prelude.{◌≡◌, ◌+◌, ◌*◌, ◌^◌, ◌<◌, ◌≤◌, ◌++◌, length, ◌%◌, slice_index};
ghost use Rattle.arrayvec.specs.ArrayVec.{array_vec_len};
ghost use Rattle.std.specs.Option.{option_to_list};
ghost use Rattle.std.specs.Int.{cast_signed, w8};
ghost use Rattle.x86_decoder.specs.Pieces.{parts_of, address_place};
ghost use Rattle.x86_syntax.specs.Formats.{little_endian};
ghost use Rattle.x86_syntax.specs.Spelling.{word_width, form_width, segment_named, sign_extended, number_size, row_number_size, placed, absolute, operands, arithmetic, shift, named, place_in, is_lock, repeat_of, string_segment, instr_of, reg_of, displacement_size, index_register, needs_memory, needs_register};

use arrayvec::ArrayVec;
use bit_words::Width;
use x86_syntax::{
    Address, Cond, Form, Group, Instr, Mnemonic, Name, Operand, Place, Prefixes, Repeat, Repeats,
    Row, Seg,
};

/// What the operands are made of: the opcode, the ModRM byte or 0, its place, and the number behind it.
#[derive(Clone, Copy)]
pub struct Pieces {
    pub code: u8,
    pub modrm: u8,
    pub place: Place,
    pub number: u32,
}

/// The pieces before a number is read.
pub fn unnumbered(code: u8, modrm: u8, place: Place) -> Pieces
    ensures { result ≡ record { code = code; modrm = modrm; place = place; number = 0 } }
{
    Pieces {
        code,
        modrm,
        place,
        number: 0,
    }
}

/// The instruction of a row.
#[tactic(auto, unfolding(x86_syntax::specs::Spelling::instr_of))]
pub fn instr(prefixes: Prefixes, row: Row, pieces: Pieces) -> Instr
    ensures { result ≡ instr_of prefixes row (parts_of pieces) }
{
    let segment = segment(prefixes.segment);
    Instr {
        name: mnemonic_of(
            row.name,
            prefixes.size,
            place_of(row, pieces.code),
            reg(pieces.modrm),
        ),
        w: width_of(prefixes, row.forms.first),
        ops: operands_of(prefixes, row, pieces),
        seg: match row.forms.first {
            Form::Xb | Form::Xv => segment,
            _ => Seg::Plain,
        },
        lock: matches!(prefixes.group, Group::Lock),
        repeat: repeat(row.repeats, prefixes.group),
    }
}

/// The reg field of a ModRM byte.
pub fn reg(modrm: u8) -> u8
    ensures { result ≡ reg_of modrm }
{
    modrm / 8 % 8
}

fn place_of(row: Row, code: u8) -> u8
    ensures { result ≡ place_in row code }
{
    if row.step == 0 {
        0
    } else {
        code.saturating_sub(row.first) / row.step
    }
}

fn mnemonic_of(name: Name, size: bool, place: u8, reg: u8) -> Mnemonic
    ensures { result ≡ named name size place reg }
{
    match name {
        Name::All(name) => name,
        Name::BySize(long, word) => { if size { word } else { long } }
        Name::Arithmetic => arithmetic_name(place),
        Name::J => Mnemonic::J(Cond(place)),
        Name::Set => Mnemonic::Set(Cond(place)),
        Name::Cmov => Mnemonic::Cmov(Cond(place)),
        Name::ArithmeticByReg => arithmetic_name(reg),
        Name::ShiftByReg => shift_name(reg),
    }
}

fn arithmetic_name(k: u8) -> Mnemonic
    ensures { result ≡ arithmetic k }
{
    match k {
        0 => Mnemonic::Add,
        1 => Mnemonic::Or,
        2 => Mnemonic::Adc,
        3 => Mnemonic::Sbb,
        4 => Mnemonic::And,
        5 => Mnemonic::Sub,
        6 => Mnemonic::Xor,
        _ => Mnemonic::Cmp,
    }
}

fn shift_name(k: u8) -> Mnemonic
    ensures { result ≡ shift k }
{
    match k {
        0 | 2 => Mnemonic::Rol,
        1 | 3 => Mnemonic::Ror,
        4 | 6 => Mnemonic::Shl,
        5 => Mnemonic::Shr,
        _ => Mnemonic::Sar,
    }
}

fn repeat(repeats: Repeats, group: Group) -> Repeat
    ensures { result ≡ repeat_of repeats group }
{
    match (repeats, group) {
        (Repeats::Rep, Group::Rep) => Repeat::Rep,
        (Repeats::RepeRepne, Group::Rep) => Repeat::Repe,
        (Repeats::RepeRepne, Group::Repne) => Repeat::Repne,
        _ => Repeat::Once,
    }
}

fn segment(named: Option<u8>) -> Seg
    ensures { result ≡ segment_named named }
{
    match named {
        None => Seg::Plain,
        Some(b) => {
            if b == 0x64 {
                Seg::Fs
            } else if b == 0x65 {
                Seg::Gs
            } else {
                Seg::Plain
            }
        }
    }
}

fn word(prefixes: Prefixes) -> Width
    ensures { result ≡ word_width prefixes }
{
    if prefixes.size {
        Width::B16
    } else {
        Width::B32
    }
}

fn width_of(prefixes: Prefixes, form: Form) -> Width
    ensures { result ≡ form_width prefixes form }
{
    match form {
        Form::Eb
        | Form::Gb
        | Form::Ab
        | Form::Rb
        | Form::Ib
        | Form::One
        | Form::Cl
        | Form::Ob
        | Form::Xb
        | Form::Yb => Width::B8,
        Form::Ew | Form::Iw => Width::B16,
        Form::Nothing | Form::J8 | Form::J32 => Width::B32,
        _ => word(prefixes),
    }
}

/// How many bytes behind the address the operand takes.
fn size_of(prefixes: Prefixes, form: Form) -> u8
    ensures value { result ≡ number_size prefixes form }
    ensures bound { result ≤ 4 }
{
    match form {
        Form::Ib | Form::Is | Form::J8 => 1,
        Form::Iw => 2,
        Form::Iv => { if prefixes.size { 2 } else { 4 } }
        Form::J32 | Form::Ob | Form::Ov => 4,
        _ => 0,
    }
}

/// How many bytes behind the address a row's operands take.
pub fn row_size(prefixes: Prefixes, row: Row) -> u8
    ensures value { result ≡ row_number_size prefixes row }
    ensures bound { result ≤ 12 }
{
    size_of(prefixes, row.forms.first)
        + size_of(prefixes, row.forms.second)
        + size_of(prefixes, row.forms.third)
}

/// Whether a ModRM byte that names a register is not listed.
pub fn wants_memory(prefixes: Prefixes, row: Row) -> bool
    ensures { result ≡ needs_memory prefixes row }
{
    matches!(prefixes.group, Group::Lock) || matches!(row.forms.second, Form::M)
}

/// Whether a ModRM byte that names memory is not listed.
pub fn wants_register(row: Row) -> bool
    ensures { result ≡ needs_register row }
{
    matches!(row.forms.first, Form::Uv)
}

fn operands_of(prefixes: Prefixes, row: Row, pieces: Pieces) -> ArrayVec<Operand, 3>
    ensures { result.items ≡ operands prefixes (parts_of pieces) row.forms.first ++ operands prefixes (parts_of pieces) row.forms.second ++ operands prefixes (parts_of pieces) row.forms.third }
{
    let mut ops = ArrayVec::new();
    push_operand(&mut ops, prefixes, pieces, row.forms.first);
    push_operand(&mut ops, prefixes, pieces, row.forms.second);
    push_operand(&mut ops, prefixes, pieces, row.forms.third);
    ops
}

fn push_operand(ops: &mut ArrayVec<Operand, 3>, prefixes: Prefixes, pieces: Pieces, form: Form)
    requires { array_vec_len ops.old < 3 }
    ensures items { ops.new.items ≡ ops.old.items ++ operands prefixes (parts_of pieces) form }
    ensures len { array_vec_len ops.new ≤ array_vec_len ops.old + 1 }
{
    if let Some(op) = operand(prefixes, pieces, form) {
        ops.push(op);
    }
}

fn operand(prefixes: Prefixes, pieces: Pieces, form: Form) -> Option<Operand>
    ensures { option_to_list result ≡ operands prefixes (parts_of pieces) form }
{
    let v = word(prefixes);
    let segment = segment(prefixes.segment);
    match form {
        Form::Eb => Some(at_place(Width::B8, segment, pieces.place)),
        Form::Ev => Some(at_place(v, segment, pieces.place)),
        Form::Ew => Some(at_place(Width::B16, segment, pieces.place)),
        Form::Gb => Some(Operand::Register(Width::B8, reg(pieces.modrm))),
        Form::Gv => Some(Operand::Register(v, reg(pieces.modrm))),
        Form::M | Form::N | Form::Uv => Some(at_place(v, Seg::Plain, pieces.place)),
        Form::Ab => Some(Operand::Register(Width::B8, 0)),
        Form::Av => Some(Operand::Register(v, 0)),
        Form::Rb => Some(Operand::Register(Width::B8, pieces.code % 8)),
        Form::Rv => Some(Operand::Register(v, pieces.code % 8)),
        Form::Ib => Some(Operand::Number(Width::B8, pieces.number)),
        Form::Iw => Some(Operand::Number(Width::B16, pieces.number)),
        Form::Iv => Some(Operand::Number(v, pieces.number)),
        Form::Is => Some(Operand::Number(v, extended(v, pieces.number))),
        Form::One => Some(Operand::Number(Width::B8, 1)),
        Form::Cl => Some(Operand::Register(Width::B8, 1)),
        Form::Ob => Some(at_number(Width::B8, segment, pieces.number)),
        Form::Ov => Some(at_number(v, segment, pieces.number)),
        Form::J8 => Some(Operand::Offset(i32::from(low_byte(pieces.number)))),
        Form::J32 => Some(Operand::Offset(pieces.number.cast_signed())),
        Form::Nothing | Form::V | Form::Xb | Form::Xv | Form::Yb | Form::Yv => None,
    }
}

fn at_place(w: Width, seg: Seg, place: Place) -> Operand
    ensures { result ≡ placed w seg place }
{
    match place {
        Place::Register(r) => Operand::Register(w, r),
        Place::Memory(address) => Operand::Memory(w, Address { seg, ..address }),
    }
}

fn at_number(w: Width, seg: Seg, number: u32) -> Operand
    ensures { result ≡ absolute w seg number }
{
    Operand::Memory(
        w,
        Address {
            seg,
            base: None,
            index: None,
            disp: number,
        },
    )
}

/// The low byte of a number, with its sign.
fn low_byte(n: u32) -> i8
    ensures { result ≡ cast_signed w8 (n % 2 ^ 8) }
{
    ((n % 256) as u8).cast_signed()
}

/// The low byte of a number, sign-extended to a width.
fn extended(w: Width, n: u32) -> u32
    ensures { result ≡ sign_extended w n }
{
    let wide = i32::from(low_byte(n)).cast_unsigned();
    match w {
        Width::B8 => wide % 256,
        Width::B16 => wide % 65536,
        Width::B32 => wide,
    }
}

/// How many bytes of displacement follow a ModRM byte with this mod field and base.
pub fn displacement_bytes(mode: u8, base: u8) -> u8
    ensures value { result ≡ displacement_size mode base }
    ensures bound { result ≤ 4 }
{
    if mode == 1 {
        1
    } else if mode == 2 || base == 5 {
        4
    } else {
        0
    }
}

/// The memory at a base, an index and a displacement.
pub fn address(mode: u8, base: u8, index: Option<(u8, u8)>, number: u32) -> Place
    ensures { result ≡ address_place mode base index number }
{
    Place::Memory(Address {
        seg: Seg::Plain,
        base: if mode == 0 && base == 5 {
            None
        } else {
            Some(base)
        },
        index,
        disp: if mode == 1 {
            extended(Width::B32, number)
        } else {
            number
        },
    })
}

/// The index of a SIB byte, with its scale.
pub fn index_of(sib: u8) -> Option<(u8, u8)>
    ensures { result ≡ index_register sib }
{
    if reg(sib) == 4 {
        return None;
    }
    let scale = match sib / 64 {
        0 => 1,
        1 => 2,
        2 => 4,
        _ => 8,
    };
    Some((reg(sib), scale))
}

/// The number that at most four bytes stand for, the least first.
pub fn number(bytes: &[u8]) -> u32
    requires { length bytes.now ≤ 4 }
    ensures { result ≡ little_endian bytes.now }
{
    byte_at(bytes, 0)
        + 256 * (byte_at(bytes, 1) + 256 * (byte_at(bytes, 2) + 256 * byte_at(bytes, 3)))
}

/// The byte at an index, and 0 behind the end.
fn byte_at(bytes: &[u8], i: usize) -> u32
    ensures value { result ≡ slice_index bytes.now i }
    ensures bound { result < 256 }
{
    match bytes.get(i) {
        Some(b) => u32::from(*b),
        None => 0,
    }
}
