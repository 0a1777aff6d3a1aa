ghost use Rattle.std.specs.Prelude.{◌≡◌, ℕ, ◌+◌, ◌-◌, ◌*◌, ◌^◌, ◌%◌, ◌<◌, ◌≤◌, ◌++◌, Bool, [], length, is_some, slice_index_or, sum_by};
ghost use Rattle.arrayvec.specs.ArrayString.{array_string_len};
ghost use Rattle.x86_syntax.specs.Decodes.{HasSpelling};
ghost use Rattle.text_fields.specs.Hex.{hex_digits};
ghost use Rattle.x86_syntax.specs.Text.{digits_of, ending_text, width_letter, stem_text, suffix_text, mnemonic_text, lock_text, repeat_text, string_segment_text, byte_registers, word_registers, long_registers, register_text, size_text, sized_text, segment_text, plus, base_text, index_text, displacement_text, address_text, has_size, operand_text, separator, operands_text, next_address, head_text, instr_text, operand_room};

use crate::{Address, Cond, Instr, Mnemonic, Operand, Repeat, Seg};
use arrayvec::ArrayString;
use bit_words::Width;
use text_fields::hex_digit;

/// The text of the instruction `i` at the address `at`, whose bytes are `len` in number: prefix words, the
/// mnemonic and the operands. A branch goes to an address, which is printed in eight hexadecimal digits.
#[tactic(auto, unfolding(crate::specs::Text::instr_text))]
pub fn write_instr(at: u32, i: &Instr, len: u8) -> ArrayString<96>
    requires { HasSpelling i.now len }
    ensures { result.bytes ≡ instr_text at i.now len }
{
    let next = at.wrapping_add(u32::from(len));
    let sized = prints_size(i.name);
    let mut out = ArrayString::new();
    push_head(&mut out, i);
    push_operands(&mut out, sized, next, i.ops.as_slice());
    out
}

/// Appends the operands.
fn push_operands(out: &mut ArrayString<96>, sized: bool, next: u32, ops: &[Operand])
    requires { array_string_len out.old + sum_by operand_room ops.now ≤ 96 }
    ensures { out.new.bytes ≡ out.old.bytes ++ operands_text sized next 0 ops.now }
{
    for (k, op) in ops.iter().enumerate() {
        push_next(out, sized, next, k, *op);
    }
}

/// Whether memory operands have a size word.
fn prints_size(name: Mnemonic) -> bool
    ensures { result ≡ has_size name }
{
    !matches!(name, Mnemonic::Lea)
}

/// Appends what stands before the operands.
#[tactic(auto, using(std::proofs::Common::append_assoc))]
fn push_head(out: &mut ArrayString<96>, i: &Instr)
    requires { array_string_len out.old + 23 ≤ 96 }
    ensures text { out.new.bytes ≡ out.old.bytes ++ head_text i.now }
    ensures room { array_string_len out.new ≤ array_string_len out.old + 23 }
{
    push_lock(out, i.lock);
    push_repeat(out, i.repeat);
    push_mnemonic(out, i.name, i.w);
    push_string_segment(out, i.seg);
}

fn push_lock(out: &mut ArrayString<96>, lock: bool)
    requires { array_string_len out.old + 5 ≤ 96 }
    ensures text { out.new.bytes ≡ out.old.bytes ++ lock_text lock }
    ensures room { array_string_len out.new ≤ array_string_len out.old + 5 }
{
    if lock {
        out.push_str("lock ");
    }
}

fn push_repeat(out: &mut ArrayString<96>, repeat: Repeat)
    requires { array_string_len out.old + 6 ≤ 96 }
    ensures text { out.new.bytes ≡ out.old.bytes ++ repeat_text repeat }
    ensures room { array_string_len out.new ≤ array_string_len out.old + 6 }
{
    match repeat {
        Repeat::Once => {}
        Repeat::Rep => out.push_str("rep "),
        Repeat::Repe => out.push_str("repe "),
        Repeat::Repne => out.push_str("repne "),
    }
}

fn push_string_segment(out: &mut ArrayString<96>, seg: Seg)
    requires { array_string_len out.old + 3 ≤ 96 }
    ensures text { out.new.bytes ≡ out.old.bytes ++ string_segment_text seg }
    ensures room { array_string_len out.new ≤ array_string_len out.old + 3 }
{
    match seg {
        Seg::Plain => {}
        Seg::Fs => out.push_str(" fs"),
        Seg::Gs => out.push_str(" gs"),
    }
}

/// Appends a mnemonic, with the ending of a condition or the letter of a string operation's width.
#[tactic(auto, using(std::proofs::Common::append_assoc))]
fn push_mnemonic(out: &mut ArrayString<96>, name: Mnemonic, w: Width)
    requires { array_string_len out.old + 9 ≤ 96 }
    ensures text { out.new.bytes ≡ out.old.bytes ++ mnemonic_text name w }
    ensures room { array_string_len out.new ≤ array_string_len out.old + 9 }
{
    out.push_str(stem(name));
    push_suffix(out, name, w);
}

fn push_suffix(out: &mut ArrayString<96>, name: Mnemonic, w: Width)
    requires { array_string_len out.old + 2 ≤ 96 }
    ensures text { out.new.bytes ≡ out.old.bytes ++ suffix_text name w }
    ensures room { array_string_len out.new ≤ array_string_len out.old + 2 }
{
    match name {
        Mnemonic::J(c) | Mnemonic::Set(c) | Mnemonic::Cmov(c) => out.push_str(ending(c)),
        Mnemonic::Movs | Mnemonic::Cmps | Mnemonic::Stos | Mnemonic::Lods | Mnemonic::Scas => {
            out.push_str(letter(w));
        }
        _ => {}
    }
}

/// A mnemonic without its ending.
#[tactic(auto, unfolding(crate::specs::Text::stem_text))]
fn stem(name: Mnemonic) -> &'static str
    ensures text { result.now ≡ stem_text name }
    ensures room { length result.now ≤ 7 }
{
    match name {
        Mnemonic::Add => "add",
        Mnemonic::Or => "or",
        Mnemonic::Adc => "adc",
        Mnemonic::Sbb => "sbb",
        Mnemonic::And => "and",
        Mnemonic::Sub => "sub",
        Mnemonic::Xor => "xor",
        Mnemonic::Cmp => "cmp",
        Mnemonic::Test => "test",
        Mnemonic::Xchg => "xchg",
        Mnemonic::Cmpxchg => "cmpxchg",
        Mnemonic::Xadd => "xadd",
        Mnemonic::Nop => "nop",
        Mnemonic::Mov => "mov",
        Mnemonic::Lea => "lea",
        Mnemonic::Inc => "inc",
        Mnemonic::Dec => "dec",
        Mnemonic::Push => "push",
        Mnemonic::Pop => "pop",
        Mnemonic::Call => "call",
        Mnemonic::Jmp => "jmp",
        Mnemonic::Not => "not",
        Mnemonic::Neg => "neg",
        Mnemonic::Mul => "mul",
        Mnemonic::Imul => "imul",
        Mnemonic::Div => "div",
        Mnemonic::Idiv => "idiv",
        Mnemonic::Rol => "rol",
        Mnemonic::Ror => "ror",
        Mnemonic::Shl => "shl",
        Mnemonic::Shr => "shr",
        Mnemonic::Sar => "sar",
        Mnemonic::Shld => "shld",
        Mnemonic::Shrd => "shrd",
        Mnemonic::Bt => "bt",
        Mnemonic::Bts => "bts",
        Mnemonic::Btr => "btr",
        Mnemonic::Btc => "btc",
        Mnemonic::Bsf => "bsf",
        Mnemonic::Bsr => "bsr",
        Mnemonic::J(_) => "j",
        Mnemonic::Set(_) => "set",
        Mnemonic::Cmov(_) => "cmov",
        Mnemonic::Movzx => "movzx",
        Mnemonic::Movsx => "movsx",
        Mnemonic::Ret => "ret",
        Mnemonic::Leave => "leave",
        Mnemonic::Cwde => "cwde",
        Mnemonic::Cbw => "cbw",
        Mnemonic::Cdq => "cdq",
        Mnemonic::Cwd => "cwd",
        Mnemonic::Loopne => "loopne",
        Mnemonic::Loope => "loope",
        Mnemonic::Loop => "loop",
        Mnemonic::Jecxz => "jecxz",
        Mnemonic::Movs => "movs",
        Mnemonic::Cmps => "cmps",
        Mnemonic::Stos => "stos",
        Mnemonic::Lods => "lods",
        Mnemonic::Scas => "scas",
        Mnemonic::Cmc => "cmc",
        Mnemonic::Clc => "clc",
        Mnemonic::Stc => "stc",
        Mnemonic::Cld => "cld",
        Mnemonic::Std => "std",
        Mnemonic::Sahf => "sahf",
        Mnemonic::Lahf => "lahf",
        Mnemonic::Bswap => "bswap",
        Mnemonic::Endbr32 => "endbr32",
        Mnemonic::Ud2 => "ud2",
        Mnemonic::Int3 => "int3",
        Mnemonic::Hlt => "hlt",
    }
}

/// The letter of a width, which ends a string operation.
fn letter(w: Width) -> &'static str
    ensures text { result.now ≡ width_letter w }
    ensures room { length result.now ≤ 1 }
{
    match w {
        Width::B8 => "b",
        Width::B16 => "w",
        Width::B32 => "d",
    }
}

/// The ending that a condition gives a mnemonic.
#[tactic(auto, unfolding(crate::specs::Text::ending_text))]
fn ending(c: Cond) -> &'static str
    ensures text { result.now ≡ ending_text c }
    ensures length { length result.now ≤ 2 }
{
    match c.0 {
        0 => "o",
        1 => "no",
        2 => "b",
        3 => "ae",
        4 => "e",
        5 => "ne",
        6 => "be",
        7 => "a",
        8 => "s",
        9 => "ns",
        10 => "p",
        11 => "np",
        12 => "l",
        13 => "ge",
        14 => "le",
        15 => "g",
        _ => "",
    }
}

/// Appends an operand and what separates it from what stands before.
#[tactic(auto, using(std::proofs::Common::append_assoc))]
fn push_next(out: &mut ArrayString<96>, sized: bool, next: u32, k: usize, op: Operand)
    requires { array_string_len out.old + operand_room op ≤ 96 }
    ensures text { out.new.bytes ≡ out.old.bytes ++ (separator k ++ operand_text sized next op) }
    ensures room { array_string_len out.new ≤ array_string_len out.old + operand_room op }
{
    out.push_str(if k == 0 { " " } else { ", " });
    push_operand(out, sized, next, op);
}

/// Appends an operand of an instruction that ends before the address `next`.
#[tactic(auto, using(std::proofs::Common::append_assoc), unfolding(crate::specs::Text::operand_text, text_fields::specs::Hex::hex8))]
fn push_operand(out: &mut ArrayString<96>, sized: bool, next: u32, op: Operand)
    requires { array_string_len out.old + operand_room op ≤ 98 }
    ensures text { out.new.bytes ≡ out.old.bytes ++ operand_text sized next op }
    ensures room { array_string_len out.new + 2 ≤ array_string_len out.old + operand_room op }
{
    match op {
        Operand::Register(w, r) => out.push_str(register(w, r)),
        Operand::Number(w, n) => push_hex(out, digits(w), n),
        Operand::Memory(w, address) => {
            if sized {
                out.push_str(size_word(w));
            }
            push_address(out, address);
        }
        Operand::Offset(offset) => push_hex(out, 8, next.wrapping_add(offset.cast_unsigned())),
    }
}

fn digits(w: Width) -> u8
    ensures value { result ≡ digits_of w }
    ensures bound { result ≤ 8 }
{
    match w {
        Width::B8 => 2,
        Width::B16 => 4,
        Width::B32 => 8,
    }
}

fn size_word(w: Width) -> &'static str
    ensures text { result.now ≡ size_text w }
    ensures room { length result.now ≤ 6 }
{
    match w {
        Width::B8 => "byte ",
        Width::B16 => "word ",
        Width::B32 => "dword ",
    }
}

#[tactic(auto, unfolding(crate::specs::Text::register_text))]
fn register(w: Width, r: u8) -> &'static str
    ensures text { result.now ≡ register_text w r }
    ensures room { length result.now ≤ 3 }
{
    match w {
        Width::B8 => byte_register(r),
        Width::B16 => word_register(r),
        Width::B32 => long_register(r),
    }
}

fn byte_register(r: u8) -> &'static str
    ensures text { result.now ≡ slice_index_or byte_registers r [] }
    ensures room { length result.now ≤ 3 }
{
    match r {
        0 => "al",
        1 => "cl",
        2 => "dl",
        3 => "bl",
        4 => "ah",
        5 => "ch",
        6 => "dh",
        7 => "bh",
        _ => "",
    }
}

fn word_register(r: u8) -> &'static str
    ensures text { result.now ≡ slice_index_or word_registers r [] }
    ensures room { length result.now ≤ 3 }
{
    match r {
        0 => "ax",
        1 => "cx",
        2 => "dx",
        3 => "bx",
        4 => "sp",
        5 => "bp",
        6 => "si",
        7 => "di",
        _ => "",
    }
}

fn long_register(r: u8) -> &'static str
    ensures text { result.now ≡ slice_index_or long_registers r [] }
    ensures room { length result.now ≤ 3 }
{
    match r {
        0 => "eax",
        1 => "ecx",
        2 => "edx",
        3 => "ebx",
        4 => "esp",
        5 => "ebp",
        6 => "esi",
        7 => "edi",
        _ => "",
    }
}

/// Appends an address: the segment, the base, the index with its scale, and the displacement.
#[tactic(auto, using(std::proofs::Common::append_assoc), unfolding(crate::specs::Text::address_text))]
fn push_address(out: &mut ArrayString<96>, a: Address)
    requires { array_string_len out.old + 23 ≤ 96 }
    ensures text { out.new.bytes ≡ out.old.bytes ++ address_text a }
    ensures room { array_string_len out.new ≤ array_string_len out.old + 23 }
{
    push_segment(out, a.seg);
    out.push('[');
    push_base(out, a.base);
    push_index(out, a.base.is_some(), a.index);
    push_displacement(out, a.base.is_some() || a.index.is_some(), a.disp);
    out.push(']');
}

fn push_segment(out: &mut ArrayString<96>, seg: Seg)
    requires { array_string_len out.old + 3 ≤ 96 }
    ensures text { out.new.bytes ≡ out.old.bytes ++ segment_text seg }
    ensures room { array_string_len out.new ≤ array_string_len out.old + 3 }
{
    match seg {
        Seg::Plain => {}
        Seg::Fs => out.push_str("fs:"),
        Seg::Gs => out.push_str("gs:"),
    }
}

fn push_base(out: &mut ArrayString<96>, base: Option<u8>)
    requires { array_string_len out.old + 3 ≤ 96 }
    ensures text { out.new.bytes ≡ out.old.bytes ++ base_text base }
    ensures room { array_string_len out.new ≤ array_string_len out.old + 3 }
{
    if let Some(r) = base {
        out.push_str(register(Width::B32, r));
    }
}

/// Appends a plus where a part stands before.
fn push_plus(out: &mut ArrayString<96>, behind: bool)
    requires { array_string_len out.old + 1 ≤ 96 }
    ensures text { out.new.bytes ≡ out.old.bytes ++ plus behind }
    ensures room { array_string_len out.new ≤ array_string_len out.old + 1 }
{
    if behind {
        out.push('+');
    }
}

#[tactic(auto, using(std::proofs::Common::append_assoc))]
fn push_index(out: &mut ArrayString<96>, behind: bool, index: Option<(u8, u8)>)
    requires { array_string_len out.old + 6 ≤ 96 }
    ensures text { out.new.bytes ≡ out.old.bytes ++ index_text behind index }
    ensures room { array_string_len out.new ≤ array_string_len out.old + 6 }
{
    if let Some((r, scale)) = index {
        push_plus(out, behind);
        out.push_str(register(Width::B32, r));
        out.push('*');
        push_hex(out, 1, u32::from(scale));
    }
}

#[tactic(auto, using(std::proofs::Common::append_assoc), unfolding(text_fields::specs::Hex::hex8))]
fn push_displacement(out: &mut ArrayString<96>, behind: bool, disp: u32)
    requires { array_string_len out.old + 9 ≤ 96 }
    ensures text { out.new.bytes ≡ out.old.bytes ++ displacement_text behind disp }
    ensures room { array_string_len out.new ≤ array_string_len out.old + 9 }
{
    if disp == 0 && behind {
        return;
    }
    push_plus(out, behind);
    push_hex(out, 8, disp);
}

/// Appends the lowest `digits` hexadecimal digits of `n`, in upper case.
#[tactic(auto, using(std::proofs::Common::append_assoc), unfolding(text_fields::specs::Hex::hex_digits))]
fn push_hex(out: &mut ArrayString<96>, digits: u8, n: u32)
    requires { array_string_len out.old + digits ≤ 96 }
    ensures text { out.new.bytes ≡ out.old.bytes ++ hex_digits digits n }
    ensures length { array_string_len out.new ≡ array_string_len out.old + digits }
{
    if digits == 0 {
        return;
    }
    push_hex(out, digits - 1, n / 16);
    out.push(char::from(hex_digit((n % 16) as u8)));
}
