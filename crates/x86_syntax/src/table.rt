ghost use Rattle.std.specs.Prelude.{◌≡◌, find};
ghost use Rattle.x86_syntax.specs.Opcodes.{is_map, has_code, has_reg, is_of_modrm, takes_modrm, is_listed, has_all, has_opcode, row_of, opcode_row};

use crate::{Group, Mnemonic, Prefixes};

/// Where an opcode stands: alone, behind the byte 0F, or behind the bytes 0F 1E.
#[derive(Clone, Copy)]
pub enum Map {
    One,
    Two,
    Three,
}

/// How a row names instructions: all alike, one without and one with the prefix 66, by the opcode's place in the
/// row (the arithmetic operations, or a mnemonic with a condition), or by the reg field of the ModRM byte.
#[derive(Clone, Copy)]
pub enum Name {
    All(Mnemonic),
    BySize(Mnemonic, Mnemonic),
    Arithmetic,
    J,
    Set,
    Cmov,
    ArithmeticByReg,
    ShiftByReg,
}

/// A form of operand. E is the operand of the ModRM byte, G its register, M memory of which only the address is
/// used, N an operand that is not accessed, U one that must be a register, A the accumulator, R the register in the opcode's low three bits,
/// O memory at an absolute address, I an immediate, Is one of a byte that is sign-extended, J a branch offset.
/// X and Y are no operand, but the element of a string operation at ESI, and at EDI alone; V is the width alone.
/// The letter b is 8 bits, w 16 and v 32, or 16 where the prefix 66 stands.
#[derive(Clone, Copy)]
pub enum Form {
    Nothing,
    V,
    Eb,
    Ev,
    Ew,
    Gb,
    Gv,
    M,
    N,
    Uv,
    Ab,
    Av,
    Rb,
    Rv,
    Ib,
    Iw,
    Iv,
    Is,
    One,
    Cl,
    Ob,
    Ov,
    J8,
    J32,
    Xb,
    Xv,
    Yb,
    Yv,
}

/// The forms of up to three operands, in the order of the text.
#[derive(Clone, Copy)]
pub struct Forms {
    pub first: Form,
    pub second: Form,
    pub third: Form,
}

/// What the prefixes F3 and F2 mean to a row: both are not listed, F3 has no effect, F3 is REP, F3 is REPE and F2
/// REPNE, or F3 must stand.
#[derive(Clone, Copy)]
pub enum Repeats {
    Never,
    Ignored,
    Rep,
    RepeRepne,
    Needed,
}

/// A row of the opcode table: `count` opcodes, from `first` on and `step` apart, with a reg field from `low` to
/// `high` where a ModRM byte follows. `size` and `lock` tell whether the prefixes 66 and F0 are listed, F0 only
/// where the ModRM operand is memory.
#[derive(Clone, Copy)]
pub struct Row {
    pub map: Map,
    pub first: u8,
    pub step: u8,
    pub count: u8,
    pub low: u8,
    pub high: u8,
    pub name: Name,
    pub forms: Forms,
    pub size: bool,
    pub lock: bool,
    pub repeats: Repeats,
}

impl Map {
    fn is(self, other: Map) -> bool
        ensures { result ≡ is_map self other }
    {
        matches!(
            (self, other),
            (Map::One, Map::One) | (Map::Two, Map::Two) | (Map::Three, Map::Three)
        )
    }
}

impl Form {
    /// Whether a ModRM byte gives the operand.
    fn is_of_modrm(self) -> bool
        ensures { result ≡ is_of_modrm self }
    {
        matches!(
            self,
            Form::Eb | Form::Ev | Form::Ew | Form::Gb | Form::Gv | Form::M | Form::N | Form::Uv
        )
    }
}

impl Row {
    /// Whether the row has this opcode.
    fn has_code(&self, map: Map, code: u8) -> bool
        ensures { result ≡ has_code map code self.now }
    {
        self.map.is(map)
            && self.first <= code
            && self.step != 0
            && (code - self.first) % self.step == 0
            && (code - self.first) / self.step < self.count
    }

    fn has_reg(&self, reg: u8) -> bool
        ensures { result ≡ has_reg reg self.now }
    {
        self.low <= reg && reg <= self.high
    }

    /// Whether a ModRM byte follows the opcode.
    pub fn takes_modrm(&self) -> bool
        ensures { result ≡ takes_modrm self.now }
    {
        self.forms.first.is_of_modrm() || self.forms.second.is_of_modrm()
    }

    /// Whether the row is listed behind these prefixes.
    fn is_listed(&self, prefixes: Prefixes) -> bool
        ensures { result ≡ is_listed prefixes self.now }
    {
        if prefixes.size && !self.size {
            return false;
        }
        match prefixes.group {
            Group::Empty => !matches!(self.repeats, Repeats::Needed),
            Group::Lock => self.lock,
            Group::Repne => matches!(self.repeats, Repeats::RepeRepne),
            Group::Rep => !matches!(self.repeats, Repeats::Never),
        }
    }
}

/// The row of an opcode with a reg field, behind these prefixes. Without a ModRM byte the reg field is 0.
#[tactic(auto, unfolding(crate::specs::Opcodes::row_of))]
pub fn find_row(prefixes: Prefixes, map: Map, code: u8, reg: u8) -> Option<Row>
    ensures { result ≡ row_of prefixes map code reg }
{
    find_among(&ROWS, prefixes, map, code, reg)
}

/// The first row of an opcode, whatever the reg field, behind these prefixes.
#[tactic(auto, unfolding(crate::specs::Opcodes::opcode_row))]
pub fn find_opcode(prefixes: Prefixes, map: Map, code: u8) -> Option<Row>
    ensures { result ≡ opcode_row prefixes map code }
{
    find_code_among(&ROWS, prefixes, map, code)
}

fn find_among(rows: &[Row], prefixes: Prefixes, map: Map, code: u8, reg: u8) -> Option<Row>
    ensures { result ≡ find (has_all prefixes map code reg) rows.now }
{
    for row in rows {
        if row.is_listed(prefixes) && row.has_reg(reg) && row.has_code(map, code) {
            return Some(*row);
        }
    }
    None
}

fn find_code_among(rows: &[Row], prefixes: Prefixes, map: Map, code: u8) -> Option<Row>
    ensures { result ≡ find (has_opcode prefixes map code) rows.now }
{
    for row in rows {
        if row.is_listed(prefixes) && row.has_code(map, code) {
            return Some(*row);
        }
    }
    None
}

macro_rules! forms {
    ($first:ident $second:ident $third:ident) => {
        Forms {
            first: Form::$first,
            second: Form::$second,
            third: Form::$third,
        }
    };
    ($first:ident $second:ident) => {
        forms!($first $second Nothing)
    };
    ($first:ident) => {
        forms!($first Nothing Nothing)
    };
    () => {
        forms!(Nothing Nothing Nothing)
    };
}

macro_rules! name {
    ($all:ident) => {
        Name::All(Mnemonic::$all)
    };
    ($long:ident / $word:ident) => {
        Name::BySize(Mnemonic::$long, Mnemonic::$word)
    };
    (= $family:ident) => {
        Name::$family
    };
}

macro_rules! listed {
    (yes) => {
        true
    };
    (no) => {
        false
    };
}

macro_rules! row {
    ($map:ident $first:literal, $($rest:tt)*) => {
        row!(@reg [$map $first 1 1] $($rest)*)
    };
    ($map:ident $first:literal x $count:literal, $($rest:tt)*) => {
        row!(@reg [$map $first 1 $count] $($rest)*)
    };
    ($map:ident $first:literal x $count:literal by $step:literal, $($rest:tt)*) => {
        row!(@reg [$map $first $step $count] $($rest)*)
    };
    (@reg [$($codes:tt)*] / $reg:literal, $($rest:tt)*) => {
        row!(@row [$($codes)* $reg $reg] $($rest)*)
    };
    (@reg [$($codes:tt)*] / $low:literal - $high:literal, $($rest:tt)*) => {
        row!(@row [$($codes)* $low $high] $($rest)*)
    };
    (@reg [$($codes:tt)*] $($rest:tt)*) => {
        row!(@row [$($codes)* 0 7] $($rest)*)
    };
    (@row [$map:ident $first:literal $step:literal $count:literal $low:literal $high:literal]
     ($($name:tt)*), [$($form:ident)*], $size:ident, $lock:ident, $repeats:ident) => {
        Row {
            map: Map::$map,
            first: $first,
            step: $step,
            count: $count,
            low: $low,
            high: $high,
            name: name!($($name)*),
            forms: forms!($($form)*),
            size: listed!($size),
            lock: listed!($lock),
            repeats: Repeats::$repeats,
        }
    };
}

/// The opcode table. A line has the map, the opcodes, the reg fields where not all are listed, the name, the forms of
/// the operands, whether the prefixes 66 and F0 are listed, and what F3 and F2 mean.
/// Source: Intel manual, volume 2, the opcode maps of appendix A and the pages of the instructions.
pub static ROWS: [Row; 145] = [
    // ADD OR ADC SBB AND SUB XOR CMP, eight opcodes apart; CMP is listed without LOCK
    row!(One 0x00 x 7 by 8, (= Arithmetic), [Eb Gb], no, yes, Never),
    row!(One 0x01 x 7 by 8, (= Arithmetic), [Ev Gv], yes, yes, Never),
    row!(One 0x38, (Cmp), [Eb Gb], no, no, Never),
    row!(One 0x39, (Cmp), [Ev Gv], yes, no, Never),
    row!(One 0x02 x 8 by 8, (= Arithmetic), [Gb Eb], no, no, Never),
    row!(One 0x03 x 8 by 8, (= Arithmetic), [Gv Ev], yes, no, Never),
    row!(One 0x04 x 8 by 8, (= Arithmetic), [Ab Ib], no, no, Never),
    row!(One 0x05 x 8 by 8, (= Arithmetic), [Av Iv], yes, no, Never),
    row!(One 0x80, /0-6, (= ArithmeticByReg), [Eb Ib], no, yes, Never),
    row!(One 0x80, /7, (Cmp), [Eb Ib], no, no, Never),
    row!(One 0x81, /0-6, (= ArithmeticByReg), [Ev Iv], yes, yes, Never),
    row!(One 0x81, /7, (Cmp), [Ev Iv], yes, no, Never),
    row!(One 0x83, /0-6, (= ArithmeticByReg), [Ev Is], yes, yes, Never),
    row!(One 0x83, /7, (Cmp), [Ev Is], yes, no, Never),
    // TEST, XCHG, NOP
    row!(One 0x84, (Test), [Eb Gb], no, no, Never),
    row!(One 0x85, (Test), [Ev Gv], yes, no, Never),
    row!(One 0xA8, (Test), [Ab Ib], no, no, Never),
    row!(One 0xA9, (Test), [Av Iv], yes, no, Never),
    row!(One 0x86, (Xchg), [Eb Gb], no, yes, Never),
    row!(One 0x87, (Xchg), [Ev Gv], yes, yes, Never),
    row!(One 0x90, (Nop), [V], yes, no, Ignored),
    row!(One 0x91 x 7, (Xchg), [Av Rv], yes, no, Never),
    // MOV, LEA
    row!(One 0x88, (Mov), [Eb Gb], no, no, Never),
    row!(One 0x89, (Mov), [Ev Gv], yes, no, Never),
    row!(One 0x8A, (Mov), [Gb Eb], no, no, Never),
    row!(One 0x8B, (Mov), [Gv Ev], yes, no, Never),
    row!(One 0xA0, (Mov), [Ab Ob], no, no, Never),
    row!(One 0xA1, (Mov), [Av Ov], yes, no, Never),
    row!(One 0xA2, (Mov), [Ob Ab], no, no, Never),
    row!(One 0xA3, (Mov), [Ov Av], yes, no, Never),
    row!(One 0xB0 x 8, (Mov), [Rb Ib], no, no, Never),
    row!(One 0xB8 x 8, (Mov), [Rv Iv], yes, no, Never),
    row!(One 0xC6, /0, (Mov), [Eb Ib], no, no, Never),
    row!(One 0xC7, /0, (Mov), [Ev Iv], yes, no, Never),
    row!(One 0x8D, (Lea), [Gv M], yes, no, Never),
    // INC, DEC, PUSH, POP, CALL and JMP through an operand
    row!(One 0x40 x 8, (Inc), [Rv], yes, no, Never),
    row!(One 0x48 x 8, (Dec), [Rv], yes, no, Never),
    row!(One 0x50 x 8, (Push), [Rv], no, no, Never),
    row!(One 0x58 x 8, (Pop), [Rv], no, no, Never),
    row!(One 0x68, (Push), [Iv], no, no, Never),
    row!(One 0x6A, (Push), [Is], no, no, Never),
    row!(One 0xFF, /6, (Push), [Ev], no, no, Never),
    row!(One 0x8F, /0, (Pop), [Ev], no, no, Never),
    row!(One 0xFE, /0, (Inc), [Eb], no, yes, Never),
    row!(One 0xFE, /1, (Dec), [Eb], no, yes, Never),
    row!(One 0xFF, /0, (Inc), [Ev], yes, yes, Never),
    row!(One 0xFF, /1, (Dec), [Ev], yes, yes, Never),
    row!(One 0xFF, /2, (Call), [Ev], no, no, Never),
    row!(One 0xFF, /4, (Jmp), [Ev], no, no, Never),
    // TEST, NOT, NEG, MUL, IMUL, DIV, IDIV
    row!(One 0xF6, /0, (Test), [Eb Ib], no, no, Never),
    row!(One 0xF6, /2, (Not), [Eb], no, yes, Never),
    row!(One 0xF6, /3, (Neg), [Eb], no, yes, Never),
    row!(One 0xF6, /4, (Mul), [Eb], no, no, Never),
    row!(One 0xF6, /5, (Imul), [Eb], no, no, Never),
    row!(One 0xF6, /6, (Div), [Eb], no, no, Never),
    row!(One 0xF6, /7, (Idiv), [Eb], no, no, Never),
    row!(One 0xF7, /0, (Test), [Ev Iv], yes, no, Never),
    row!(One 0xF7, /2, (Not), [Ev], yes, yes, Never),
    row!(One 0xF7, /3, (Neg), [Ev], yes, yes, Never),
    row!(One 0xF7, /4, (Mul), [Ev], yes, no, Never),
    row!(One 0xF7, /5, (Imul), [Ev], yes, no, Never),
    row!(One 0xF7, /6, (Div), [Ev], yes, no, Never),
    row!(One 0xF7, /7, (Idiv), [Ev], yes, no, Never),
    row!(One 0x69, (Imul), [Gv Ev Iv], yes, no, Never),
    row!(One 0x6B, (Imul), [Gv Ev Is], yes, no, Never),
    row!(Two 0xAF, (Imul), [Gv Ev], yes, no, Never),
    // ROL, ROR, SHL, SHR, SAR: /0 /1, /4 /5, /7
    row!(One 0xC0, /0-1, (= ShiftByReg), [Eb Ib], no, no, Never),
    row!(One 0xC0, /4-5, (= ShiftByReg), [Eb Ib], no, no, Never),
    row!(One 0xC0, /7, (= ShiftByReg), [Eb Ib], no, no, Never),
    row!(One 0xC1, /0-1, (= ShiftByReg), [Ev Ib], yes, no, Never),
    row!(One 0xC1, /4-5, (= ShiftByReg), [Ev Ib], yes, no, Never),
    row!(One 0xC1, /7, (= ShiftByReg), [Ev Ib], yes, no, Never),
    row!(One 0xD0, /0-1, (= ShiftByReg), [Eb One], no, no, Never),
    row!(One 0xD0, /4-5, (= ShiftByReg), [Eb One], no, no, Never),
    row!(One 0xD0, /7, (= ShiftByReg), [Eb One], no, no, Never),
    row!(One 0xD1, /0-1, (= ShiftByReg), [Ev One], yes, no, Never),
    row!(One 0xD1, /4-5, (= ShiftByReg), [Ev One], yes, no, Never),
    row!(One 0xD1, /7, (= ShiftByReg), [Ev One], yes, no, Never),
    row!(One 0xD2, /0-1, (= ShiftByReg), [Eb Cl], no, no, Never),
    row!(One 0xD2, /4-5, (= ShiftByReg), [Eb Cl], no, no, Never),
    row!(One 0xD2, /7, (= ShiftByReg), [Eb Cl], no, no, Never),
    row!(One 0xD3, /0-1, (= ShiftByReg), [Ev Cl], yes, no, Never),
    row!(One 0xD3, /4-5, (= ShiftByReg), [Ev Cl], yes, no, Never),
    row!(One 0xD3, /7, (= ShiftByReg), [Ev Cl], yes, no, Never),
    // SHLD, SHRD
    row!(Two 0xA4, (Shld), [Ev Gv Ib], yes, no, Never),
    row!(Two 0xA5, (Shld), [Ev Gv Cl], yes, no, Never),
    row!(Two 0xAC, (Shrd), [Ev Gv Ib], yes, no, Never),
    row!(Two 0xAD, (Shrd), [Ev Gv Cl], yes, no, Never),
    // BT, BTS, BTR, BTC, BSF, BSR
    row!(Two 0xA3, (Bt), [Uv Gv], yes, no, Never),
    row!(Two 0xAB, (Bts), [Uv Gv], yes, no, Never),
    row!(Two 0xB3, (Btr), [Uv Gv], yes, no, Never),
    row!(Two 0xBB, (Btc), [Uv Gv], yes, no, Never),
    row!(Two 0xBA, /4, (Bt), [Uv Ib], yes, no, Never),
    row!(Two 0xBA, /5, (Bts), [Uv Ib], yes, no, Never),
    row!(Two 0xBA, /6, (Btr), [Uv Ib], yes, no, Never),
    row!(Two 0xBA, /7, (Btc), [Uv Ib], yes, no, Never),
    row!(Two 0xBC, (Bsf), [Gv Ev], yes, no, Never),
    row!(Two 0xBD, (Bsr), [Gv Ev], yes, no, Never),
    // CMPXCHG, XADD
    row!(Two 0xB0, (Cmpxchg), [Eb Gb], no, yes, Never),
    row!(Two 0xB1, (Cmpxchg), [Ev Gv], yes, yes, Never),
    row!(Two 0xC0, (Xadd), [Eb Gb], no, yes, Never),
    row!(Two 0xC1, (Xadd), [Ev Gv], yes, yes, Never),
    // Jcc, SETcc, CMOVcc, MOVZX, MOVSX
    row!(One 0x70 x 16, (= J), [J8], no, no, Never),
    row!(Two 0x80 x 16, (= J), [J32], no, no, Never),
    row!(Two 0x90 x 16, (= Set), [Eb], no, no, Never),
    row!(Two 0x40 x 16, (= Cmov), [Gv Ev], yes, no, Never),
    row!(Two 0xB6, (Movzx), [Gv Eb], yes, no, Never),
    row!(Two 0xBE, (Movsx), [Gv Eb], yes, no, Never),
    row!(Two 0xB7, (Movzx), [Gv Ew], no, no, Never),
    row!(Two 0xBF, (Movsx), [Gv Ew], no, no, Never),
    // JMP, CALL, RET, LEAVE, CWDE or CBW, CDQ or CWD, the loops
    row!(One 0xEB, (Jmp), [J8], no, no, Never),
    row!(One 0xE9, (Jmp), [J32], no, no, Never),
    row!(One 0xE8, (Call), [J32], no, no, Never),
    row!(One 0xC3, (Ret), [], no, no, Ignored),
    row!(One 0xC2, (Ret), [Iw], no, no, Never),
    row!(One 0xC9, (Leave), [], no, no, Never),
    row!(One 0x98, (Cwde / Cbw), [V], yes, no, Never),
    row!(One 0x99, (Cdq / Cwd), [V], yes, no, Never),
    row!(One 0xE0, (Loopne), [J8], no, no, Never),
    row!(One 0xE1, (Loope), [J8], no, no, Never),
    row!(One 0xE2, (Loop), [J8], no, no, Never),
    row!(One 0xE3, (Jecxz), [J8], no, no, Never),
    // the string operations
    row!(One 0xA4, (Movs), [Xb], no, no, Rep),
    row!(One 0xA5, (Movs), [Xv], yes, no, Rep),
    row!(One 0xA6, (Cmps), [Xb], no, no, RepeRepne),
    row!(One 0xA7, (Cmps), [Xv], yes, no, RepeRepne),
    row!(One 0xAA, (Stos), [Yb], no, no, Rep),
    row!(One 0xAB, (Stos), [Yv], yes, no, Rep),
    row!(One 0xAC, (Lods), [Xb], no, no, Rep),
    row!(One 0xAD, (Lods), [Xv], yes, no, Rep),
    row!(One 0xAE, (Scas), [Yb], no, no, RepeRepne),
    row!(One 0xAF, (Scas), [Yv], yes, no, RepeRepne),
    // flags, and what is left
    row!(One 0xF5, (Cmc), [], no, no, Never),
    row!(One 0xF8, (Clc), [], no, no, Never),
    row!(One 0xF9, (Stc), [], no, no, Never),
    row!(One 0xFC, (Cld), [], no, no, Never),
    row!(One 0xFD, (Std), [], no, no, Never),
    row!(One 0x9E, (Sahf), [], no, no, Never),
    row!(One 0x9F, (Lahf), [], no, no, Never),
    row!(Two 0xC8 x 8, (Bswap), [Rv], no, no, Never),
    row!(Two 0x1F, /0, (Nop), [N], yes, no, Never),
    row!(Three 0xFB, (Endbr32), [], no, no, Needed),
    row!(Two 0x0B, (Ud2), [], no, no, Never),
    row!(One 0xCC, (Int3), [], no, no, Never),
    row!(One 0xF4, (Hlt), [], no, no, Never),
];
