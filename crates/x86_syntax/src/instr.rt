use arrayvec::ArrayVec;
use bit_words::Width;

/// A condition by its number in the opcode, 0 to 15: each odd number negates the even one before it.
#[derive(Clone, Copy, PartialEq, Eq)]
pub struct Cond(pub u8);

/// What an instruction does, one variant for each mnemonic.
#[derive(Clone, Copy)]
pub enum Mnemonic {
    Add,
    Or,
    Adc,
    Sbb,
    And,
    Sub,
    Xor,
    Cmp,
    Test,
    Xchg,
    Cmpxchg,
    Xadd,
    Nop,
    Mov,
    Lea,
    Inc,
    Dec,
    Push,
    Pop,
    Call,
    Jmp,
    Not,
    Neg,
    Mul,
    Imul,
    Div,
    Idiv,
    Rol,
    Ror,
    Shl,
    Shr,
    Sar,
    Shld,
    Shrd,
    Bt,
    Bts,
    Btr,
    Btc,
    Bsf,
    Bsr,
    J(Cond),
    Set(Cond),
    Cmov(Cond),
    Movzx,
    Movsx,
    Ret,
    Leave,
    Cwde,
    Cbw,
    Cdq,
    Cwd,
    Loopne,
    Loope,
    Loop,
    Jecxz,
    Movs,
    Cmps,
    Stos,
    Lods,
    Scas,
    Cmc,
    Clc,
    Stc,
    Cld,
    Std,
    Sahf,
    Lahf,
    Bswap,
    Endbr32,
    Ud2,
    Int3,
    Hlt,
}

/// The segment whose base is added to an address. `Plain` adds nothing.
#[derive(Clone, Copy)]
pub enum Seg {
    Plain,
    Fs,
    Gs,
}

/// Whether a string operation is repeated, and until when.
#[derive(Clone, Copy)]
pub enum Repeat {
    Once,
    Rep,
    Repe,
    Repne,
}

/// A memory address: the segment's base and the sum of the parts that are there, modulo 2^32.
/// `index` is a register with its scale: 1, 2, 4 or 8.
#[derive(Clone, Copy)]
pub struct Address {
    pub seg: Seg,
    pub base: Option<u8>,
    pub index: Option<(u8, u8)>,
    pub disp: u32,
}

/// An operand. Registers go by their numbers, 0 to 7; an offset counts from the next instruction.
#[derive(Clone, Copy)]
pub enum Operand {
    Register(Width, u8),
    Number(Width, u32),
    Memory(Width, Address),
    Offset(i32),
}

/// What a ModRM byte and the bytes behind it point at: a register, or memory at an address without its segment.
#[derive(Clone, Copy)]
pub enum Place {
    Register(u8),
    Memory(Address),
}

impl Default for Operand {
    ghost use Rattle.std.specs.Prelude.{◌≡◌, pos};
    ghost use Rattle.x86_syntax.specs.declared.instr.Operand.TheVariants.{Offset};

    ghost is_default = { λ op. op ≡ Offset (pos 0) };

    fn default() -> Operand {
        Operand::Offset(0)
    }
}

/// An instruction as its bytes name it.
///
/// `w` is the first operand's width, the element's width for string operations, 16 for NOP, CBW and CWD behind
/// the prefix 66, and 32 for all others. `seg` is for string operations alone; a memory operand has its own in its
/// address.
#[derive(Drop)]
pub struct Instr {
    pub name: Mnemonic,
    pub w: Width,
    pub ops: ArrayVec<Operand, 3>,
    pub seg: Seg,
    pub lock: bool,
    pub repeat: Repeat,
}
