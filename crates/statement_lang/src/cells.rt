ghost use Rattle.std.specs.Prelude.{◌≡◌, [], ◌∷◌, ◌++◌, ◌+◌, ◌<◌, ◌%◌, ◌^◌, true, false, IfSome, IfNone, if◌then◌else◌, is_ok};
ghost use Rattle.std.specs.List.{list_all};
ghost use Rattle.memory_map.specs.Range.{IsInUserSpace, byte_at, code_at, code_run, has, holds, may_write, may_write_each};
ghost use Rattle.memory_map.specs.Spans.{AreAll};
ghost use Rattle.memory_map.specs.State.{memory};
ghost use Rattle.x86_semantics.specs.Memory.{with_byte, word_at};
ghost use Rattle.x86_semantics.specs.Registers.{register, with_register};
ghost use Rattle.x86_semantics.specs.Operands.{at_address, segment_base, with_flags};
ghost use Rattle.statement_lang.specs.Cells.{flags_of};
ghost use Rattle.statement_lang.specs.Filling.{with_filled};
ghost use Rattle.statement_lang.specs.Indexed.{is_clear, may_map};

use crate::Block;
use crate::mapped::Mapped;
use arrayvec::ArrayVec;
use bit_words::{Flags, Width};
use memory_map::Regs;
use std::alloc::{AllocError, Global};
use std::marker::Model;
use x86_syntax::Seg;

/// The machine's state, which contracts see as `MachineState`.
#[derive(Drop)]
pub struct Cells {
    registers: Regs<u32>,
    eip: u32,
    flags: Flags,
    fs: u32,
    gs: u32,
    stack: Block,
    ranges: Mapped,
}

impl Model for Cells {
    ghost use Rattle.std.specs.Prelude.{◌∷◌};
    ghost use Rattle.memory_map.specs.State.{MachineState};
    ghost use Rattle.statement_lang.specs.Cells.{flags_of};
    ghost use Rattle.statement_lang.specs.Indexed.{IsMemory};

    ghost Value = { MachineState };

    ghost view = { λ c. record { registers = c.registers; eip = c.eip; flags = flags_of c.flags; fs = c.fs; gs = c.gs; stack = c.stack; ranges = c.ranges } };

    ghost invariant = { λ c. IsMemory (c.stack ∷ c.ranges) };
}

impl Cells {
    /// A state of these registers, EIP, flags, bases of FS and GS and stack window, with no other ranges; takes no memory.
    pub fn new(
        registers: Regs<u32>,
        eip: u32,
        flags: Flags,
        fs: u32,
        gs: u32,
        stack: Block,
        alloc: Global,
    ) -> Cells
        requires { IsInUserSpace stack }
        ensures { result ≡ record { registers = registers; eip = eip; flags = flags_of flags; fs = fs; gs = gs; stack = stack; ranges = [] } }
    {
        Cells {
            registers,
            eip,
            flags,
            fs,
            gs,
            stack,
            ranges: Mapped::none(alloc),
        }
    }

    /// Maps a range more; after a refusal nothing has changed.
    pub fn map(&mut self, block: Block) -> Result<(), AllocError>
        requires { may_map (memory self.old) block ≡ true }
        ensures { self.new ≡ (if is_ok result then record self.old { ranges = self.old.ranges ++ block ∷ [] } else self.old) }
    {
        self.ranges.add(block)
    }

    /// The general registers.
    pub fn registers(&self) -> Regs<u32>
        ensures { result ≡ self.now.registers }
    {
        self.registers
    }

    /// The address of the next instruction.
    pub fn eip(&self) -> u32
        ensures { result ≡ self.now.eip }
    {
        self.eip
    }

    /// The flags, as the set of those that are set.
    pub fn flags(&self) -> Flags
        ensures { flags_of result ≡ self.now.flags }
    {
        self.flags
    }

    /// A register by its number modulo 8.
    #[tactic(auto, unfolding(x86_semantics::specs::Registers::register))]
    pub fn register(&self, r: u8) -> u32
        ensures { result ≡ register r self.now }
    {
        self.registers.get(r % 8)
    }

    /// The base of a segment.
    pub fn base(&self, seg: Seg) -> u32
        ensures { result ≡ segment_base seg self.now }
    {
        match seg {
            Seg::Plain => 0,
            Seg::Fs => self.fs,
            Seg::Gs => self.gs,
        }
    }

    /// The byte at an address, where one is mapped.
    pub fn byte_at(&self, a: u32) -> Option<u8>
        ensures { result ≡ byte_at (memory self.now) a }
    {
        let a = u64::from(a);
        if self.stack.has(a) {
            self.stack.byte(a)
        } else {
            self.ranges.byte_at(a)
        }
    }

    /// The word of a width at an address, where it is mapped: none is from 2^32 on.
    pub fn word_at(&self, w: Width, a: u64) -> Option<u32>
        ensures { result ≡ word_at w a self.now }
    {
        let _ = &self.stack;
        if a > u64::from(u32::MAX) {
            return None;
        }
        self.load(w, a as u32)
    }

    /// The byte at an address, where one is mapped that may be executed.
    fn code_at(&self, a: u64) -> Option<u8>
        ensures { result ≡ code_at (memory self.now) a }
    {
        if self.stack.has(a) {
            self.stack.code(a)
        } else {
            self.ranges.code_at(a)
        }
    }

    /// The executable bytes at EIP.
    pub fn fetch(&self) -> ArrayVec<u8, 15>
        ensures { result.items ≡ code_run (memory self.now) self.now.eip }
    {
        let at = u64::from(self.eip());
        let mut bytes = ArrayVec::new();
        for i in 0..15 {
            match self.code_at(at + i) {
                Some(b) => bytes.push(b),
                None => return bytes,
            }
        }
        bytes
    }

    /// The end of the range that has an address, where it may be written.
    fn writable_until(&self, a: u64) -> Option<u64>
        ensures on { IfSome result (λ end. a < end) }
        ensures each { IfSome result (AreAll (may_write (memory self.now)) true a) }
        ensures none { IfNone result (may_write (memory self.now) a ≡ false) }
    {
        if self.stack.has(a) {
            self.stack.writable_end()
        } else {
            self.ranges.writable_until(a)
        }
    }

    /// Whether a byte that may be written is mapped at an address.
    pub fn may_write(&self, a: u32) -> bool
        ensures { result ≡ may_write (memory self.now) a }
    {
        self.writable_until(u64::from(a)).is_some()
    }

    /// Whether each of `n` bytes from an address on may be written.
    pub fn may_write_each(&self, a: u64, n: u64) -> bool
        requires { a + n < 2 ^ 64 }
        ensures { result ≡ may_write_each (memory self.now) a n }
    {
        let end = a + n;
        let mut at = a;
        while at < end {
            match self.writable_until(at) {
                Some(next) => at = next,
                None => return false,
            }
        }
        true
    }

    /// Whether the stack window has an address.
    pub fn stack_has(&self, a: u64) -> bool
        ensures { result ≡ has a self.now.stack }
    {
        self.stack.has(a)
    }

    /// Whether the stack window has each of `n` addresses from one on.
    pub fn stack_holds(&self, a: u64, n: u64) -> bool
        requires { a + n < 2 ^ 64 }
        ensures { result ≡ holds a n self.now.stack }
    {
        self.stack.holds(a, n)
    }

    /// Whether no byte is mapped from an address up to another.
    pub fn is_clear(&self, low: u64, end: u64) -> bool
        requires { low < end }
        ensures { result ≡ list_all (is_clear low end) (memory self.now) }
    {
        self.stack.is_clear(low, end) && self.ranges.is_clear(low, end)
    }

    /// Whether a range may be mapped beside the others: it has a byte, lies where a program's memory may, and shares no
    /// address with them.
    pub fn may_map(&self, block: &Block) -> bool
        ensures { result ≡ may_map (memory self.now) block.now }
    {
        block.low() < block.end()
            && block.is_in_user_space()
            && self.is_clear(block.low(), block.end())
    }

    /// Gives a register, by its number modulo 8, another value.
    #[tactic(auto, unfolding(x86_semantics::specs::Registers::with_register))]
    pub fn set_register(&mut self, r: u8, v: u32)
        ensures { self.new ≡ with_register r v self.old }
    {
        self.registers.set(r % 8, v);
    }

    /// Gives all general registers other values.
    pub fn set_registers(&mut self, registers: Regs<u32>)
        ensures { self.new ≡ record self.old { registers = registers } }
    {
        self.registers = registers;
    }

    /// Puts EIP at an address.
    pub fn go_to(&mut self, a: u32)
        ensures { self.new ≡ at_address a self.old }
    {
        self.eip = a;
    }

    /// Gives the flags other values.
    pub fn set_flags(&mut self, flags: Flags)
        ensures { self.new ≡ with_flags (flags_of flags) self.old }
    {
        self.flags = flags;
    }

    /// Puts a byte at an address, where it may be written.
    pub fn put(&mut self, a: u64, b: u8)
        ensures { self.new ≡ with_byte a b self.old }
    {
        self.stack.put(a, b);
        self.ranges.put(a, b);
    }

    /// Puts a byte at an address, where one is mapped, also one that may not be written.
    pub fn fill(&mut self, a: u64, b: u8)
        ensures { self.new ≡ with_filled a b self.old }
    {
        self.stack.fill(a, b);
        self.ranges.fill(a, b);
    }
}
