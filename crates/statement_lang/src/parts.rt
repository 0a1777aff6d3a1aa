ghost use Rattle.std.specs.Prelude.{◌≡◌, ◌<◌, ◌+◌, ◌*◌, ◌^◌, ◌*ℤ◌, ◌+ℤ◌, ◌≢◌, pos, false, Some, None};
ghost use Rattle.bit_words.specs.Width.{bits_of, signed_of};
ghost use Rattle.x86_semantics.specs.Registers.{part, with_part};
ghost use Rattle.x86_semantics.specs.Products.{dividend, divided, divided_signed, divided_unsigned, signed_dividend, with_long};
ghost use Rattle.statement_lang.specs.Cells.{where_done};

use crate::Cells;
use bit_words::{Op, Width, apply};
use x86_semantics::{byte_part, put_byte_part, upper_register};

impl Cells {
    /// A register of a width, by its number.
    pub fn part(&self, w: Width, r: u8) -> u32
        ensures { result ≡ part w r self.now }
    {
        match w {
            Width::B8 => apply(byte_part(r), Width::B32, self.register(r % 4), 0),
            Width::B16 => apply(Op::Low16, Width::B32, self.register(r), 0),
            Width::B32 => self.register(r),
        }
    }

    /// Gives a register of a width another value; the other bits stay.
    pub fn set_part(&mut self, w: Width, r: u8, v: u32)
        ensures { self.new ≡ with_part w r v self.old }
    {
        match w {
            Width::B8 => {
                let word = apply(put_byte_part(r), Width::B32, self.register(r % 4), v);
                self.set_register(r % 4, word);
            }
            Width::B16 => {
                let word = apply(Op::PutLow16, Width::B32, self.register(r), v);
                self.set_register(r, word);
            }
            Width::B32 => self.set_register(r, v),
        }
    }

    fn set_long(&mut self, w: Width, low: u32, high: u32)
        ensures { self.new ≡ with_long w low high self.old }
    {
        self.set_part(w, 0, low);
        self.set_part(w, upper_register(w), high);
    }

    fn dividend(&self, w: Width) -> u64
        ensures { result ≡ dividend w self.now }
    {
        u64::from(self.part(w, upper_register(w))) * w.size() + u64::from(self.part(w, 0))
    }

    fn divide_unsigned(&mut self, w: Width, x: u64, d: u64) -> bool
        requires some { 0 < d }
        requires small { d < 2 ^ 32 }
        ensures divided { where_done result self.new ≡ divided_unsigned w x d self.old }
        ensures kept { result ≡ false → self.new ≡ self.old }
    {
        let quotient = x / d;
        if quotient >= w.size() {
            return false;
        }
        self.set_long(w, quotient as u32, (x % d) as u32);
        true
    }

    // The dividend of IDIV.
    fn signed_dividend(&self, w: Width) -> i64
        ensures { result ≡ signed_dividend w self.now }
    {
        long_signed(
            w,
            w.signed(self.part(w, upper_register(w))),
            self.part(w, 0),
        )
    }

    fn divide_signed(&mut self, w: Width, x: i64, d: i64) -> bool
        requires { d ≢ pos 0 }
        ensures divided { where_done result self.new ≡ divided_signed w x d self.old }
        ensures kept { result ≡ false → self.new ≡ self.old }
    {
        if let Some(quotient) = x.checked_div(d) {
            if w.holds(quotient) {
                let remainder = x % d;
                self.set_long(w, w.word(quotient), w.word(remainder));
                return true;
            }
        }
        false
    }

    /// DIV or IDIV without its flags, and whether there is a quotient; where there is none, nothing changes.
    #[tactic(auto, unfolding(x86_semantics::specs::Products::divided))]
    pub fn divide(&mut self, signed: bool, w: Width, by: u32) -> bool
        ensures divided { where_done result self.new ≡ divided signed w by self.old }
        ensures kept { result ≡ false → self.new ≡ self.old }
    {
        let d = w.cut(by);
        if d == 0 {
            return false;
        }
        if signed {
            let x = self.signed_dividend(w);
            self.divide_signed(w, x, i64::from(w.signed(by)))
        } else {
            let x = self.dividend(w);
            self.divide_unsigned(w, x, u64::from(d))
        }
    }
}

// A signed upper half and a lower one.
fn long_signed(w: Width, high: i32, low: u32) -> i64
    ensures { result ≡ high *ℤ pos (2 ^ bits_of w) +ℤ pos low }
{
    match w {
        Width::B8 => i64::from(high) * 0x100 + i64::from(low),
        Width::B16 => i64::from(high) * 0x1_0000 + i64::from(low),
        Width::B32 => i64::from(high) * 0x1_0000_0000 + i64::from(low),
    }
}
