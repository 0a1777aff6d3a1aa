ghost use Rattle.std.specs.Prelude.{◌≡◌, ◌≤◌, ◌+◌, ◌++◌, length};
ghost use Rattle.arrayvec.specs.ArrayVec.{array_vec_len};
ghost use Rattle.x86_lifter.specs.Pieces.{base_source, fetching, fetching_register, index_source, keeping, keeping_register, nothing, placing, places, scale_of, address_from};
ghost use Rattle.x86_semantics.specs.FlagRules.{free_of};

use bit_words::{Flags, Op, Width};
use statement_lang::{Source, Stmt, Stmts, Test};
use x86_semantics::{FlagRule, byte_part, put_byte_part};
use x86_syntax::{Address, Operand};

/// Statements appended to others.
pub fn add(out: &mut Stmts, more: &[Stmt])
    requires { array_vec_len out.old + length more.now ≤ 32 }
    ensures items { out.new.items ≡ out.old.items ++ more.now }
    ensures len { array_vec_len out.new ≡ array_vec_len out.old + length more.now }
{
    let _fits = out.try_extend_from_slice(more);
}

// ---- addresses

/// The base register of an address as a source, 0 where there is none.
pub fn base_source(base: Option<u8>) -> Source
    ensures { result ≡ base_source base }
{
    match base {
        None => Source::Number(0),
        Some(r) => Source::Register(r),
    }
}

/// The index register of an address as a source, 0 where there is none.
pub fn index_source(index: Option<(u8, u8)>) -> Source
    ensures { result ≡ index_source index }
{
    match index {
        None => Source::Number(0),
        Some((r, _)) => Source::Register(r),
    }
}

fn scale_of(index: Option<(u8, u8)>) -> u32
    ensures { result ≡ scale_of index }
{
    match index {
        None => 0,
        Some((_, scale)) => u32::from(scale),
    }
}

/// An operator at two sources, into a temporary.
pub fn put(t: u8, op: Op, w: Width, a: Source, b: Source) -> Stmt
    ensures { result ≡ Stmt.Put (Source.Temp t) op w a b }
{
    Stmt::Put {
        to: Source::Temp(t),
        op,
        w,
        a,
        b,
    }
}

/// An address into a temporary, where the index and the base come from these sources.
pub fn add_address(out: &mut Stmts, t: u8, index: Source, base: Source, a: Address)
    requires { array_vec_len out.old + 4 ≤ 32 }
    ensures items { out.new.items ≡ out.old.items ++ address_from t index base a }
    ensures len { array_vec_len out.new ≡ array_vec_len out.old + 4 }
{
    let sum = Source::Temp(t);
    let scale = Source::Number(scale_of(a.index));
    let list = [
        put(t, Op::Mul, Width::B32, index, scale),
        put(t, Op::Add, Width::B32, sum, base),
        put(t, Op::Add, Width::B32, sum, Source::Number(a.disp)),
        put(t, Op::Add, Width::B32, sum, Source::Base(a.seg)),
    ];
    add(out, &list);
}

fn place(out: &mut Stmts, t: u8, op: Operand)
    requires { array_vec_len out.old + 4 ≤ 32 }
    ensures items { out.new.items ≡ out.old.items ++ placing t op }
    ensures len { array_vec_len out.new ≤ array_vec_len out.old + 4 }
{
    match op {
        Operand::Memory(_, a) => {
            add_address(out, t, index_source(a.index), base_source(a.base), a)
        }
        _ => {}
    }
}

/// The addresses of two operands into the temporaries 0 and 1, and what stands behind them.
pub fn behind_places(first: Operand, second: Operand, more: &[Stmt]) -> Stmts
    requires { length more.now ≤ 24 }
    ensures { result.items ≡ places first second ++ more.now }
{
    let mut out = Stmts::new();
    place(&mut out, 0, first);
    place(&mut out, 1, second);
    add(&mut out, more);
    out
}

/// A list alone.
pub fn listed(more: &[Stmt]) -> Stmts
    requires { length more.now ≤ 32 }
    ensures { result.items ≡ more.now }
{
    let mut out = Stmts::new();
    add(&mut out, more);
    out
}

// ---- values; the address of an operand in memory is in the temporary k

/// The statement that gives `to` the value of `from`.
pub fn copy(to: Source, from: Source) -> Stmt
    ensures { result ≡ Stmt.Copy to from }
{
    Stmt::Copy { to, from }
}

/// A register's value into a temporary.
pub fn fetch_register(w: Width, r: u8, t: u8) -> Stmt
    ensures { result ≡ fetching_register w r t }
{
    match w {
        Width::B8 => put(
            t,
            byte_part(r),
            Width::B32,
            Source::Register(r % 4),
            Source::Number(0),
        ),
        Width::B16 => put(
            t,
            Op::Low16,
            Width::B32,
            Source::Register(r),
            Source::Number(0),
        ),
        Width::B32 => copy(Source::Temp(t), Source::Register(r)),
    }
}

/// An operand's value into a temporary.
pub fn fetch(op: Operand, k: u8, t: u8) -> Stmt
    ensures { result ≡ fetching op k t }
{
    match op {
        Operand::Register(w, r) => fetch_register(w, r, t),
        Operand::Number(w, n) => copy(Source::Temp(t), Source::Number(w.cut(n))),
        Operand::Memory(w, _) => Stmt::Load {
            to: Source::Temp(t),
            w,
            at: Source::Temp(k),
        },
        Operand::Offset(o) => copy(Source::Temp(t), Source::Number(o.cast_unsigned())),
    }
}

fn merge(r: u8, op: Op, part: Source) -> Stmt
    ensures { result ≡ Stmt.Put (Source.Register r) op Width.B32 (Source.Register r) part }
{
    Stmt::Put {
        to: Source::Register(r),
        op,
        w: Width::B32,
        a: Source::Register(r),
        b: part,
    }
}

/// A temporary into a register.
pub fn keep_register(w: Width, r: u8, t: u8) -> Stmt
    ensures { result ≡ keeping_register w r t }
{
    match w {
        Width::B8 => merge(r % 4, put_byte_part(r), Source::Temp(t)),
        Width::B16 => merge(r, Op::PutLow16, Source::Temp(t)),
        Width::B32 => copy(Source::Register(r), Source::Temp(t)),
    }
}

/// The statement that changes nothing.
pub fn nothing() -> Stmt
    ensures { result ≡ nothing }
{
    Stmt::SkipUnless {
        test: Test::Zero(Source::Number(0)),
        count: 0,
    }
}

/// A temporary into an operand.
pub fn keep(op: Operand, k: u8, t: u8) -> Stmt
    ensures { result ≡ keeping op k t }
{
    match op {
        Operand::Register(w, r) => keep_register(w, r, t),
        Operand::Memory(w, _) => Stmt::Store {
            at: Source::Temp(k),
            w,
            from: Source::Temp(t),
        },
        _ => nothing(),
    }
}

/// The flags of a rule by three temporaries.
pub fn set_flags(rule: FlagRule, w: Width, a: u8, b: u8, r: u8) -> Stmt
    ensures { result ≡ Stmt.SetFlags rule w (Source.Temp a) (Source.Temp b) (Source.Temp r) }
{
    Stmt::SetFlags {
        rule,
        w,
        a: Source::Temp(a),
        b: Source::Temp(b),
        result: Source::Temp(r),
    }
}

/// The flags of a set, free.
pub fn free_flags(which: Flags) -> Stmt
    ensures { result ≡ Stmt.FreeFlags which }
{
    Stmt::FreeFlags { which }
}

/// The flags that a rule leaves free.
pub fn free(rule: FlagRule) -> Stmt
    ensures { result ≡ Stmt.FreeFlags (free_of rule) }
{
    Stmt::FreeFlags { which: rule.free() }
}

/// A free number of a width into a temporary.
pub fn choose(t: u8, w: Width) -> Stmt
    ensures { result ≡ Stmt.Choose (Source.Temp t) w }
{
    Stmt::Choose {
        to: Source::Temp(t),
        w,
    }
}

/// The statement that puts EIP at an address.
pub fn go_to(next: u32) -> Stmt
    ensures { result ≡ Stmt.Goto (Source.Number next) }
{
    Stmt::Goto {
        to: Source::Number(next),
    }
}

/// The statement that passes over the next `count` where the test does not hold.
pub fn skip_unless(test: Test, count: u8) -> Stmt
    ensures { result ≡ Stmt.SkipUnless test count }
{
    Stmt::SkipUnless { test, count }
}
