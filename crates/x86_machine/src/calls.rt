ghost use Rattle.std.specs.Prelude.{◌≡◌, ◌<◌, true, if◌then◌else◌, IfOk, IfSome, is_ok, option_map};
ghost use Rattle.std.specs.List.{enumerate_from};
ghost use Rattle.bit_words.specs.Width.{cut};
ghost use Rattle.import_semantics.specs.StubDoes.{after_call, block_of, fresh_block, is_allowed, registers_after, result_of, stack_after, stub_does, with_block, with_bytes, with_exit};
ghost use Rattle.statement_lang.specs.Filling.{bytes_of_fills};
ghost use Rattle.x86_machine.specs.StepBy.{outcome_of_stub};
ghost use Rattle.x86_machine.specs.Taken.{Answers};

use crate::Outcome;
use crate::arguments::{WORD_BYTES, block_span, target_of};
use crate::refusals::{bad_of, fault_of};
use bit_words::Width;
use memory_map::{Choice, Fill, Regs, Span, USER_END};
use statement_lang::{Block, Cells, status_of};
use std::alloc::{AllocError, Global};
use stub_file::{Reply, Stub};

// The base of a block, or 0 where the call fails.
fn base_unless(fails: bool, base: u32) -> u32
    ensures { result ≡ (if fails then 0 else base) }
{
    if fails { 0 } else { base }
}

// A number of 32 bits as one.
fn word(n: u32) -> u32
    ensures { result ≡ cut Width.B32 n }
{
    Width::B32.cut(n)
}

// EAX after a call.
fn result_of(reply: Reply, choice: &Choice) -> u32
    ensures { result ≡ result_of reply choice.now }
{
    match reply {
        Reply::Number(n) => n,
        Reply::Block { .. } => base_unless(choice.fails, choice.base),
        Reply::Anything => word(choice.eax),
        Reply::Never => word(choice.eax),
        Reply::Enter(_) => word(choice.eax),
    }
}

// ESP after a call.
fn stack_after(stub: &Stub, esp: u32) -> u32
    ensures { result ≡ stack_after stub.now stub.now.reply esp }
{
    match stub.reply {
        Reply::Enter(_) => esp.saturating_sub(4),
        _ => esp.wrapping_add(4 + u32::from(stub.cleans)),
    }
}

fn registers_after(stub: &Stub, choice: &Choice, before: Regs<u32>) -> Regs<u32>
    ensures { result ≡ registers_after stub.now choice.now before }
{
    Regs {
        eax: result_of(stub.reply, choice),
        ecx: word(choice.ecx),
        edx: word(choice.edx),
        ebx: before.ebx,
        esp: stack_after(stub, before.esp),
        ebp: before.ebp,
        esi: before.esi,
        edi: before.edi,
    }
}

// A block of zeros at these addresses.
fn zeros(alloc: Global, span: Span) -> Result<Block, AllocError>
    ensures { IfOk result (λ r. r ≡ fresh_block span.low span.size) }
{
    let bytes = vec![in alloc; 0u8; span.size as usize]?;
    Ok(Block::new(span.low, bytes, true, false))
}

// Maps the block of a call, where there is one; after a refusal nothing has changed.
#[tactic(auto, using(crate::proofs::Apart::block_zeros))]
fn map_block(cells: &mut Cells, alloc: Global, block: Option<Span>) -> Result<(), AllocError>
    requires some { IfSome block (λ s. 0 < s.size) }
    requires allowed { is_allowed cells.old (option_map (λ s. fresh_block s.low s.size) block) ≡ true }
    ensures { cells.new ≡ (if is_ok result then with_block (option_map (λ s. fresh_block s.low s.size) block) cells.old else cells.old) }
{
    match block {
        Some(span) => cells.map(zeros(alloc, span)?),
        None => Ok(()),
    }
}

fn put_fill(cells: &mut Cells, fill: &Fill)
    ensures { cells.new ≡ with_bytes (enumerate_from fill.now.at fill.now.bytes) cells.old }
{
    for i in 0..fill.bytes.len() {
        cells.put(u64::from(fill.at) + i as u64, fill.bytes.as_slice()[i]);
    }
}

fn put_fills(cells: &mut Cells, fills: &[Fill])
    ensures { cells.new ≡ with_bytes (bytes_of_fills fills.now) cells.old }
{
    for fill in fills {
        put_fill(cells, fill);
    }
}

// Puts the exit place below ESP, where a function is entered.
fn put_exit(cells: &mut Cells, reply: Reply)
    ensures { cells.new ≡ with_exit reply cells.old }
{
    if let Reply::Enter(_) = reply {
        let at = cells.registers().esp.saturating_sub(4);
        cells.put_number(WORD_BYTES, at, USER_END);
    }
}

// Does a call that has no fault, under a choice that names nothing bad; after a refusal nothing has changed.
fn finish(cells: &mut Cells, alloc: Global, stub: &Stub, choice: &Choice) -> Result<(), AllocError>
    requires { is_allowed cells.old (block_of stub.now.reply choice.now cells.old) ≡ true }
    ensures { cells.new ≡ (if is_ok result then after_call stub.now choice.now cells.old else cells.old) }
{
    let target = target_of(cells, stub.reply);
    let registers = registers_after(stub, choice, cells.registers());
    let block = block_span(cells, stub.reply, choice);
    map_block(cells, alloc, block)?;
    put_fills(cells, choice.fill.as_slice());
    put_exit(cells, stub.reply);
    cells.set_registers(registers);
    cells.go_to(target);
    cells.set_flags(status_of(choice.flags));
    Ok(())
}

/// The call of a function by its stub, from its place back to its caller, or into a function that it enters.
pub fn call(cells: &mut Cells, alloc: Global, stub: &Stub, choice: &Choice) -> Outcome
    ensures { Answers (λ end. end ≡ outcome_of_stub (stub_does stub.now choice.now cells.old)) cells.old result cells.new }
{
    if let Some(kind) = fault_of(cells, stub) {
        return Outcome::Faulted(kind);
    }
    if let Some(kind) = bad_of(cells, stub, choice) {
        return Outcome::BadChoice(kind);
    }
    match finish(cells, alloc, stub, choice) {
        Ok(()) => Outcome::Stepped,
        Err(_) => Outcome::Memory,
    }
}
