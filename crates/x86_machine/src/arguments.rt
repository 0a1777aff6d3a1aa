ghost use Rattle.std.specs.Prelude.{◌≡◌, ◌<◌, ◌^◌, IfSome, option_map, option_to_list};
ghost use Rattle.import_semantics.specs.StubDoes.{amount, argument, block_of, block_size, exit_spans, frame_size, fresh_block, has_frame, return_address, span_of, stack_word, target_of};

use bit_words::Width;
use memory_map::{Choice, Span};
use statement_lang::Cells;
use stub_file::{Amount, Reply, Stub, StubWrite};

/// The bytes of a word.
pub const WORD_BYTES: u32 = 4;

/// ESP.
pub fn stack_pointer(cells: &Cells) -> u64
    ensures is { result ≡ cells.now.registers.esp }
    ensures small { result < 2 ^ 32 }
{
    let registers = cells.registers();
    u64::from(registers.esp)
}

// The word so many bytes above ESP; where none is mapped, 0.
fn stack_word(cells: &Cells, above: u32) -> u32
    ensures { result ≡ stack_word above cells.now }
{
    let at = stack_pointer(cells) + u64::from(above);
    cells.word_at(Width::B32, at).unwrap_or(0)
}

fn return_address(cells: &Cells) -> u32
    ensures { result ≡ return_address cells.now }
{
    stack_word(cells, 0)
}

fn argument(cells: &Cells, i: u8) -> u32
    ensures { result ≡ argument i cells.now }
{
    stack_word(cells, 4 + 4 * u32::from(i))
}

fn amount(cells: &Cells, counted: Amount) -> u32
    ensures { result ≡ amount counted cells.now }
{
    match counted {
        Amount::Fixed(n) => n,
        Amount::Argument(i) => argument(cells, i),
    }
}

/// How many bytes the return address and the arguments have.
pub fn frame_size(stub: &Stub) -> u64
    ensures size { result ≡ frame_size stub.now }
    ensures small { result < 512 }
{
    4 + u64::from(stub.args)
}

/// Whether these lie in the stack window.
pub fn has_frame(cells: &Cells, stub: &Stub) -> bool
    ensures { result ≡ has_frame stub.now cells.now }
{
    cells.stack_holds(stack_pointer(cells), frame_size(stub))
}

/// The bytes of a write: none where its pointer or its length is 0.
pub fn span_of(cells: &Cells, write: StubWrite) -> Span
    ensures { result ≡ span_of cells.now write }
{
    let low = argument(cells, write.arg);
    if low == 0 {
        return Span { low, size: 0 };
    }
    Span {
        low,
        size: amount(cells, write.length),
    }
}

/// The four bytes below ESP, where a function is entered.
pub fn exit_span(cells: &Cells, reply: Reply) -> Option<Span>
    ensures { option_to_list result ≡ exit_spans reply cells.now }
{
    match reply {
        Reply::Enter(_) => Some(Span {
            low: cells.registers().esp.saturating_sub(4),
            size: WORD_BYTES,
        }),
        _ => None,
    }
}

/// The number of bytes of a block, 1 at least.
pub fn block_size(cells: &Cells, size: Amount) -> u32
    ensures some { 0 < result }
    ensures size { result ≡ block_size (amount size cells.now) }
{
    amount(cells, size).max(1)
}

/// The addresses of the reply's block: none by another reply, and none where the call fails.
pub fn block_span(cells: &Cells, reply: Reply, choice: &Choice) -> Option<Span>
    ensures some { IfSome result (λ s. 0 < s.size) }
    ensures block { option_map (λ s. fresh_block s.low s.size) result ≡ block_of reply choice.now cells.now }
{
    match reply {
        Reply::Block { size, .. } if !choice.fails => Some(Span {
            low: choice.base,
            size: block_size(cells, size),
        }),
        _ => None,
    }
}

/// The return address, or the function that is entered.
pub fn target_of(cells: &Cells, reply: Reply) -> u32
    ensures { result ≡ target_of reply cells.now }
{
    match reply {
        Reply::Enter(i) => argument(cells, i),
        _ => return_address(cells),
    }
}
