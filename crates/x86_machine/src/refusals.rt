ghost use Rattle.std.specs.Prelude.{◌≡◌, ◌<◌, IfSome, option_map};
ghost use Rattle.std.specs.List.{enumerate_from, list_all, list_any};
ghost use Rattle.memory_map.specs.Spans.{is_in_span};
ghost use Rattle.import_semantics.specs.StubDoes.{bad_of, block_of, exit_spans, fault_of, filled_in, fresh_block, is_allowed, is_freed, is_zeroed, lacks_block, may_fail, may_fill, may_hold, may_lie, may_write_span, span_of, spans_of};

use crate::arguments::{
    block_size, block_span, exit_span, frame_size, has_frame, span_of, stack_pointer,
};
use memory_map::{BadKind, Choice, FaultKind, Fill, Span, USER_END, USER_LOW};
use statement_lang::Cells;
use stub_file::{Reply, Stub};

// No block has more bytes.
const LARGEST_BLOCK: u32 = 67_108_864;

fn may_write_span(cells: &Cells, span: Span) -> bool
    ensures { result ≡ may_write_span cells.now span }
{
    cells.may_write_each(u64::from(span.low), u64::from(span.size))
}

fn may_write_spans(cells: &Cells, stub: &Stub) -> bool
    ensures { result ≡ list_all (may_write_span cells.now) (spans_of stub.now cells.now) }
{
    may_write_each(cells, stub)
}

fn may_write_each(cells: &Cells, stub: &Stub) -> bool
    ensures { result ≡ list_all (λ w. may_write_span cells.now (span_of cells.now w)) stub.now.writes.items }
{
    stub.writes
        .as_slice()
        .iter()
        .all(|write| may_write_span(cells, span_of(cells, *write)))
}

fn may_write_exit(cells: &Cells, reply: Reply) -> bool
    ensures { result ≡ list_all (may_write_span cells.now) (exit_spans reply cells.now) }
{
    match exit_span(cells, reply) {
        Some(span) => may_write_span(cells, span),
        None => true,
    }
}

// Whether the reply needs a block that is too large, and the call may not fail.
fn lacks_block(cells: &Cells, reply: Reply) -> bool
    ensures { result ≡ lacks_block reply cells.now }
{
    match reply {
        Reply::Block { size, may_fail, .. } => {
            !may_fail && block_size(cells, size) > LARGEST_BLOCK
        }
        _ => false,
    }
}

/// The first fault of a call.
pub fn fault_of(cells: &Cells, stub: &Stub) -> Option<FaultKind>
    ensures { result ≡ fault_of stub.now cells.now }
{
    if !has_frame(cells, stub) {
        return Some(FaultKind::NoStack);
    }
    if !may_write_spans(cells, stub) || !may_write_exit(cells, stub.reply) {
        return Some(FaultKind::Write);
    }
    if lacks_block(cells, stub.reply) {
        return Some(FaultKind::NoBlock);
    }
    None
}

fn may_fail(reply: Reply) -> bool
    ensures { result ≡ may_fail reply }
{
    match reply {
        Reply::Block { may_fail, .. } => may_fail,
        _ => false,
    }
}

fn is_zeroed(reply: Reply) -> bool
    ensures { result ≡ is_zeroed reply }
{
    match reply {
        Reply::Block { zeroed, .. } => zeroed,
        _ => false,
    }
}

// Whether a block may lie at these addresses.
#[tactic(auto, using(crate::proofs::Apart::block_zeros))]
fn may_lie(cells: &Cells, span: Span) -> bool
    requires { 0 < span.size }
    ensures { result ≡ may_lie cells.now (fresh_block span.low span.size) }
{
    let low = u64::from(span.low);
    let end = low + u64::from(span.size);
    span.size <= LARGEST_BLOCK
        && USER_LOW <= span.low
        && end <= u64::from(USER_END)
        && cells.is_clear(low, end)
}

fn is_allowed(cells: &Cells, block: Option<Span>) -> bool
    requires { IfSome block (λ s. 0 < s.size) }
    ensures { result ≡ is_allowed cells.now (option_map (λ s. fresh_block s.low s.size) block) }
{
    match block {
        Some(span) => may_lie(cells, span),
        None => true,
    }
}

fn is_in_exit(cells: &Cells, reply: Reply, a: u64) -> bool
    ensures { result ≡ list_any (is_in_span a) (exit_spans reply cells.now) }
{
    match exit_span(cells, reply) {
        Some(span) => span.has(a),
        None => false,
    }
}

fn is_in_spans(cells: &Cells, stub: &Stub, a: u64) -> bool
    ensures { result ≡ list_any (is_in_span a) (spans_of stub.now cells.now) }
{
    is_in_one(cells, stub, a)
}

fn is_in_one(cells: &Cells, stub: &Stub, a: u64) -> bool
    ensures { result ≡ list_any (λ w. is_in_span a (span_of cells.now w)) stub.now.writes.items }
{
    stub.writes
        .as_slice()
        .iter()
        .any(|write| span_of(cells, *write).has(a))
}

// Whether a byte becomes any byte.
fn is_freed(cells: &Cells, stub: &Stub, a: u64) -> bool
    ensures { result ≡ is_freed stub.now cells.now a }
{
    let end = stack_pointer(cells) + frame_size(stub);
    !is_in_exit(cells, stub.reply, a)
        && (is_in_spans(cells, stub, a) || (cells.stack_has(a) && a < end))
}

// Whether a block may have a byte at an address.
#[tactic(auto, using(crate::proofs::Apart::block_zeros))]
fn may_hold(zeroed: bool, block: Option<Span>, a: u64, b: u8) -> bool
    ensures { result ≡ may_hold zeroed (option_map (λ s. fresh_block s.low s.size) block) (a, b) }
{
    match block {
        Some(span) => span.has(a) && (!zeroed || b == 0),
        None => false,
    }
}

fn may_fill(cells: &Cells, stub: &Stub, choice: &Choice, a: u64, b: u8) -> bool
    ensures { result ≡ may_fill stub.now choice.now cells.now (a, b) }
{
    is_freed(cells, stub, a)
        || may_hold(
            is_zeroed(stub.reply),
            block_span(cells, stub.reply, choice),
            a,
            b,
        )
}

fn may_fill_each(cells: &Cells, stub: &Stub, choice: &Choice, fill: &Fill) -> bool
    ensures { result ≡ list_all (may_fill stub.now choice.now cells.now) (enumerate_from fill.now.at fill.now.bytes) }
{
    for i in 0..fill.bytes.len() {
        let at = u64::from(fill.at) + i as u64;
        if !may_fill(cells, stub, choice, at, fill.bytes.as_slice()[i]) {
            return false;
        }
    }
    true
}

fn may_fill_all(cells: &Cells, stub: &Stub, choice: &Choice) -> bool
    ensures { result ≡ list_all (may_fill stub.now choice.now cells.now) (filled_in choice.now) }
{
    may_fill_one_by_one(cells, stub, choice)
}

fn may_fill_one_by_one(cells: &Cells, stub: &Stub, choice: &Choice) -> bool
    ensures { result ≡ list_all (λ f. list_all (may_fill stub.now choice.now cells.now) (enumerate_from f.at f.bytes)) choice.now.fill }
{
    choice
        .fill
        .as_slice()
        .iter()
        .all(|fill| may_fill_each(cells, stub, choice, fill))
}

/// What a choice names first that the call does not leave open.
pub fn bad_of(cells: &Cells, stub: &Stub, choice: &Choice) -> Option<BadKind>
    ensures { result ≡ bad_of stub.now choice.now cells.now }
{
    if choice.fails && !may_fail(stub.reply) {
        return Some(BadKind::Fails);
    }
    if !is_allowed(cells, block_span(cells, stub.reply, choice)) {
        return Some(BadKind::Base);
    }
    if !may_fill_all(cells, stub, choice) {
        return Some(BadKind::Fill);
    }
    None
}
