ghost use Rattle.std.specs.Prelude.{◌≡◌, ◌<◌, ◌≤◌, ◌^◌, None, Some, IsSomeAnd, All, IsTrue, bytes_eq, false, find, length, unwrap_or};
ghost use Rattle.std.specs.List.{AllZip};
ghost use Rattle.stub_file.specs.Document.{natural_at, text_at, truth_at};
ghost use Rattle.stub_file.specs.Faults.{table_fault};
ghost use Rattle.stub_file.specs.Rules.{is_reply};
ghost use Rattle.stub_file.specs.Keys.{word_name};
ghost use Rattle.stub_file.specs.Stated.{HasAmount, HasReply, HasWrite, HasWriteOf, IsAmount, IsBlock, IsReply, IsStubOf, IsWrite, IsWriteOf, has_own_arguments};
ghost use Rattle.toml.specs.View.{table_view, view};

use crate::document::{items_at, natural_at, truth_at};
use crate::faults::reply_of;
use crate::keys::{Key, REPLIES, Word};
use crate::stub::{Amount, Reply, Stub, StubWrite};
use arrayvec::ArrayVec;
use toml::{Table, Value};

fn byte_at(table: &Table, key: Key) -> u8
    requires { unwrap_or (natural_at key (table_view table.now)) 0 < 256 }
    ensures { result ≡ unwrap_or (natural_at key (table_view table.now)) 0 }
{
    natural_at(table, key).unwrap_or(0) as u8
}

fn word_at(table: &Table, key: Key) -> u32
    requires { unwrap_or (natural_at key (table_view table.now)) 0 < 2 ^ 32 }
    ensures { result ≡ unwrap_or (natural_at key (table_view table.now)) 0 }
{
    natural_at(table, key).unwrap_or(0) as u32
}

fn flag_at(table: &Table, key: Key) -> bool
    ensures { unwrap_or (truth_at key (table_view table.now)) false ≡ result }
{
    truth_at(table, key).unwrap_or(false)
}

/// The number at a key, or the argument whose index is at another.
fn amount_at(table: &Table, fixed: Key, index: Key) -> Amount
    requires { HasAmount fixed index (table_view table.now) }
    ensures { IsAmount fixed index (table_view table.now) result }
{
    match natural_at(table, fixed) {
        Some(number) => Amount::Fixed(number as u32),
        None => Amount::Argument(byte_at(table, index)),
    }
}

fn write_at(table: &Table) -> StubWrite
    requires { HasWriteOf (table_view table.now) }
    ensures { IsWriteOf (table_view table.now) result }
{
    StubWrite {
        arg: byte_at(table, Key::Arg),
        length: amount_at(table, Key::Length, Key::LengthArg),
    }
}

fn write_of(item: &Value) -> StubWrite
    requires { HasWrite (view item.now) }
    ensures { IsWrite (view item.now) result }
{
    match item.as_table() {
        Some(table) => write_at(table),
        None => unreachable!(),
    }
}

fn writes_of(items: &[Value]) -> ArrayVec<StubWrite, 4>
    requires few { length items.now ≤ 4 }
    requires writes { All (λ item. HasWrite (view item)) items.now }
    ensures { AllZip (λ item w. IsWrite (view item) w) items.now result.items }
{
    let mut writes = ArrayVec::new();
    for item in items {
        writes.push(write_of(item));
    }
    writes
}

/// The parts of a block.
fn block_at(table: &Table) -> Reply
    requires reply { text_at Key.Reply (table_view table.now) ≡ Some (word_name Word.Block) }
    requires size { HasAmount Key.Size Key.SizeArg (table_view table.now) }
    ensures { IsReply (table_view table.now) result }
{
    Reply::Block {
        size: amount_at(table, Key::Size, Key::SizeArg),
        zeroed: flag_at(table, Key::Zeroed),
        may_fail: flag_at(table, Key::MayFail),
    }
}

fn word_named(text: &str) -> Option<Word>
    ensures { result ≡ find (λ word. bytes_eq (word_name word) text.now) REPLIES }
{
    REPLIES.iter().copied().find(|word| word.name() == text)
}

/// The word of a stub's reply.
fn reply_word(table: &Table) -> Word
    requires { IsSomeAnd (text_at Key.Reply (table_view table.now)) (λ text. IsTrue (is_reply text)) }
    ensures { text_at Key.Reply (table_view table.now) ≡ Some (word_name result) }
{
    match word_named(reply_of(table)) {
        Some(word) => word,
        None => unreachable!(),
    }
}

fn reply_at(table: &Table) -> Reply
    requires { HasReply (table_view table.now) }
    ensures { IsReply (table_view table.now) result }
{
    match reply_word(table) {
        Word::Any => Reply::Anything,
        Word::Number => Reply::Number(word_at(table, Key::Number)),
        Word::Block => block_at(table),
        Word::Never => Reply::Never,
        Word::Enter => Reply::Enter(byte_at(table, Key::EnterArg)),
    }
}

/// The stub that a table states which has no fault.
pub fn stub_of(table: &Table) -> Stub
    requires { table_fault (table_view table.now) ≡ None }
    ensures stated { IsStubOf (table_view table.now) result }
    ensures own { IsTrue (has_own_arguments result) }
{
    Stub {
        args: byte_at(table, Key::Args),
        cleans: byte_at(table, Key::Cleans),
        reply: reply_at(table),
        writes: writes_of(items_at(table, Key::Writes)),
    }
}
