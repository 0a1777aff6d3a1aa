ghost use Rattle.std.specs.Prelude.{◌≡◌, not, string_bytes};
ghost use Rattle.std.specs.BTreeMap.{keys};
ghost use Rattle.std.specs.List.{list_any};
ghost use Rattle.stub_file.specs.Faults.{args_of, choices_made, has_both, has_choices, has_other_reply, has_rule, has_unknown_key, has_wrong_kind, has_wrong_type, is_missing, is_out, is_out_of_range, is_wrong, lacks_required, reply_of, stub_has, table_fault, table_has, top_fault, write_has};
ghost use Rattle.toml.specs.View.{table_view, view};

use crate::document::{items_at, natural_at, text_at, value_at};
use crate::fault::{FAULTS, StubFault};
use crate::keys::{Key, Rule, STUB_KEYS, TOP_KEYS, WRITE_KEYS};
use crate::rules::{has_type, is_in_range};
use toml::{Table, Value};

fn has_rule(rules: &[Rule], name: &str) -> bool
    ensures { result ≡ has_rule rules.now name.now }
{
    rules.iter().any(|rule| rule.key.name() == name)
}

fn has_name_without_rule(rules: &[Rule], table: &Table) -> bool
    ensures { result ≡ list_any (λ name. not (has_rule rules.now (string_bytes name))) (keys table.now) }
{
    table.keys().any(|name| !has_rule(rules, name.as_str()))
}

fn has_unknown_key(rules: &[Rule], table: &Table) -> bool
    ensures { result ≡ has_unknown_key rules.now (table_view table.now) }
{
    has_name_without_rule(rules, table)
}

fn is_wrong(rule: &Rule, table: &Table) -> bool
    ensures { result ≡ is_wrong (table_view table.now) rule.now }
{
    match value_at(table, rule.key) {
        Some(value) => !has_type(rule.kind, value),
        None => false,
    }
}

#[tactic(auto, unfolding(crate::specs::Faults::has_wrong_type))]
fn has_wrong_type(rules: &[Rule], table: &Table) -> bool
    ensures { result ≡ has_wrong_type rules.now (table_view table.now) }
{
    rules.iter().any(|rule| is_wrong(rule, table))
}

fn is_missing(rule: &Rule, reply: &str, table: &Table) -> bool
    ensures { result ≡ is_missing reply.now (table_view table.now) rule.now }
{
    rule.is_required() && rule.belongs(reply) && !rule.is_present(table)
}

#[tactic(auto, unfolding(crate::specs::Faults::lacks_required))]
fn lacks_required(rules: &[Rule], reply: &str, table: &Table) -> bool
    ensures { result ≡ lacks_required rules.now reply.now (table_view table.now) }
{
    rules.iter().any(|rule| is_missing(rule, reply, table))
}

#[tactic(auto, unfolding(crate::specs::Faults::has_choices))]
fn has_choices(rules: &[Rule], reply: &str) -> bool
    ensures { result ≡ has_choices rules.now reply.now }
{
    rules
        .iter()
        .any(|rule| rule.is_choice() && rule.belongs(reply))
}

#[tactic(auto, unfolding(crate::specs::Faults::choices_made))]
fn choices_made(rules: &[Rule], table: &Table) -> usize
    ensures { result ≡ choices_made rules.now (table_view table.now) }
{
    rules
        .iter()
        .filter(|rule| rule.is_choice() && rule.is_present(table))
        .count()
}

#[tactic(auto, unfolding(crate::specs::Faults::has_wrong_kind))]
fn has_wrong_kind(rules: &[Rule], reply: &str, table: &Table) -> bool
    ensures { result ≡ has_wrong_kind rules.now reply.now (table_view table.now) }
{
    has_wrong_type(rules, table)
        || lacks_required(rules, reply, table)
        || (has_choices(rules, reply) && choices_made(rules, table) == 0)
}

fn is_out(rule: &Rule, args: u64, table: &Table) -> bool
    ensures { result ≡ is_out args (table_view table.now) rule.now }
{
    match value_at(table, rule.key) {
        Some(value) => !is_in_range(args, rule.kind, value),
        None => false,
    }
}

#[tactic(auto, unfolding(crate::specs::Faults::is_out_of_range))]
fn is_out_of_range(rules: &[Rule], args: u64, table: &Table) -> bool
    ensures { result ≡ is_out_of_range rules.now args (table_view table.now) }
{
    rules.iter().any(|rule| is_out(rule, args, table))
}

#[tactic(auto, unfolding(crate::specs::Faults::has_other_reply))]
fn has_other_reply(rules: &[Rule], reply: &str, table: &Table) -> bool
    ensures { result ≡ has_other_reply rules.now reply.now (table_view table.now) }
{
    rules
        .iter()
        .any(|rule| rule.is_present(table) && !rule.belongs(reply))
}

#[tactic(auto, unfolding(crate::specs::Faults::has_both))]
fn has_both(rules: &[Rule], reply: &str, table: &Table) -> bool
    ensures { result ≡ has_both rules.now reply.now (table_view table.now) }
{
    has_other_reply(rules, reply, table) || 1 < choices_made(rules, table)
}

/// Whether a table has the fault, where its stub has this reply and so many bytes of arguments.
#[tactic(auto, unfolding(crate::specs::Faults::table_has))]
fn table_has(rules: &[Rule], reply: &str, args: u64, fault: StubFault, table: &Table) -> bool
    ensures { result ≡ table_has rules.now reply.now args fault (table_view table.now) }
{
    match fault {
        StubFault::UnknownKey => has_unknown_key(rules, table),
        StubFault::WrongKind => has_wrong_kind(rules, reply, table),
        StubFault::OutOfRange => is_out_of_range(rules, args, table),
        StubFault::Both => has_both(rules, reply, table),
        StubFault::NotToml | StubFault::Memory => false,
    }
}

/// The word of a stub's reply, or no text.
#[tactic(auto, unfolding(crate::specs::Faults::reply_of))]
pub fn reply_of(table: &Table) -> &str
    ensures { result.now ≡ reply_of (table_view table.now) }
{
    match text_at(table, Key::Reply) {
        Some(text) => text,
        None => "",
    }
}

/// The bytes of a stub's arguments.
#[tactic(auto, unfolding(crate::specs::Faults::args_of))]
pub fn args_of(table: &Table) -> u64
    ensures { result ≡ args_of (table_view table.now) }
{
    natural_at(table, Key::Args).unwrap_or(0)
}

#[tactic(auto, unfolding(crate::specs::Faults::write_has))]
fn write_has(args: u64, fault: StubFault, item: &Value) -> bool
    ensures { result ≡ write_has args fault (view item.now) }
{
    match item.as_table() {
        Some(table) => table_has(&WRITE_KEYS, "", args, fault, table),
        None => false,
    }
}

fn some_write_has(items: &[Value], args: u64, fault: StubFault) -> bool
    ensures { result ≡ list_any (λ item. write_has args fault (view item)) items.now }
{
    items.iter().any(|item| write_has(args, fault, item))
}

/// Whether the table of a stub, or one of those in its `writes`, has the fault.
#[tactic(auto, unfolding(crate::specs::Faults::stub_has))]
fn stub_has(fault: StubFault, table: &Table) -> bool
    ensures { result ≡ stub_has fault (table_view table.now) }
{
    let reply = reply_of(table);
    let args = args_of(table);
    table_has(&STUB_KEYS, reply, args, fault, table)
        || some_write_has(items_at(table, Key::Writes), args, fault)
}

/// The first fault of a stub's table.
#[tactic(auto, unfolding(crate::specs::Faults::table_fault))]
pub fn table_fault(table: &Table) -> Option<StubFault>
    ensures { result ≡ table_fault (table_view table.now) }
{
    FAULTS.iter().copied().find(|fault| stub_has(*fault, table))
}

/// The first fault at the top level.
#[tactic(auto, unfolding(crate::specs::Faults::top_fault))]
pub fn top_fault(table: &Table) -> Option<StubFault>
    ensures { result ≡ top_fault (table_view table.now) }
{
    FAULTS
        .iter()
        .copied()
        .find(|fault| table_has(&TOP_KEYS, "", 0, *fault, table))
}
