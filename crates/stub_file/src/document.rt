ghost use Rattle.std.specs.Prelude.{◌≡◌, map, option_map, option_copied};
ghost use Rattle.stub_file.specs.Document.{items_at, items_of, natural_at, natural_of, text_at, truth_at, value_at};
ghost use Rattle.toml.specs.View.{table_view, view};

use crate::keys::Key;
use toml::{Table, Value};

/// The value at a key of a table.
pub fn value_at(table: &Table, key: Key) -> Option<&Value>
    ensures { option_map (λ v. view v.now) result ≡ value_at key (table_view table.now) }
{
    table.get(key.name())
}

/// The number, of an integer that is not negative.
pub fn natural_of(value: &Value) -> Option<u64>
    ensures { result ≡ natural_of (view value.now) }
{
    match value.as_integer() {
        Some(number) if number >= 0 => Some(number as u64),
        _ => None,
    }
}

/// The items of an array, and none of any other value.
pub fn items_of(value: &Value) -> &[Value]
    ensures { map view result.now ≡ items_of (view value.now) }
{
    match value.as_array() {
        Some(items) => items.as_slice(),
        None => &[],
    }
}

pub fn natural_at(table: &Table, key: Key) -> Option<u64>
    ensures { result ≡ natural_at key (table_view table.now) }
{
    match value_at(table, key) {
        Some(value) => natural_of(value),
        None => None,
    }
}

pub fn text_at(table: &Table, key: Key) -> Option<&str>
    ensures { option_copied result ≡ text_at key (table_view table.now) }
{
    match value_at(table, key) {
        Some(value) => value.as_str(),
        None => None,
    }
}

pub fn truth_at(table: &Table, key: Key) -> Option<bool>
    ensures { result ≡ truth_at key (table_view table.now) }
{
    match value_at(table, key) {
        Some(value) => value.as_bool(),
        None => None,
    }
}

pub fn items_at(table: &Table, key: Key) -> &[Value]
    ensures { map view result.now ≡ items_at key (table_view table.now) }
{
    match value_at(table, key) {
        Some(value) => items_of(value),
        None => &[],
    }
}
