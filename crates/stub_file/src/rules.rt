ghost use Rattle.std.specs.Prelude.{◌≡◌, is_some};
ghost use Rattle.std.specs.List.{list_all};
ghost use Rattle.stub_file.specs.Rules.{belongs, has_type, is_among, is_choice, is_in_range, is_present, is_reply, is_required, is_size_of_arguments, items_are_tables};
ghost use Rattle.toml.specs.Data.{as_table};
ghost use Rattle.toml.specs.View.{table_view, view};

use crate::document::{items_of, natural_of, value_at};
use crate::keys::{Kind, Need, Numbers, REPLIES, Rule};
use memory_map::is_alignment;
use toml::{Table, Value};

impl Numbers {
    fn has(self, number: u64) -> bool
        ensures { result ≡ is_among self number }
    {
        u64::from(self.low) <= number && number <= u64::from(self.high)
    }
}

fn is_size_of_arguments(number: u64) -> bool
    ensures { result ≡ is_size_of_arguments number }
{
    number <= 64 && number % 4 == 0
}

/// Whether this is the word of a reply.
pub fn is_reply(text: &str) -> bool
    ensures { result ≡ is_reply text.now }
{
    REPLIES.iter().any(|word| word.name() == text)
}

fn are_all_tables(items: &[Value]) -> bool
    ensures { result ≡ list_all (λ item. is_some (as_table (view item))) items.now }
{
    items.iter().all(|item| item.is_table())
}

fn are_tables(value: &Value) -> bool
    ensures { result ≡ items_are_tables (view value.now) }
{
    value.is_array() && are_all_tables(items_of(value))
}

/// Whether the value has the TOML type of the kind.
pub fn has_type(kind: Kind, value: &Value) -> bool
    ensures { result ≡ has_type kind (view value.now) }
{
    match kind {
        Kind::Number(_) | Kind::Bytes | Kind::Alignment | Kind::Index => value.is_integer(),
        Kind::Reply => value.is_str(),
        Kind::Truth => value.is_bool(),
        Kind::Writes => are_tables(value),
        Kind::Table => value.is_table(),
    }
}

/// Whether the value is in the range of the kind, where the arguments have so many bytes.
pub fn is_in_range(args: u64, kind: Kind, value: &Value) -> bool
    ensures { result ≡ is_in_range args kind (view value.now) }
{
    match kind {
        Kind::Number(numbers) => natural_of(value).is_some_and(|n| numbers.has(n)),
        Kind::Bytes => natural_of(value).is_some_and(is_size_of_arguments),
        Kind::Alignment => natural_of(value).is_some_and(|n| is_alignment(n)),
        Kind::Index => natural_of(value).is_some_and(|n| n < args / 4),
        Kind::Reply => value.as_str().is_some_and(is_reply),
        Kind::Writes => items_of(value).len() <= 4,
        Kind::Truth | Kind::Table => true,
    }
}

impl Rule {
    /// Whether the key is in the table.
    pub fn is_present(&self, table: &Table) -> bool
        ensures { result ≡ is_present (table_view table.now) self.now }
    {
        value_at(table, self.key).is_some()
    }

    /// Whether the key belongs to this reply, or to each.
    pub fn belongs(&self, reply: &str) -> bool
        ensures { result ≡ belongs reply.now self.now }
    {
        match self.reply {
            Some(word) => word.name() == reply,
            None => true,
        }
    }

    pub fn is_required(&self) -> bool
        ensures { result ≡ is_required self.now }
    {
        matches!(self.need, Need::Required)
    }

    pub fn is_choice(&self) -> bool
        ensures { result ≡ is_choice self.now }
    {
        matches!(self.need, Need::Choice)
    }
}
