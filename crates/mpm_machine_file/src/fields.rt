ghost use Rattle.std.specs.Prelude.{◌≡◌, ◌≤◌, map, option_map, bytes_eq};
ghost use Rattle.std.specs.List.{list_any};
ghost use Rattle.toml.specs.Data.{get_member};
ghost use Rattle.toml.specs.View.{view, table_view};
ghost use Rattle.mpm_machine_file.specs.Reading.{ReadsValue, ReadsNumber};
ghost use Rattle.mpm_machine_file.specs.Fields as field;

use crate::error::MachineError;
use crate::text::Text;
use std::alloc::Global;
use toml::{Table, Value};

/// The value at a key.
pub fn value_at<'a>(table: &'a Table, key: &str) -> Option<&'a Value>
    ensures { option_map (λ v. view v.now) result ≡ get_member key.now (table_view table.now) }
{
    table.get(key)
}

/// Whether a table has no keys but these.
pub fn has_only(table: &Table, known: &[&str]) -> bool
    ensures { result ≡ field.only_keys (map (λ k. k.now) known.now) (table_view table.now) }
{
    for key in table.keys() {
        if !is_among(key.as_str(), known) {
            return false;
        }
    }
    true
}

/// Whether a text is one of some.
fn is_among(text: &str, some: &[&str]) -> bool
    ensures { result ≡ list_any (λ one. bytes_eq one.now text.now) some.now }
{
    some.contains(&text)
}

/// A whole number between two limits.
fn number(value: &Value, least: u32, greatest: u32) -> Result<u32, MachineError>
    ensures { ReadsNumber (field.number_of least greatest (view value.now)) greatest result }
{
    match value.as_integer() {
        Some(number) if i64::from(least) <= number && number <= i64::from(greatest) => {
            Ok(number as u32)
        }
        _ => Err(MachineError::Fault),
    }
}

/// A text that isn't empty.
fn text(alloc: Global, value: &Value) -> Result<Text, MachineError>
    ensures { ReadsValue result (field.text_of (view value.now)) }
{
    match value.as_str() {
        Some(text) if !text.is_empty() => Ok(Text::of(String::from_str(alloc, text)?)),
        _ => Err(MachineError::Fault),
    }
}

/// The number at a key that must be there.
#[tactic(auto, unfolding(crate::specs::Fields::number_at))]
pub fn number_at(table: &Table, key: &str, least: u32, greatest: u32) -> Result<u32, MachineError>
    ensures { ReadsNumber (field.number_at key.now least greatest (table_view table.now)) greatest result }
{
    match value_at(table, key) {
        Some(value) => number(value, least, greatest),
        None => Err(MachineError::Fault),
    }
}

/// The number at a key, and another, no greater than the limit, where the key is missing.
#[tactic(auto, unfolding(crate::specs::Fields::number_or))]
pub fn number_or(
    table: &Table,
    key: &str,
    missing: u32,
    least: u32,
    greatest: u32,
) -> Result<u32, MachineError>
    requires { missing ≤ greatest }
    ensures { ReadsNumber (field.number_or key.now missing least greatest (table_view table.now)) greatest result }
{
    match value_at(table, key) {
        Some(value) => number(value, least, greatest),
        None => Ok(missing),
    }
}

/// The text at a key that must be there.
#[tactic(auto, unfolding(crate::specs::Fields::text_at))]
pub fn text_at(alloc: Global, table: &Table, key: &str) -> Result<Text, MachineError>
    ensures { ReadsValue result (field.text_at key.now (table_view table.now)) }
{
    match value_at(table, key) {
        Some(value) => text(alloc, value),
        None => Err(MachineError::Fault),
    }
}

/// The text at a key, where the key is there.
#[tactic(auto, unfolding(crate::specs::Fields::text_if))]
pub fn text_if(alloc: Global, table: &Table, key: &str) -> Result<Option<Text>, MachineError>
    ensures { ReadsValue result (field.text_if key.now (table_view table.now)) }
{
    match value_at(table, key) {
        Some(value) => Ok(Some(text(alloc, value)?)),
        None => Ok(None),
    }
}
