//! The values at the keys of a table of a template file.

ghost use Rattle.std.specs.Prelude.{◌≡◌, map, option_map, Some, None, Err, IfOk, IfErr, string_bytes};
ghost use Rattle.toml.specs.Data.{get_member};
ghost use Rattle.toml.specs.View.{view, items_view, table_view};
ghost use Rattle.fast_notation.specs.device.Reading.{is_one_of, has_only, text_of, flag_of, name_of, items_of, name_or_none, is_dictionary};

use crate::names::is_name;
use std::alloc::Global;
use toml::{Table, Value};

/// The reason why a part of a template file was not read.
#[derive(Clone, Copy, PartialEq, Eq)]
pub(crate) enum Unread {
    /// It is not of the stated shape.
    Shape,
    /// An allocation failed.
    Memory,
}

/// Returns the value at a key.
pub(crate) fn value_at<'a>(table: &'a Table, key: &str) -> Option<&'a Value>
    ensures { option_map (λ v. view v.now) result ≡ get_member key.now (table_view table.now) }
{
    table.get(key)
}

/// Returns whether the key is one of these.
fn is_one_of(keys: &[&str], key: &str) -> bool
    ensures { result ≡ is_one_of (map (λ k. k.now) keys.now) key.now }
{
    for known in keys {
        if *known == key {
            return true;
        }
    }
    false
}

/// Returns whether the table has no key but these.
pub(crate) fn has_only(table: &Table, keys: &[&str]) -> bool
    ensures { result ≡ has_only (map (λ k. k.now) keys.now) (table_view table.now) }
{
    for key in table.keys() {
        if !is_one_of(keys, key.as_str()) {
            return false;
        }
    }
    true
}

/// Returns the string at a key, if there is a value.
pub(crate) fn text_at<'a>(table: &'a Table, key: &str) -> Result<Option<&'a str>, Unread>
    ensures text { IfOk result (λ o. text_of (get_member key.now (table_view table.now))
        ≡ Some (option_map (λ s. s.now) o)) }
    ensures shape { result ≡ Err Unread.Shape → text_of (get_member key.now (table_view table.now)) ≡ None }
{
    let Some(value) = value_at(table, key) else {
        return Ok(None);
    };
    match value.as_str() {
        Some(text) => Ok(Some(text)),
        None => Err(Unread::Shape),
    }
}

/// Returns the boolean at a key, or `false` if there is none.
pub(crate) fn flag_at(table: &Table, key: &str) -> Result<bool, Unread>
    ensures flag { IfOk result (λ b. flag_of (get_member key.now (table_view table.now)) ≡ Some b) }
    ensures shape { result ≡ Err Unread.Shape → flag_of (get_member key.now (table_view table.now)) ≡ None }
{
    let Some(value) = value_at(table, key) else {
        return Ok(false);
    };
    match value.as_bool() {
        Some(flag) => Ok(flag),
        None => Err(Unread::Shape),
    }
}

/// Returns the items of the array at a key, if there is a value.
pub(crate) fn items_at<'a>(table: &'a Table, key: &str) -> Result<&'a [Value], Unread>
    ensures items { IfOk result (λ xs. items_of (get_member key.now (table_view table.now))
        ≡ Some (items_view xs.now)) }
    ensures shape { result ≡ Err Unread.Shape → items_of (get_member key.now (table_view table.now)) ≡ None }
{
    let Some(value) = value_at(table, key) else {
        return Ok(&[]);
    };
    match value.as_array() {
        Some(items) => Ok(items.as_slice()),
        None => Err(Unread::Shape),
    }
}

/// Returns the name at a key.
pub(crate) fn name_at<'a>(table: &'a Table, key: &str) -> Result<&'a str, Unread>
    ensures name { IfOk result (λ s. name_of (get_member key.now (table_view table.now)) ≡ Some s.now) }
    ensures shape { result ≡ Err Unread.Shape → name_of (get_member key.now (table_view table.now)) ≡ None }
{
    let Some(name) = text_at(table, key)? else {
        return Err(Unread::Shape);
    };
    if !is_name(name) {
        return Err(Unread::Shape);
    }
    Ok(name)
}

/// Copies the string at a key, if there is a value.
pub(crate) fn string_at(alloc: Global, table: &Table, key: &str) -> Result<Option<String>, Unread>
    ensures text { IfOk result (λ o. text_of (get_member key.now (table_view table.now))
        ≡ Some (option_map string_bytes o)) }
    ensures shape { result ≡ Err Unread.Shape → text_of (get_member key.now (table_view table.now)) ≡ None }
{
    let Some(text) = text_at(table, key)? else {
        return Ok(None);
    };
    match String::from_str(alloc, text) {
        Ok(text) => Ok(Some(text)),
        Err(_) => Err(Unread::Memory),
    }
}

/// Returns whether the string is a name, if there is one.
pub(crate) fn is_name_or_none(text: Option<&String>) -> bool
    ensures { result ≡ name_or_none (option_map (λ s. string_bytes s.now) text.entry) }
{
    match text {
        Some(name) => is_name(name.as_str()),
        None => true,
    }
}

/// Returns whether the string names a dictionary.
pub(crate) fn is_dictionary(name: &str) -> bool
    ensures { result ≡ is_dictionary name.now }
{
    is_name(name) && name != "type"
}

/// Copies a string.
pub(crate) fn owned(alloc: Global, text: &str) -> Result<String, Unread>
    ensures text { IfOk result (λ s. string_bytes s ≡ text.now) }
    ensures memory { IfErr result (λ e. e ≡ Unread.Memory) }
{
    match String::from_str(alloc, text) {
        Ok(text) => Ok(text),
        Err(_) => Err(Unread::Memory),
    }
}
