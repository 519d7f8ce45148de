//! The operator that the keys of a table write.

ghost use Rattle.std.specs.Prelude.{◌≡◌, codes, option_map, Some, None, Err, IfOk, string_bytes};
ghost use Rattle.toml.specs.Data.{get_member};
ghost use Rattle.toml.specs.View.{table_view};
ghost use Rattle.fast_notation.specs.device.Reading.{operator_named, operator_of, dictionary_or_none, takes, written_of, operator_keys, part_of};
ghost use Rattle.fast_notation.specs.device.WrittenSets.{operator_data};
ghost use Rattle.fast_tree.specs.meaning.AsWritten.{plain};

use crate::keys::{Unread, has_only, is_dictionary, is_name_or_none, string_at, text_at, value_at};
use crate::written::WrittenOperator;
use fast_tree::Operator;
use std::alloc::Global;
use toml::Table;

/// Returns the operator with this name in a template file.
pub fn operator_named(name: &str) -> Option<Operator>
    ensures { result ≡ operator_named name.now }
{
    match name {
        "none" => Some(Operator::None),
        "constant" => Some(Operator::Constant),
        "default" => Some(Operator::Default),
        "copy" => Some(Operator::Copy),
        "increment" => Some(Operator::Increment),
        "delta" => Some(Operator::Delta),
        "tail" => Some(Operator::Tail),
        _ => None,
    }
}

/// Returns the operator of a table, which is none if nothing is written.
fn operator_at(table: &Table) -> Result<Operator, Unread>
    ensures operator { IfOk result (λ o. operator_of (get_member (codes "op") (table_view table.now)) ≡ Some o) }
    ensures shape { result ≡ Err Unread.Shape → operator_of (get_member (codes "op") (table_view table.now)) ≡ None }
{
    let Some(name) = text_at(table, "op")? else {
        return Ok(Operator::None);
    };
    match operator_named(name) {
        Some(operator) => Ok(operator),
        None => Err(Unread::Shape),
    }
}

/// Returns whether the string names a dictionary, if there is one.
fn is_dictionary_or_none(text: Option<&String>) -> bool
    ensures { result ≡ dictionary_or_none (option_map (λ s. string_bytes s.now) text.entry) }
{
    match text {
        Some(name) => is_dictionary(name.as_str()),
        None => true,
    }
}

/// Returns whether the operator allows the keys that are written beside it.
fn is_in_use(written: &WrittenOperator) -> bool
    ensures { result ≡ takes written.now.operator (operator_data written.now) }
{
    match written.operator {
        Operator::None => written.value.is_none()
            && written.key.is_none()
            && written.dictionary.is_none(),
        Operator::Constant | Operator::Default => written.key.is_none()
            && written.dictionary.is_none(),
        _ => is_name_or_none(written.key.as_ref())
            && is_dictionary_or_none(written.dictionary.as_ref()),
    }
}

/// Reads the operator that the four keys of a table write.
pub(crate) fn operator_in(alloc: Global, table: &Table) -> Result<WrittenOperator, Unread>
    ensures written { IfOk result (λ w. written_of (table_view table.now) ≡ Some (operator_data w)) }
    ensures shape { result ≡ Err Unread.Shape → written_of (table_view table.now) ≡ None }
{
    let operator = operator_at(table)?;
    let value = string_at(alloc, table, "value")?;
    let key = string_at(alloc, table, "key")?;
    let dictionary = string_at(alloc, table, "dictionary")?;
    let written = WrittenOperator {
        operator,
        value,
        key,
        dictionary,
    };
    if !is_in_use(&written) {
        return Err(Unread::Shape);
    }
    Ok(written)
}

/// Reads the operator of the part at a key, which has none if nothing is written.
pub(crate) fn part_at(alloc: Global, table: &Table, key: &str) -> Result<WrittenOperator, Unread>
    ensures part { IfOk result (λ w. part_of operator_keys (get_member key.now (table_view table.now))
        ≡ Some (operator_data w)) }
    ensures shape { result ≡ Err Unread.Shape
        → part_of operator_keys (get_member key.now (table_view table.now)) ≡ None }
{
    let Some(value) = value_at(table, key) else {
        return Ok(plain());
    };
    let Some(part) = value.as_table() else {
        return Err(Unread::Shape);
    };
    if !has_only(part, &["op", "value", "key", "dictionary"]) {
        return Err(Unread::Shape);
    }
    operator_in(alloc, part)
}

/// Returns no operator.
pub(crate) fn plain() -> WrittenOperator
    ensures { operator_data result ≡ plain }
{
    WrittenOperator {
        operator: Operator::None,
        value: None,
        key: None,
        dictionary: None,
    }
}
