//! Access to the keys of a table of a template file.

use toml::{Table, Value};

/// Returns the value at a key.
pub(crate) fn value_at<'a>(table: &'a Table, key: &str) -> Option<&'a Value> {
    table.get(key)
}

/// Returns whether a table has a key.
pub(crate) fn has_key(table: &Table, key: &str) -> bool {
    value_at(table, key).is_some()
}

/// Returns the value at a key of a value that is a table.
pub(crate) fn entry_of<'a>(value: &'a Value, key: &str) -> Option<&'a Value> {
    value_at(value.as_table()?, key)
}

/// Returns the table at a key, if there is one.
pub(crate) fn table_at<'a>(table: &'a Table, key: &str) -> Option<&'a Table> {
    value_at(table, key)?.as_table()
}

/// Returns the string at a key, if there is one.
pub(crate) fn text_of<'a>(table: &'a Table, key: &str) -> Option<&'a str> {
    value_at(table, key)?.as_str()
}

/// Returns whether the value at a key is true.
pub(crate) fn has_flag(table: &Table, key: &str) -> bool {
    match value_at(table, key) {
        Some(value) => matches!(value.as_bool(), Some(true)),
        None => false,
    }
}

/// Returns the items of the array at a key, none if there is no array.
pub(crate) fn items_of<'a>(value: &'a Value, key: &str) -> &'a [Value] {
    let Some(value) = entry_of(value, key) else {
        return &[];
    };
    match value.as_array() {
        Some(items) => items.as_slice(),
        None => &[],
    }
}

/// Returns the name that a table has.
pub(crate) fn name_of(value: &Value) -> Option<&str> {
    text_of(value.as_table()?, "name")
}

/// Returns the name of the template that a field refers to, if it is a reference.
pub(crate) fn target_of(field: &Value) -> Option<&str> {
    let table = field.as_table()?;
    match text_of(table, "kind") {
        Some("ref") => text_of(table, "name"),
        _ => None,
    }
}

/// Returns whether a field is a group or a sequence.
pub(crate) fn is_segment(field: &Value) -> bool {
    let Some(table) = field.as_table() else {
        return false;
    };
    matches!(text_of(table, "kind"), Some("group" | "sequence"))
}

/// Returns whether a word is one of these.
pub(crate) fn is_one_of(words: &[&str], word: &str) -> bool {
    for known in words {
        if *known == word {
            return true;
        }
    }
    false
}

/// Returns the first key of a table that is not one of these.
pub(crate) fn unknown_key<'a>(table: &'a Table, known: &[&str]) -> Option<&'a str> {
    for key in table.keys() {
        if !is_one_of(known, key.as_str()) {
            return Some(key.as_str());
        }
    }
    None
}
