//! Files that are not an array of templates, and positions in a file.

use crate::keys::{unknown_key, value_at};
use crate::notes::{Found, Note, Right, put, put_number, put_quoted, tell_right};
use toml::{Table, Value};

/// The only key of a template file.
static KEYS: [&str; 1] = ["template"];

const TABLES: Right = Right::Said("an array of tables, each begun by [[template]]");

/// Writes the line and the column of the end of `before`, both from 1. A column counts characters.
pub(crate) fn tell_place(note: &mut Note, before: &[u8]) {
    let mut line: usize = 1;
    let mut column: usize = 1;
    for byte in before {
        if *byte == b'\n' {
            line = line.saturating_add(1);
            column = 1;
        } else if *byte & 0xC0 != 0x80 {
            column = column.saturating_add(1);
        }
    }
    let _ = put(note, &["  line "])
        && put_number(note, line as u64)
        && put(note, &[", column "])
        && put_number(note, column as u64)
        && put(note, &["\n"]);
}

/// Writes what a document without an array of templates has in its place.
pub(crate) fn tell_document(note: &mut Note, document: &Table) {
    if let Some(key) = unknown_key(document, &KEYS) {
        return tell_key(note, key, Found::Key, Right::OneOf(&KEYS));
    }
    match value_at(document, "template") {
        Some(value) => tell_value(note, value),
        None => tell_key(note, "template", Found::Nothing, TABLES),
    }
}

/// Writes what is wrong with a value that should be the array of templates.
fn tell_value(note: &mut Note, value: &Value) {
    match value.as_array() {
        Some(items) => tell_items(note, items.as_slice()),
        None => tell_key(note, "template", Found::Of(value), TABLES),
    }
}

/// Writes the first item of the array that is not a template.
fn tell_items(note: &mut Note, items: &[Value]) {
    let mut number: u64 = 0;
    for item in items {
        if !item.is_table() {
            let _ = put(note, &["  template "]) && put_number(note, number) && put(note, &["\n"]);
            return tell_right(note, Found::Of(item), Right::Said("a table"));
        }
        number = number.saturating_add(1);
    }
    tell_key(note, "template", Found::Empty, TABLES)
}

/// Writes what is wrong at a key of a document.
fn tell_key(note: &mut Note, key: &str, found: Found<'_>, right: Right) {
    let _ = put(note, &["  key "]) && put_quoted(note, key) && put(note, &["\n"]);
    tell_right(note, found, right);
}
