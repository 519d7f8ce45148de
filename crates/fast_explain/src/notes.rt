//! Errors in template files, as an explanation describes them.

pub use fast_notes::{NOTE_ROOM, Note, put, put_number, put_path, put_quoted};
use std::fmt::Write;
use toml::Value;

/// The content of a template file at a position.
#[derive(Clone, Copy)]
pub(crate) enum Found<'a> {
    /// Nothing.
    Nothing,
    /// An array without items.
    Empty,
    /// A key that is not valid there.
    Key,
    /// A value of the file.
    Of(&'a Value),
}

/// The valid content at a position.
#[derive(Clone, Copy)]
pub(crate) enum Right {
    /// One of these words.
    OneOf(&'static [&'static str]),
    /// A thing that this phrase describes.
    Said(&'static str),
    /// No value, as this phrase says.
    NoValue(&'static str),
}

/// The part of a field that is at fault.
#[derive(Clone, Copy)]
pub(crate) enum Part {
    /// The field itself.
    Whole,
    Length,
    Exponent,
    Mantissa,
}

impl Part {
    /// Returns the key of a part.
    pub(crate) fn key(self) -> &'static str {
        match self {
            Part::Whole => "",
            Part::Length => "length",
            Part::Exponent => "exponent",
            Part::Mantissa => "mantissa",
        }
    }
}

/// An error of form in a table: its part, its key, the content there and the valid content.
#[derive(Clone, Copy)]
pub(crate) struct Misfit<'a> {
    /// The part of the field that is at fault.
    pub(crate) part: Part,
    /// The key; `None` for the value itself.
    pub(crate) key: Option<&'a str>,
    /// The content there.
    pub(crate) found: Found<'a>,
    /// The valid content.
    pub(crate) right: Right,
}

/// Appends a string or a number; of any other value, its type. Returns whether it had room.
fn put_value(note: &mut Note, value: &Value) -> bool {
    if let Some(text) = value.as_str() {
        return put_quoted(note, text);
    }
    match value.as_integer() {
        Some(number) => write!(note, "{number}").is_ok(),
        None => put(note, &[value.type_str()]),
    }
}

/// Appends the content at a position. Returns whether it had room.
pub(crate) fn put_found(note: &mut Note, found: Found<'_>) -> bool {
    match found {
        Found::Nothing => put(note, &["missing"]),
        Found::Empty => put(note, &["empty"]),
        Found::Key => put(note, &["no such key"]),
        Found::Of(value) => put_value(note, value),
    }
}

/// Appends the words of which one would be valid. Returns whether they had room.
fn put_words(note: &mut Note, words: &[&str]) -> bool {
    if !put(note, &["expected one of"]) {
        return false;
    }
    let mut before = " ";
    for word in words {
        if !put(note, &[before, *word]) {
            return false;
        }
        before = ", ";
    }
    true
}

/// Appends the valid content. Returns whether it had room.
fn put_right(note: &mut Note, right: Right) -> bool {
    match right {
        Right::Said(words) => put(note, &["expected ", words]),
        Right::OneOf(words) => put_words(note, words),
        Right::NoValue(words) => put(note, &[words]),
    }
}

/// Writes a line with the content at a position and the valid content.
pub(crate) fn tell_right(note: &mut Note, found: Found<'_>, right: Right) {
    let _ = put(note, &["  "])
        && put_found(note, found)
        && put(note, &[": "])
        && put_right(note, right)
        && put(note, &["\n"]);
}

/// Ends the line of a position with the keys of an error.
fn tell_keys(note: &mut Note, part: Part, key: Option<&str>) {
    let name = part.key();
    match key {
        Some(key) => {
            let begun = match part {
                Part::Whole => put(note, &[", key "]),
                _ => put(note, &[", key \"", name, "\", key "]),
            };
            let _ = begun && put_quoted(note, key) && put(note, &["\n"]);
        }
        None => {
            let _ = match part {
                Part::Whole => put(note, &["\n"]),
                _ => put(note, &[", key \"", name, "\"\n"]),
            };
        }
    }
}

/// Ends the line of a position with the keys of an error, and writes what is wrong there in the next line.
pub(crate) fn tell(note: &mut Note, misfit: &Misfit<'_>) {
    tell_keys(note, misfit.part, misfit.key);
    tell_right(note, misfit.found, misfit.right);
}
