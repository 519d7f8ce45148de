//! Errors at parts of lines.

use fast_notes::{Note, put, put_between, put_number};

/// The content of a part of a line.
#[derive(Clone, Copy)]
pub(crate) enum Found<'a> {
    /// A phrase for it.
    Said(&'static str),
    /// The content itself, which is quoted.
    Part(&'a [u8]),
}

/// An error in a line.
#[derive(Clone, Copy)]
pub(crate) struct Misfit<'a> {
    /// The offset of the part in the line, in bytes.
    pub(crate) at: usize,
    /// The content of the part.
    pub(crate) found: Found<'a>,
    /// The phrase for the valid content.
    pub(crate) right: &'static str,
}

/// Returns the bytes of a line in a range, or none if it has no such range.
pub(crate) fn part(line: &[u8], from: usize, to: usize) -> &[u8] {
    match line.get(from..to) {
        Some(bytes) => bytes,
        None => &[],
    }
}

/// Returns the bytes of a line from an offset on.
pub(crate) fn rest(line: &[u8], from: usize) -> &[u8] {
    part(line, from, line.len())
}

/// Returns the string in bytes that are UTF-8; for all others, an empty one.
pub(crate) fn text_of(bytes: &[u8]) -> &str {
    match str::from_utf8(bytes) {
        Ok(text) => text,
        Err(_) => "",
    }
}

/// Returns the offset after the word at an offset: that of the next blank, or the end of the line.
pub(crate) fn word_end(line: &[u8], from: usize) -> usize {
    match rest(line, from).iter().position(|byte| *byte == b' ') {
        Some(length) => from.saturating_add(length),
        None => line.len(),
    }
}

/// Returns the offset after the character at an offset.
fn char_end(line: &[u8], at: usize) -> usize {
    let after = at.saturating_add(1);
    match rest(line, after)
        .iter()
        .position(|byte| *byte & 0xC0 != 0x80)
    {
        Some(length) => after.saturating_add(length),
        None => line.len(),
    }
}

/// Returns the character at an offset.
pub(crate) fn found_at(line: &[u8], at: usize) -> Found<'_> {
    match line.get(at).copied() {
        None => Found::Said("the end of the line"),
        Some(b' ') => Found::Said("a blank"),
        Some(b'\t') => Found::Said("a tab"),
        Some(b'\r') => Found::Said("a carriage return"),
        Some(0) => Found::Said("a NUL character"),
        Some(byte) if byte < 0x20 || byte == 0x7f => Found::Said("a control character"),
        Some(_) => Found::Part(part(line, at, char_end(line, at))),
    }
}

/// Returns the first control character between two offsets, which is there instead of a blank.
pub(crate) fn control_misfit(line: &[u8], from: usize, to: usize) -> Option<Misfit<'_>> {
    let word = part(line, from, to);
    let k = word.iter().position(|byte| *byte < 0x20 || *byte == 0x7f)?;
    let at = from.saturating_add(k);
    Some(Misfit {
        at,
        found: found_at(line, at),
        right: "expected no control character; words are separated by blanks",
    })
}

/// Begins the line of a position: an offset in the line of this number. Returns whether it had room.
pub(crate) fn put_place(note: &mut Note, number: u64, line: &[u8], at: usize) -> bool {
    let mut column: u64 = 1;
    for byte in part(line, 0, at.min(line.len())) {
        if *byte & 0xC0 != 0x80 {
            column = column.saturating_add(1);
        }
    }
    put(note, &["  line "])
        && put_number(note, number)
        && put(note, &[", column "])
        && put_number(note, column)
        && put(note, &[": "])
}

/// Writes the content of a part, between double quotes or, if it has these, between single ones. Returns whether it had room.
pub(crate) fn put_found(note: &mut Note, found: Found<'_>) -> bool {
    match found {
        Found::Said(phrase) => put(note, &[phrase]),
        Found::Part(bytes) => {
            let mark = if bytes.contains(&b'"') { "'" } else { "\"" };
            put_between(note, mark, text_of(bytes))
        }
    }
}

/// Writes the line of an error, without its end. Returns whether it had room.
pub(crate) fn put_misfit(note: &mut Note, number: u64, line: &[u8], misfit: &Misfit<'_>) -> bool {
    put_place(note, number, line, misfit.at)
        && put_found(note, misfit.found)
        && put(note, &[": ", misfit.right])
}
