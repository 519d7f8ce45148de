//! The buffer of an explanation, and how strings and numbers are appended to it.
#![tactic(auto)]

use arrayvec::ArrayString;
use std::fmt::Write;

/// The greatest length of an explanation in bytes.
pub const NOTE_ROOM: usize = 4096;

/// The lines of an explanation. Whatever has no room is omitted.
pub type Note = ArrayString<NOTE_ROOM>;

/// The greatest number of characters that are quoted of a string.
const QUOTED: usize = 64;

/// The greatest number of characters that are quoted of a path.
const QUOTED_OF_PATH: usize = 512;

/// Appends strings, up to the first that has no room. Returns whether all had room.
pub fn put(note: &mut Note, texts: &[&str]) -> bool {
    for text in texts {
        if note.write_str(text).is_err() {
            return false;
        }
    }
    true
}

/// Appends a number. Returns whether it had room.
pub fn put_number(note: &mut Note, number: u64) -> bool {
    write!(note, "{number}").is_ok()
}

/// Appends a string in double quotes: at most 64 characters, and `?` for control characters. Returns whether it had room.
pub fn put_quoted(note: &mut Note, text: &str) -> bool {
    put_between(note, "\"", text)
}

/// Appends a path as [`put_quoted`] does, but at most 512 characters. Returns whether it had room.
pub fn put_path(note: &mut Note, path: &str) -> bool {
    put_some(note, "\"", path, QUOTED_OF_PATH)
}

/// Appends a string as [`put_quoted`] does, between two marks. Returns whether it had room.
pub fn put_between(note: &mut Note, mark: &'static str, text: &str) -> bool {
    put_some(note, mark, text, QUOTED)
}

/// Appends the first `most` characters of a string between two marks. Returns whether they had room.
fn put_some(note: &mut Note, mark: &'static str, text: &str, most: usize) -> bool {
    let mut count: usize = 0;
    if !put(note, &[mark]) {
        return false;
    }
    for c in text.chars() {
        if count == most {
            return put(note, &[mark, ".."]);
        }
        count = count.saturating_add(1);
        if note
            .write_char(if c.is_control() { '?' } else { c })
            .is_err()
        {
            return false;
        }
    }
    put(note, &[mark])
}
