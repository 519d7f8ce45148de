//! Tests of whole files of lines, and of truncated ones.

use super::super::expect;
use super::{ALL, count_of, set_of};
use fast_reading::TextFault;

/// The offset after the last LF of each message.
const ENDS: [usize; 4] = [0, 300, 374, 399];

/// Returns the number of messages that end within `length` bytes. The LF after the last may be missing.
fn whole_ones(length: usize) -> Option<usize> {
    for (count, end) in ENDS.into_iter().enumerate() {
        if end == length || length.checked_add(1) == Some(end) {
            return Some(count);
        }
    }
    None
}

/// Returns whether the result is this number of messages, or a fault if there is none.
fn is_right(want: Option<usize>, answer: Result<usize, TextFault>) -> bool {
    match answer {
        Ok(count) => Some(count) == want,
        Err(TextFault::BadLine { .. }) => want.is_none(),
        Err(TextFault::Memory) => false,
    }
}

#[test]
fn a_text_that_is_cut_says_the_messages_before_or_nothing(rt: HostRuntime) {
    let alloc = rt.alloc();
    let set = set_of(&rt, alloc);
    let text = ALL.as_bytes();
    for length in 0..text.len() {
        let answer = count_of(alloc, &set, &text[..length]);
        let is_right = is_right(whole_ones(length), answer);
        expect(&rt, is_right, "a text that is cut", length);
    }
    let whole = count_of(alloc, &set, text);
    expect(&rt, whole == Ok(3), "a whole text", text.len());
}
