//! Lines that have not the form of any line.

use crate::heads::{
    element_misfit, ending_misfit, field_misfit, group_misfit, message_misfit, sequence_misfit,
};
use crate::misfits::{Found, Misfit, control_misfit, part, word_end};
use crate::pitfalls::whole_misfit;

/// Returns the error of a line that is not of the form of any line, if it is found. `is_first` says whether it is the first of the file.
pub(crate) fn form_misfit(line: &[u8], is_first: bool) -> Option<Misfit<'_>> {
    if let Some(misfit) = whole_misfit(line, is_first) {
        return Some(misfit);
    }
    let end = word_end(line, 0);
    let word = part(line, 0, end);
    if word == b"field".as_slice() {
        field_misfit(line, end)
    } else if word == b"message".as_slice() {
        message_misfit(line, end)
    } else if word == b"group".as_slice() {
        group_misfit(line, end)
    } else if word == b"sequence".as_slice() {
        sequence_misfit(line, end)
    } else if word == b"end".as_slice() {
        ending_misfit(line, end)
    } else if word == b"element".as_slice() {
        element_misfit(line, end)
    } else {
        control_misfit(line, 0, end).or_else(|| other_word(word))
    }
}

/// Returns the error of a first word that begins no line.
fn other_word(word: &[u8]) -> Option<Misfit<'_>> {
    Some(Misfit {
        at: 0,
        found: Found::Part(word),
        right: "expected message, field, group, sequence, element or end",
    })
}
