//! Explanations of a stream's fault.

ghost use Rattle.std.specs.Prelude.{◌≤◌, length};

use crate::notes::{NOTE_ROOM, Note, put};
use crate::tails::Kept;
use fast_stream::FaultCode;
use std::fmt::Write;

/// Writes the sentence of a code, or that the stream is truncated.
fn tell_code(code: Option<FaultCode>, note: &mut Note) {
    let _ = match code {
        Some(code) => writeln!(note, "  {code}").is_ok(),
        None => put(note, &["  the stream ends inside a message\n"]),
    };
}

/// Explains the fault of a stream after `consumed` bytes: the sentence of the code, the field of the message, the bytes there, and in the
/// first message a hint. Without a code, the stream ends inside a message, and there is no hint.
pub fn explain_stream<S>(code: Option<FaultCode>, consumed: u64, reader: &Kept<'_, S>) -> Note
    ensures { length result.bytes ≤ NOTE_ROOM }
{
    let mut note = Note::new();
    tell_code(code, &mut note);
    reader.tell_place(code, &mut note);
    reader.tell_bytes(consumed, &mut note);
    if code.is_some() {
        reader.tell_hint(&mut note);
    }
    prove!(note.len() <= NOTE_ROOM);
    note
}
