//! Explanations of lines that `convert` refuses.

ghost use Rattle.std.specs.Prelude.{◌≤◌, length};

use crate::forms::form_misfit;
use crate::misfits::put_misfit;
use crate::nodes::kind_of;
use crate::places::{
    Fault, tell_count, tell_misplaced, tell_missing, tell_passed, tell_unknown, tell_with_node,
};
use crate::values::range_misfit;
use crate::walks::{Lines, Walk};
use fast_lines::forms::{Line, parse_line};
use fast_messages::LineFault;
use fast_notes::{NOTE_ROOM, Note, put};
use fast_template::Templates;
use std::fmt::Write;

/// Writes why a line has not the form of any line.
fn tell_form(note: &mut Note, fault: Fault<'_>) {
    if let Some(misfit) = form_misfit(fault.line, fault.number == 1) {
        let _ = put_misfit(note, fault.number, fault.line, &misfit) && put(note, &["\n"]);
    }
}

/// Writes why the value of a line is none of its field.
fn tell_value(note: &mut Note, walk: &Walk<'_>, fault: Fault<'_>) {
    let Some(Line::Field { node, value, .. }) = parse_line(fault.line) else {
        return;
    };
    let Some(kind) = kind_of(walk.templates, node) else {
        return;
    };
    let at = fault.line.len().saturating_sub(value.len());
    if let Some(misfit) = range_misfit(kind, value, at) {
        tell_with_node(note, walk, fault, &misfit, node);
    }
}

/// Writes why a line has a fault, after a walk over the lines before it.
fn tell_fault(note: &mut Note, walk: &Walk<'_>, fault: Fault<'_>, kind: LineFault) {
    match kind {
        LineFault::Form => {}
        LineFault::UnknownTemplate => tell_unknown(note, walk, fault),
        LineFault::OutOfPlace => tell_misplaced(note, walk, fault),
        LineFault::WrongValue => tell_value(note, walk, fault),
        LineFault::PassedOver => tell_passed(note, walk, fault),
        LineFault::WrongCount => tell_count(note, walk, fault),
        LineFault::Missing => tell_missing(note, walk, fault),
    }
}

/// Writes why the line of a number has a fault.
fn tell_line(note: &mut Note, templates: &Templates, text: &[u8], number: u64, kind: LineFault) {
    let mut walk = Walk::new(templates);
    let mut lines = Lines::new(text);
    let mut is_on_way = true;
    for before in 1..number {
        let Some(line) = lines.next() else {
            return;
        };
        is_on_way = is_on_way && walk.pass(before, line);
    }
    let line = match (lines.next(), kind) {
        (Some(line), _) => line,
        (None, LineFault::Missing) => &[],
        (None, _) => return,
    };
    let fault = Fault { number, line };
    if kind == LineFault::Form {
        tell_form(note, fault);
    } else if is_on_way {
        tell_fault(note, &walk, fault, kind);
    }
}

/// Explains the fault of a line: the sentence of its kind, and the line, the column, what is found there and what is expected. `text` must
/// be the lines that were refused with this fault; if there is none, only the sentence is written.
pub fn explain_line(
    templates: &Templates,
    text: Option<&[u8]>,
    number: u64,
    kind: LineFault,
) -> Note
    ensures { length result.bytes ≤ NOTE_ROOM }
{
    let mut note = Note::new();
    let _ = writeln!(note, "  {kind}");
    if let Some(text) = text {
        tell_line(&mut note, templates, text, number, kind);
    }
    prove!(note.len() <= NOTE_ROOM);
    note
}
