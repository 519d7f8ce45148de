//! Explanations of the lines, messages or digits of an input.

use fast_command::{RunFault, ShowEnd};
use fast_explain::Note;
use fast_explain_lines::{
    Digits, Stored, explain_digits, explain_dump, explain_line, explain_message,
};
use fast_template::Templates;
use fast_words::Plan;

/// Notes why a hexadecimal input is refused. If its stream is at fault and it is a dump with more than digits, notes that too.
pub(crate) fn note_digits<S>(
    plan: &Plan<'_>,
    ending: &Result<ShowEnd, RunFault>,
    reader: &Digits<S>,
    note: &mut Note,
) {
    match ending {
        Err(RunFault::BadHex(place)) => *note = explain_digits(*place, reader),
        Ok(ShowEnd::Faulted(_) | ShowEnd::Truncated(_)) if plan.hex => explain_dump(reader, note),
        _ => {}
    }
}

/// Notes why a line or a message is refused.
pub(crate) fn note_lines<S>(
    rt: &HostRuntime,
    templates: &Templates,
    plan: &Plan<'_>,
    ending: &Result<ShowEnd, RunFault>,
    reader: &Stored<S>,
    note: &mut Note,
) {
    let text = reader.text();
    match ending {
        Err(RunFault::Text { line, kind }) => *note = explain_line(templates, text, *line, *kind),
        Err(RunFault::Encode { message, fault }) => {
            let (alloc, limits) = (rt.alloc(), plan.limits());
            *note = explain_message(alloc, templates, limits, text, *message, *fault);
        }
        _ => {}
    }
}
