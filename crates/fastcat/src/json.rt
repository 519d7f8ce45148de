//! The wiring of `show --json`.

use crate::MAX_READS;
use fast_command::{RunFault, ShowEnd};
use fast_json::{JsonSink, Keys};
use fast_run::show_over;
use fast_select::{Choice, Selected};
use fast_template::Templates;
use fast_text::{Failed, Source, Target};
use fast_words::Plan;
use std::alloc::Global;

/// Ends an object whose rest is not known, if one is open, and writes it out.
fn end_unknown<T: Target>(sink: &mut JsonSink<'_, T>) -> Result<(), Failed> {
    sink.put_incomplete()?;
    sink.flush()
}

/// Shows the chosen messages of a reader's stream by a target, as JSON.
pub(crate) fn show_json<S: Source, T: Target + Drop>(
    alloc: Global,
    templates: &Templates,
    plan: &Plan<'_>,
    choice: &Choice,
    reader: &mut S,
    target: T,
) -> Result<ShowEnd, RunFault> {
    let Ok(keys) = Keys::new(alloc, templates) else {
        return Err(RunFault::Memory);
    };
    let mut output = Selected::new(choice.chooser(), JsonSink::new(&keys, target));
    let ending = show_over(
        alloc,
        templates,
        plan.limits(),
        plan.hex,
        MAX_READS,
        reader,
        &mut output,
    );
    if let Err(RunFault::Read | RunFault::BadHex(_)) = &ending {
        if end_unknown(&mut output.inner).is_err() {
            return Err(RunFault::Write);
        }
    }
    ending
}
