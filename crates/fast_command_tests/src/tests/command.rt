//! Tests of the commands over readers and writers.

mod bytes;
mod check;
mod devices;
mod faults;
mod nested;
mod show;
mod texts;
mod vectors;
mod words;

use super::LENIENT;
use super::sinks::Taker;
use fast_command::{RunFault, ShowEnd, show_all};
use fast_template::Templates;
use fast_text::{Source, Watched};
use std::alloc::Global;

/// Shows a binary stream, in at most `max_reads` reads, and flushes at the end.
fn show_whole<S: Source>(
    alloc: Global,
    set: &Templates,
    max_reads: u32,
    source: &mut S,
    target: &mut Watched<Taker<'_>>,
) -> Result<ShowEnd, RunFault> {
    show_all(
        alloc,
        set,
        LENIENT,
        false,
        u64::from(max_reads),
        source,
        target,
    )
}
