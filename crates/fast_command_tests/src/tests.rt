//! Tests of whatever no contract covers, with each public call at least once.
//!
//! A call of a function with a large contract is expensive to prove. So each occurs once, in a function without a contract that the tests
//! call; those that several modules need are here.

mod command;
mod convert;
mod explain;
mod reading;
mod sinks;
mod text;

use fast_command::{RunFault, ShowEnd, built_in, run_show};
use fast_template::Templates;
use fast_text::{Source, Watched};
use fast_value::Limits;
use sinks::Taker;
use std::alloc::Global;
use std::process::Abort;

/// Lenient mode with the default limits of the program.
const LENIENT: Limits = Limits {
    strict: false,
    max_text: 1024,
    max_elements: 1000,
    max_total: 1000,
};

/// Reads a template set; ends the test if that fails. So its callers need no `?`, whose exit their proofs would have to cover.
fn set_of(rt: &impl Abort, alloc: Global, text: &str) -> Templates {
    Templates::read(alloc, text).expect(rt, "the set of a text")
}

/// Reads the built-in set.
fn built_in_set(rt: &impl Abort, alloc: Global) -> Templates {
    built_in(alloc).expect(rt, "the built-in set")
}

/// Shows a stream, in at most `max_reads` reads.
fn show<S: Source>(
    alloc: Global,
    set: &Templates,
    limits: Limits,
    is_hex: bool,
    max_reads: u32,
    source: &mut S,
    target: &mut Watched<Taker<'_>>,
) -> Result<ShowEnd, RunFault> {
    run_show(
        alloc,
        set,
        limits,
        is_hex,
        u64::from(max_reads),
        source,
        target,
    )
}

/// Fails the test unless `is_right`; the message names the test and the row.
fn expect(rt: &impl Abort, is_right: bool, of: &str, at: usize) {
    assert!(rt; is_right, "{of} ({at})");
}
