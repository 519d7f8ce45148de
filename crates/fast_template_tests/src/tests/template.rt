//! Template sets: files and their faults, entries and caps.

mod caps;
mod chains;
mod sets;
mod texts;
mod widths;

use fast_template::{StaticCode, StaticFault, Templates};
use std::alloc::{AllocError, Global};
use std::process::Abort;
use std::test::Fail;

/// The code of a template file, and the template at which it is; nothing if the file is a set.
type Due = Option<(StaticCode, Option<u32>)>;

/// Reads a template file. No clause says anything of it, so that the contract of `read` is a matter of this function alone.
fn read(alloc: Global, text: &str) -> Result<Templates, StaticFault> {
    Templates::read(alloc, text)
}

/// Returns the fault of a template file, if it has one.
fn fault_of(alloc: Global, text: &str) -> Due {
    match read(alloc, text) {
        Ok(_) => None,
        Err(fault) => Some((fault.code, fault.template)),
    }
}

/// Returns the set of a template file.
fn set_of(alloc: Global, text: &str) -> Result<Templates, Fail> {
    Ok(read(alloc, text)?)
}

/// Appends strings to a file. No clause says which, so that the contents of a file cost the prover nothing.
fn put(text: &mut String, pieces: &[&str]) -> Result<(), AllocError> {
    for piece in pieces {
        text.push_str(piece)?;
    }
    Ok(())
}

/// Joins strings into a file.
fn joined(alloc: Global, pieces: &[&str]) -> Result<String, AllocError> {
    let mut text = String::new(alloc);
    put(&mut text, pieces)?;
    Ok(text)
}

/// Checks that a file has this fault. The message says what it shows.
fn expect_fault(rt: &impl Abort, alloc: Global, text: &str, want: Due, what: &str) {
    let is_right = fault_of(alloc, text) == want;
    assert!(rt; is_right, "{what}");
}

/// Faults, each with the files that have it.
type Faults = &'static [(Due, &'static [&'static str])];

/// Checks that a file has this fault, between these strings.
fn expect_within(
    rt: &impl Abort,
    alloc: Global,
    (before, after): (&str, &str),
    text: &str,
    want: Due,
) -> Result<(), AllocError> {
    let whole = joined(alloc, &[before, text, after])?;
    expect_fault(rt, alloc, whole.as_str(), want, text);
    Ok(())
}

/// Checks that each of the files has this fault, between these strings.
fn expect_all_within(
    rt: &impl Abort,
    alloc: Global,
    around: (&str, &str),
    texts: &[&str],
    want: Due,
) -> Result<(), AllocError> {
    for text in texts {
        expect_within(rt, alloc, around, text, want)?;
    }
    Ok(())
}

/// Checks that each of the files has its expected fault, between these strings.
fn expect_faults(
    rt: &impl Abort,
    alloc: Global,
    around: (&str, &str),
    faults: Faults,
) -> Result<(), AllocError> {
    for (want, texts) in faults {
        expect_all_within(rt, alloc, around, texts, *want)?;
    }
    Ok(())
}

/// Returns whether the set has this number of templates, and finds them by these identifiers and names.
fn finds(
    set: &Templates,
    count: u32,
    ids: &[(u32, Option<u32>)],
    names: &[(&str, Option<u32>)],
) -> bool {
    for (id, want) in ids {
        if set.by_id(*id) != *want {
            return false;
        }
    }
    for (name, want) in names {
        if set.by_name(name) != *want {
            return false;
        }
    }
    set.count() == count
}
