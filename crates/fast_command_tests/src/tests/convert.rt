//! Tests of lines and of the streams that are written from them.

mod ends;
mod failures;

use super::sinks::Taker;
use fast_command::RunFault;
use fast_convert::run_convert;
use fast_template::Templates;
use fast_text::{Source, Watched};
use fast_value::Limits;
use std::alloc::Global;

/// Converts lines to a stream.
fn convert<S: Source>(
    alloc: Global,
    set: &Templates,
    limits: Limits,
    hex: bool,
    source: &mut S,
    target: &mut Watched<Taker<'_>>,
) -> Result<(), RunFault> {
    run_convert(alloc, set, limits, hex, source, target)
}
