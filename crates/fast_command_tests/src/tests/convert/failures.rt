//! Tests with readers and writers that fail, and with those that read and write one byte a call.

use super::super::sinks::{Answer, Giver, Taker};
use super::super::{LENIENT, built_in_set, expect};
use super::convert;
use fast_command::RunFault;
use fast_template::Templates;
use fast_text::{FromBytes, Watched};
use std::alloc::Global;

const LINES: &str =
    "message T1\nfield 0 x u 942755\nend message\nmessage T1\nfield 0 x u 0\nend message\n";

/// The size of the lines' stream in bytes.
const WRITTEN: usize = 7;

#[test]
fn a_reader_that_fails_at_any_call_is_told(rt: HostRuntime) {
    let set = built_in_set(&rt, rt.alloc());
    for call in 1..LINES.len() + 3 {
        let is_told = is_read_failure_told(rt.alloc(), &set, call);
        expect(&rt, is_told, "a reader that fails at a call", call);
    }
}

/// Returns whether nothing is written if a reader fails at this call, and everything if the call does not occur.
fn is_read_failure_told(alloc: Global, set: &Templates, call: usize) -> bool {
    let mut cells = [0; 64];
    let mut target = Watched::new(Taker::whole(&mut cells));
    let mut source = Watched::new(Giver::new(LINES.as_bytes(), call, Answer::Failure));
    let end = convert(alloc, set, LENIENT, false, &mut source, &mut target);
    let written = target.into_inner().kept;
    // There is one call more than there are bytes, which finds the end.
    if call <= LINES.len() + 1 {
        end == Err(RunFault::Read) && written == 0
    } else {
        end == Ok(()) && written == WRITTEN
    }
}

#[test]
fn a_reader_without_an_end_is_read_to_the_limit(rt: HostRuntime) {
    let set = built_in_set(&rt, rt.alloc());
    let mut source = Watched::new(Giver::endless());
    let mut target = Watched::new(Taker::counting(0));
    let end = convert(rt.alloc(), &set, LENIENT, false, &mut source, &mut target);
    let calls = source.into_inner().calls;
    // 67,108,864 bytes are 16,384 calls, and the next one is over the limit.
    let is_right = end == Err(RunFault::Read) && calls == 16_385 && target.into_inner().kept == 0;
    expect(&rt, is_right, "calls of a reader without an end", calls);
}

#[test]
fn a_writer_that_fails_at_any_call_is_told(rt: HostRuntime) {
    let set = built_in_set(&rt, rt.alloc());
    for call in 1..WRITTEN + 2 {
        for answer in [Answer::Failure, Answer::Nothing] {
            let is_told = is_write_failure_told(rt.alloc(), &set, call, answer);
            expect(&rt, is_told, "a writer that fails at a call", call);
        }
    }
}

/// Returns whether, if a writer returns this answer at this call, all bytes before it are written, and the run fails.
fn is_write_failure_told(alloc: Global, set: &Templates, call: usize, answer: Answer) -> bool {
    let mut source = FromBytes::new(LINES.as_bytes());
    let mut target = Watched::new(Taker::new(&mut [], call, answer, 0));
    let end = convert(alloc, set, LENIENT, false, &mut source, &mut target);
    let written = target.into_inner().kept;
    if call <= WRITTEN {
        end == Err(RunFault::Write) && Some(written) == call.checked_sub(1)
    } else {
        end == Ok(()) && written == WRITTEN
    }
}
