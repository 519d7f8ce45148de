//! Tests with readers and writers of std that fail at a call, end too early, or read and write one byte a call.

use super::super::sinks::{Answer, Giver, Taker};
use super::super::{built_in_set, expect};
use super::show_whole;
use fast_command::{RunFault, ShowEnd};
use fast_template::Templates;
use fast_text::{FromBytes, Watched};
use std::alloc::Global;

const STREAM: [u8; 5] = [0xc0, 0x81, 0x39, 0x45, 0xa3];

const LINES: &str = "message T1\nfield 0 x u 942755\nend message\n";

/// For each number of bytes from 0: how much of the lines they decide, and the last line if the stream ends there.
const FRONTS: &[(usize, &str)] = &[
    (0, ""),
    (0, "truncated at 1\n"),
    (11, "truncated at 2\n"),
    (11, "truncated at 3\n"),
    (11, "truncated at 4\n"),
    (42, ""),
];

/// Returns the end of a stream that ends after `count` bytes.
fn end_behind(count: usize) -> ShowEnd {
    if count == 0 || count == STREAM.len() {
        ShowEnd::Good
    } else {
        ShowEnd::Truncated(count as u64)
    }
}

#[test]
fn a_reader_that_fails_or_ends_at_any_call(rt: HostRuntime) {
    let set = built_in_set(&rt, rt.alloc());
    for (given, (decided, close)) in FRONTS.iter().enumerate() {
        for answer in [Answer::Failure, Answer::Nothing] {
            let is_right = is_shown_in_front(rt.alloc(), &set, given, answer, *decided, close);
            expect(&rt, is_right, "a reader that differs", given);
        }
    }
}

/// Returns whether, if a reader returns a number of pieces and then this answer, the lines of these pieces are shown, and after an end the
/// last line too.
fn is_shown_in_front(
    alloc: Global,
    set: &Templates,
    given: usize,
    answer: Answer,
    decided: usize,
    close: &str,
) -> bool {
    let mut source = Watched::new(Giver::new(&STREAM, given.saturating_add(1), answer));
    let mut cells = [0; 64];
    let mut target = Watched::new(Taker::whole(&mut cells));
    let end = show_whole(alloc, set, 1000, &mut source, &mut target);
    let (due, close) = match answer {
        Answer::Failure => (Err(RunFault::Read), ""),
        Answer::Nothing => (Ok(end_behind(given)), close),
    };
    let taker = target.into_inner();
    let shown = taker.bytes();
    let (front, last) = shown.split_at(decided.min(shown.len()));
    end == due && Some(front) == LINES.as_bytes().get(..decided) && last == close.as_bytes()
}

#[test]
fn a_writer_that_fails_or_takes_nothing_at_any_call(rt: HostRuntime) {
    let set = built_in_set(&rt, rt.alloc());
    for taken in 0..=LINES.len() {
        for answer in [Answer::Failure, Answer::Nothing] {
            let is_right = is_taken_in_front(rt.alloc(), &set, taken, answer);
            expect(&rt, is_right, "a writer that differs", taken);
        }
    }
}

/// Returns whether, if a writer writes `taken` bytes and then returns this answer, it has these bytes of the lines, and the run fails if
/// there are more.
fn is_taken_in_front(alloc: Global, set: &Templates, taken: usize, answer: Answer) -> bool {
    let mut source = FromBytes::new(&STREAM);
    let mut cells = [0; 64];
    let taker = Taker::new(&mut cells, taken.saturating_add(1), answer, 0);
    let mut target = Watched::new(taker);
    let end = show_whole(alloc, set, 1000, &mut source, &mut target);
    let due = if taken < LINES.len() {
        Err(RunFault::Write)
    } else {
        Ok(ShowEnd::Good)
    };
    end == due && target.into_inner().has_kept(LINES.as_bytes(), taken)
}

/// There is a flush before each read, of which the second finds the end, and a last one, even if the run has failed.
#[test]
fn a_writer_that_fails_at_any_flush(rt: HostRuntime) {
    let set = built_in_set(&rt, rt.alloc());
    for (fails_at, flushes, kept) in [(1, 2, 0), (2, 3, 42), (3, 3, 42), (4, 3, 42)] {
        let is_right = is_flushed(rt.alloc(), &set, fails_at, flushes, kept);
        expect(&rt, is_right, "a flush that fails", fails_at);
    }
}

/// Returns whether, if a writer fails at this flush, the number of flushes and the part of the lines that it has are right.
fn is_flushed(
    alloc: Global,
    set: &Templates,
    fails_at: usize,
    flushes: usize,
    kept: usize,
) -> bool {
    let mut source = FromBytes::new(&STREAM);
    let mut cells = [0; 64];
    let mut target = Watched::new(Taker::new(&mut cells, 0, Answer::Failure, fails_at));
    let end = show_whole(alloc, set, 6, &mut source, &mut target);
    let due = if fails_at <= 3 {
        Err(RunFault::Write)
    } else {
        Ok(ShowEnd::Good)
    };
    let taker = target.into_inner();
    end == due && taker.flushes == flushes && taker.has_kept(LINES.as_bytes(), kept)
}
