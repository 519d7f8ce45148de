//! Tests of `show --bytes`, with readers and writers that fail.

use super::super::sinks::{Answer, Giver, Taker};
use super::super::{LENIENT, built_in_set, expect};
use fast_command::{RunFault, ShowEnd};
use fast_dump::dump_all;
use fast_template::Templates;
use fast_text::{FromBytes, Source, Watched};
use std::alloc::Global;

const STREAM: [u8; 5] = [0xc0, 0x81, 0x39, 0x45, 0xa3];

const ROWS: &str = "0000  c0                       map bits 1000000\n\
0001  81                       message T1\n\
0002  39 45 a3                 field 0 x u 942755\n                               end message\n";

/// For each number of bytes from 0: how many bytes of the rows they decide, and the row if reading fails there.
const FRONTS: &[(usize, &str)] = &[
    (0, ""),
    (
        48,
        "                               waiting for the template identifier\n",
    ),
    (90, "                               waiting for field 0 x\n"),
    (90, "0002  39                       waiting for field 0 x\n"),
    (90, "0002  39 45                    waiting for field 0 x\n"),
    (183, ""),
];

/// Shows a binary stream with its bytes. Returns how the run ends, and whether the writer has these rows.
fn is_dumped<S: Source>(
    alloc: Global,
    set: &Templates,
    source: &mut S,
    taker: Taker<'_>,
    end: Result<ShowEnd, RunFault>,
    front: &str,
    last: &str,
) -> bool {
    let target = Watched::new(taker);
    let (found, target) = dump_all(alloc, set, LENIENT, false, 1000, source, target);
    let taker = target.into_inner();
    let shown = taker.bytes();
    let (rows, rest) = shown.split_at(front.len().min(shown.len()));
    found == end && rows == front.as_bytes() && rest == last.as_bytes()
}

/// Returns the first bytes of the rows.
fn front_of_rows(count: usize) -> &'static str {
    ROWS.get(..count).unwrap_or("")
}

#[test]
fn the_rows_of_a_stream(rt: HostRuntime) {
    let set = built_in_set(&rt, rt.alloc());
    let mut cells = [0; 256];
    let mut source = FromBytes::new(&STREAM);
    let taker = Taker::whole(&mut cells);
    let is_right = is_dumped(
        rt.alloc(),
        &set,
        &mut source,
        taker,
        Ok(ShowEnd::Good),
        ROWS,
        "",
    );
    expect(&rt, is_right, "rows that differ", 0);
}

#[test]
fn a_reader_that_fails_at_any_call(rt: HostRuntime) {
    let set = built_in_set(&rt, rt.alloc());
    for (given, (decided, last)) in FRONTS.iter().enumerate() {
        let mut source = Watched::new(Giver::new(
            &STREAM,
            given.saturating_add(1),
            Answer::Failure,
        ));
        let mut cells = [0; 256];
        let taker = Taker::whole(&mut cells);
        let front = front_of_rows(*decided);
        let end = Err(RunFault::Read);
        let is_right = is_dumped(rt.alloc(), &set, &mut source, taker, end, front, last);
        expect(&rt, is_right, "a reader that differs", given);
    }
}

#[test]
fn a_writer_that_fails_at_any_call(rt: HostRuntime) {
    let set = built_in_set(&rt, rt.alloc());
    for taken in 0..ROWS.len() {
        let mut source = FromBytes::new(&STREAM);
        let mut cells = [0; 256];
        let taker = Taker::new(&mut cells, taken.saturating_add(1), Answer::Failure, 0);
        let front = front_of_rows(taken);
        let end = Err(RunFault::Write);
        let is_right = is_dumped(rt.alloc(), &set, &mut source, taker, end, front, "");
        expect(&rt, is_right, "a writer that differs", taken);
    }
}
