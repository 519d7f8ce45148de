//! Tests of `show`: streams as lines.

use super::super::sinks::{Answer, Giver, Taker};
use super::super::{LENIENT, built_in_set, expect, set_of, show};
use fast_command::{RunFault, ShowEnd};
use fast_template::Templates;
use fast_text::{FromBytes, Target, Watched};
use fast_value::Limits;
use std::alloc::{AllocError, Global};
use std::process::Abort;

const STRICT: Limits = Limits {
    strict: true,
    ..LENIENT
};

const SHORT: Limits = Limits {
    max_text: 15,
    ..LENIENT
};

const SET: &str = "[[template]]\nname = 'T1'\nid = 1\nfields = [{kind='uInt32', name='x'}]";

/// The lines of the stream C0 81 39 45 A3.
const ROW_1: &str = "message T1\nfield 0 x u 942755\nend message\n";

/// The bytes of a stream, and whether they are hexadecimal digits.
#[derive(Clone, Copy)]
struct Stream<'b> {
    bytes: &'b [u8],
    is_hex: bool,
}

/// Returns the result of a run in the form of `Debug`. It has no contract.
fn told(alloc: Global, found: &Result<ShowEnd, RunFault>) -> Result<String, AllocError> {
    format!(in alloc; "{found:?}")
}

/// Checks the end of a stream, in the form of `Debug`, and its lines. `show` adds an end of line after them.
fn expect_shown(
    rt: &impl Abort,
    alloc: Global,
    set: &Templates,
    limits: Limits,
    stream: Stream<'_>,
    end: &str,
    lines: &str,
) {
    let mut cells = [0; 512];
    let mut target = Watched::new(Taker::whole(&mut cells));
    let mut source = FromBytes::new(stream.bytes);
    let found = show(
        alloc,
        set,
        limits,
        stream.is_hex,
        100,
        &mut source,
        &mut target,
    );
    let found = told(alloc, &found).expect(rt, "memory");
    let taker = target.into_inner();
    let shown = taker.bytes();
    let has_lines = match shown.strip_suffix(b"\n") {
        Some(shown) => shown == lines.as_bytes(),
        None => shown.is_empty() && lines.is_empty(),
    };
    expect(rt, has_lines && found.as_str() == end, lines, shown.len());
}

/// Returns the next column of a row.
fn column<'t>(rest: &mut &'t str) -> &'t str {
    let (column, behind) = rest.split_once('|').unwrap_or((*rest, ""));
    *rest = behind;
    column.trim()
}

/// Checks each row: hexadecimal digits, the end and the lines, with an empty line before the next row.
fn expect_rows(rt: &impl Abort, alloc: Global, set: &Templates, limits: Limits, rows: &str) {
    for row in rows.split("\n\n") {
        let mut rest = row;
        let stream = Stream {
            bytes: column(&mut rest).as_bytes(),
            is_hex: true,
        };
        let end = column(&mut rest);
        expect_shown(rt, alloc, set, limits, stream, end, rest.trim());
    }
}

const LENIENT_ROWS: &str = "\
C0 81 39 45 A3 | Ok(Good) |
message T1
field 0 x u 942755
end message

c081\t394\n5a\r3 | Ok(Good) |
message T1
field 0 x u 942755
end message

C0 81 39 45 A3 80 80 | Ok(Good) |
message T1
field 0 x u 942755
end message
message T1
field 0 x u 0
end message

| Ok(Good) |

C0 | Ok(Truncated(1)) |
truncated at 1

C0 81 | Ok(Truncated(2)) |
message T1
truncated at 2

80 | Ok(Faulted(Fault { code: Stream(D5), place: 1 })) |
fault D5 at 1

C0 D5 | Ok(Faulted(Fault { code: Stream(D9), place: 2 })) |
fault D9 at 2

C0 D5 G | Ok(Faulted(Fault { code: Stream(D9), place: 2 })) |
fault D9 at 2

C0 81 10 00 00 00 80 | Ok(Faulted(Fault { code: Stream(D2), place: 7 })) |
message T1
fault D2 at 7

C0 81 00 81 | Ok(Good) |
message T1
field 0 x u 1
end message

40 80 81 81 | Ok(Good) |
message T1
field 0 x u 1
end message

40 81 81 81 | Ok(Good) |
message T1
field 0 x u 1
end message

C0 8G | Err(BadHex(4)) |

C0 81 3 | Err(BadHex(7)) |
message T1";

const STRICT_ROWS: &str = "\
C0 81 00 81 | Ok(Faulted(Fault { code: Stream(R6), place: 4 })) |
message T1
fault R6 at 4

40 80 81 81 | Ok(Faulted(Fault { code: Stream(R7), place: 2 })) |
fault R7 at 2

40 81 81 81 | Ok(Faulted(Fault { code: Stream(R8), place: 3 })) |
fault R8 at 3";

const SHORT_ROWS: &str = "C0 | Err(Make(BadLimits)) |";

#[test]
fn rows_through_show(rt: HostRuntime) {
    let set = set_of(&rt, rt.alloc(), SET);
    for (limits, rows) in [
        (LENIENT, LENIENT_ROWS),
        (STRICT, STRICT_ROWS),
        (SHORT, SHORT_ROWS),
    ] {
        expect_rows(&rt, rt.alloc(), &set, limits, rows);
    }
}

const BUILT_IN_ROWS: &str = "\
| Ok(Good) |

C0 | Ok(Truncated(1)) |
truncated at 1

C0 81 | Ok(Truncated(2)) |
message T1
truncated at 2

C0 81 39 45 A3 | Ok(Good) |
message T1
field 0 x u 942755
end message

C0 82 0F 7F 7F 7F FF | Ok(Faulted(Fault { code: Stream(L2), place: 7 })) |
message T2
fault L2 at 7

C0 82 0F 7F 7F 7F FF C0 81 39 45 A3 | Ok(Faulted(Fault { code: Stream(L2), place: 7 })) |
message T2
fault L2 at 7

C0 8G | Err(BadHex(4)) |";

#[test]
fn streams_of_the_built_in_set(rt: HostRuntime) {
    let set = built_in_set(&rt, rt.alloc());
    expect_rows(&rt, rt.alloc(), &set, LENIENT, BUILT_IN_ROWS);
}

/// An initial value of 17 characters.
const LONG_INITIAL: &str =
    "[[template]]\nname = 'A'\nfields = [{kind='ascii', name='x', op='default', value='12345678901234567'}]";

#[test]
fn limits_without_a_decoder(rt: HostRuntime) {
    let set = set_of(&rt, rt.alloc(), LONG_INITIAL);
    for (max_text, end) in [
        (15, "Err(Make(BadLimits))"),
        (16, "Err(Make(InitialTooLong))"),
        (17, "Ok(Good)"),
    ] {
        let limits = Limits {
            max_text,
            ..LENIENT
        };
        let stream = Stream {
            bytes: b"",
            is_hex: false,
        };
        expect_shown(&rt, rt.alloc(), &set, limits, stream, end, "");
    }
}

/// Returns a reader of the message of `ROW_1` and further bytes, one byte a read, which fails at a read.
fn drip(fails_at: usize) -> Watched<Giver<'static>> {
    let bytes = &[0xc0, 0x81, 0x39, 0x45, 0xa3, 0, 0, 0];
    Watched::new(Giver::new(bytes, fails_at, Answer::Failure))
}

#[test]
fn reads_come_to_an_end(rt: HostRuntime) {
    let set = set_of(&rt, rt.alloc(), SET);
    for (max_reads, fails_at, shown, reads) in [
        (3, 0, "message T1\n", 3),
        (100, 4, "message T1\n", 4),
        (100, 2, "", 2),
        (0, 0, "", 0),
        (6, 0, ROW_1, 6),
    ] {
        let mut source = drip(fails_at);
        let mut cells = [0; 512];
        let mut target = Watched::new(Taker::whole(&mut cells));
        let end = show(
            rt.alloc(),
            &set,
            LENIENT,
            false,
            max_reads,
            &mut source,
            &mut target,
        );
        let is_right = end == Err(RunFault::Read)
            && target.into_inner().bytes() == shown.as_bytes()
            && source.into_inner().calls == reads;
        expect(&rt, is_right, shown, max_reads as usize);
    }
}

/// The lines of `C0 81 39 45 A3 C0`.
const CUT_LINES: &str = "message T1\nfield 0 x u 942755\nend message\ntruncated at 6\n";

#[test]
fn a_writer_that_fails_leaves_a_front(rt: HostRuntime) {
    let set = set_of(&rt, rt.alloc(), SET);
    for room in 0..CUT_LINES.len() {
        expect(&rt, leaves_a_front(rt.alloc(), &set, room), "room", room);
    }
}

/// Returns whether a writer with room for this part of the lines keeps it, and fails.
fn leaves_a_front(alloc: Global, set: &Templates, room: usize) -> bool {
    let mut cells = [0; 64];
    let (cells, _) = cells.split_at_mut(room.min(64));
    let mut target = Watched::new(Taker::whole(cells));
    let mut source = FromBytes::new(b"C0 81 39 45 A3 C0");
    let end = show(alloc, set, LENIENT, true, 100, &mut source, &mut target);
    let has_failed = Target::failed(&target);
    end == Err(RunFault::Write)
        && has_failed
        && target.into_inner().has_kept(CUT_LINES.as_bytes(), room)
}

#[test]
fn a_long_stream_is_shown_whole(rt: HostRuntime) {
    let set = set_of(&rt, rt.alloc(), SET);
    let mut stream = [0x80; 10_005];
    stream[..5].copy_from_slice(&[0xc0, 0x81, 0x39, 0x45, 0xa3]);
    let mut source = FromBytes::new(&stream);
    let mut target = Watched::new(Taker::counting(0));
    let end = show(
        rt.alloc(),
        &set,
        LENIENT,
        false,
        100,
        &mut source,
        &mut target,
    );
    let is_right = end == Ok(ShowEnd::Good) && target.into_inner().lines == 3 * 5001;
    expect(&rt, is_right, "lines", stream.len());
}

#[test]
fn lines_can_be_seen_before_each_read(rt: HostRuntime) {
    let set = set_of(&rt, rt.alloc(), SET);
    for (fails_at, fault, reads, flushes) in [
        (0, RunFault::Read, 6, 6),
        (3, RunFault::Write, 2, 3),
    ] {
        let mut source = drip(0);
        let mut target = Watched::new(Taker::counting(fails_at));
        let end = show(
            rt.alloc(),
            &set,
            LENIENT,
            false,
            6,
            &mut source,
            &mut target,
        );
        let is_right = end == Err(fault)
            && source.into_inner().calls == reads
            && target.into_inner().flushes == flushes;
        expect(&rt, is_right, "flushes", 6);
    }
}
