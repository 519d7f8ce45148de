//! Tests of invalid lines, with the number of the line and its fault.

use super::super::{built_in_set, expect};
use super::{count_of, set_of};
use LineFault::{Form, Missing, OutOfPlace, PassedOver, UnknownTemplate, WrongCount, WrongValue};
use fast_reading::{LineFault, TextFault};
use fast_template::Templates;
use std::alloc::Global;
use std::process::Abort;

/// A fault, and files of lines with the number of the invalid line.
type Rows = &'static [(LineFault, &'static [(u64, &'static str)])];

#[rattlefmt::skip]
const FAULTS: Rows = &[
    (
        Form,
        &[
            (1, "\nmessage Beat\nend message"),
            (1, "message  Beat\nend message"),
            (1, "message\nend message"),
            (1, "message Beat\r\nend message"),
            (2, "message Beat\nend messages"),
            (2, "message Beat\nEND message"),
            (3, "message Beat\nend message\n\n"),
            (2, "message Order\nfield 0 size u 05"),
            (2, "message Order\nfield 0 size u +5"),
            (2, "message Order\nfield 0 size u -5"),
            (2, "message Order\nfield 0 size u"),
            (2, "message Order\nfield 0 size x 5"),
            (2, "message Order\nfield 00 size u 5"),
            (2, "message Order\nfield 0  u 5"),
            (2, "message Order\nfield 4294967296 size u 5"),
            (3, "message Order\nfield 0 size u 5\nfield 1 shift i -0"),
            (3, "message Order\nfield 0 size u 5\nfield 2 price d 5"),
            (4, "message Order\nfield 0 size u 5\ngroup 3 party\nfield 4 key b 01FF"),
            (4, "message Order\nfield 0 size u 5\ngroup 3 party\nfield 4 key b 012"),
            (5, "message Order\nfield 0 size u 5\ngroup 3 party\nfield 4 key b \nfield 5 desk a \"A"),
            (5, "message Order\nfield 0 size u 5\ngroup 3 party\nfield 4 key b \nfield 5 desk a \"\\x41\""),
            (3, "message Order\nfield 0 size u 5\nsequence 6 legs 4294967296"),
            (3, "message Order\nfield 0 size u 5\nsequence 6 legs 00"),
            // The line is also out of place.
            (2, "message Beat\nfield 0 size u 05"),
            (2, "message Beat\nfield 0 size! u 5"),
        ],
    ),
    (
        UnknownTemplate,
        &[
            (1, "message Bear\nend message"),
            (2, "message Beat\nmessage Bear"),
            (3, "message Order\nfield 0 size u 5\nmessage beat"),
        ],
    ),
    (
        OutOfPlace,
        &[
            (1, "end message"),
            (1, "element"),
            (2, "message Beat\nmessage Beat"),
            (2, "message Beat\nfield 0 size u 5"),
            (2, "message Beat\nend element"),
            (2, "message Order\nfield 0 sise u 5"),
            (2, "message Order\ngroup 0 size"),
            (2, "message Order\nfield 9 size u 5"),
            (2, "message Order\nend group"),
            (3, "message Order\nfield 0 size u 5\nfield 0 size u 5"),
            (4, "message Order\nfield 0 size u 5\nfield 2 price d 0e0\nfield 1 shift i 3"),
            (4, "message Order\nfield 0 size u 5\ngroup 3 party\nend message"),
            (4, "message Order\nfield 0 size u 5\nsequence 6 legs 1\nfield 7 venue s \"\""),
            (5, "message Order\nfield 0 size u 5\nsequence 6 legs 1\nelement\nend sequence"),
        ],
    ),
    (
        WrongValue,
        &[
            (2, "message Order\nfield 0 size i 5"),
            (2, "message Order\nfield 0 size u 4294967296"),
            (2, "message Order\nfield 0 size u 18446744073709551616"),
            (3, "message Order\nfield 0 size u 5\nfield 1 shift i 9223372036854775808"),
            (3, "message Order\nfield 0 size u 5\nfield 2 price d 1e64"),
            (3, "message Order\nfield 0 size u 5\nfield 2 price d 1e-99999999999"),
            (5, "message Order\nfield 0 size u 5\ngroup 3 party\nfield 4 key b 00\nfield 5 desk a \"é\""),
            (4, "message Order\nfield 0 size u 5\ngroup 3 party\nfield 4 key s \"\""),
            // A mandatory field is also missing.
            (2, "message Order\nfield 1 shift u 3"),
            (4, "message Order\nfield 0 size u 5\ngroup 3 party\nfield 5 desk s \"\""),
            // The next line is also invalid.
            (2, "message Order\nfield 0 size i 5\n?"),
        ],
    ),
    (
        PassedOver,
        &[
            (2, "message Order\nend message"),
            (2, "message Order\nfield 1 shift i 3"),
            (2, "message Order\nsequence 6 legs 1"),
            (3, "message Order\nfield 0 size u 5\nend message"),
            (4, "message Order\nfield 0 size u 5\ngroup 3 party\nend group"),
            (5, "message Order\nfield 0 size u 5\nsequence 6 legs 1\nelement\nfield 8 lots u 3"),
            (5, "message Order\nfield 0 size u 5\nsequence 6 legs 1\nelement\nend element"),
        ],
    ),
    (
        WrongCount,
        &[
            (4, "message Order\nfield 0 size u 5\nsequence 6 legs 0\nelement"),
            (4, "message Order\nfield 0 size u 5\nsequence 6 legs 4294967295\nend sequence"),
            (7, "message Order\nfield 0 size u 5\nsequence 6 legs 2\nelement\nfield 7 venue s \"\"\nend element\nend sequence"),
            (7, "message Order\nfield 0 size u 5\nsequence 6 legs 1\nelement\nfield 7 venue s \"\"\nend element\nelement"),
        ],
    ),
    (
        Missing,
        &[
            (2, "message Beat"),
            (2, "message Beat\n"),
            (4, "message Beat\nend message\nmessage Beat\n"),
            (2, "message Order"),
            (4, "message Order\nfield 0 size u 5\ngroup 3 party\n"),
            (4, "message Order\nfield 0 size u 5\nsequence 6 legs 4294967295"),
        ],
    ),
];

/// Checks that each file has this fault in the line of this number.
fn expect_fault(
    rt: &impl Abort,
    alloc: Global,
    set: &Templates,
    kind: LineFault,
    texts: &[(u64, &str)],
) {
    for (line, text) in texts {
        let answer = count_of(alloc, set, text.as_bytes());
        let want = TextFault::BadLine { line: *line, kind };
        expect(rt, answer == Err(want), text, *line as usize);
    }
}

#[test]
fn the_first_line_at_fault_is_named(rt: HostRuntime) {
    let alloc = rt.alloc();
    let set = set_of(&rt, alloc);
    for (kind, texts) in FAULTS {
        expect_fault(&rt, alloc, &set, *kind, texts);
    }
}

/// The lines of a message of the built-in set, without those of the second of its two elements.
const ONE_OF_TWO: &str = "message T15
field 15 x u 5
group 16 g
field 17 b b 01ff
end group
sequence 18 legs 2
element
field 19 sym a \"AB\"
field 20 px i 100
end element
end sequence
end message
";

#[test]
fn an_element_is_missing(rt: HostRuntime) {
    let set = built_in_set(&rt, rt.alloc());
    expect_fault(&rt, rt.alloc(), &set, WrongCount, &[(11, ONE_OF_TWO)]);
    expect(&rt, WrongCount.number() == 6, "its number", 6);
}

#[test]
fn a_line_that_is_not_utf8_is_of_no_form(rt: HostRuntime) {
    let alloc = rt.alloc();
    let set = set_of(&rt, alloc);
    for (line, kind, text) in [
        (
            3,
            Form,
            b"message Beat\nend message\nmessage \xff\n".as_slice(),
        ),
        // An earlier fault is reported first.
        (
            1,
            UnknownTemplate,
            b"message Bee\nend message\nmessage \xff\n".as_slice(),
        ),
        (2, Form, b"message Beat\nend\nmessage \xff\n".as_slice()),
    ] {
        let answer = count_of(alloc, &set, text);
        let want = TextFault::BadLine { line, kind };
        expect(
            &rt,
            answer == Err(want),
            "a line that is not UTF-8",
            line as usize,
        );
    }
}

#[test]
fn a_fault_has_a_number_and_a_sentence(rt: HostRuntime) {
    let alloc = rt.alloc();
    for (fault, sentence) in [
        (
            TextFault::BadLine {
                line: 4,
                kind: UnknownTemplate,
            },
            "line 4 kind 2: no template has its name",
        ),
        (
            TextFault::BadLine {
                line: 3,
                kind: Missing,
            },
            "line 3 kind 7: the text ends where the line had to stand",
        ),
        (TextFault::Memory, "there is no memory left"),
    ] {
        let found = format!(in alloc; "{fault}").expect(&rt, "memory");
        expect(&rt, found.as_str() == sentence, sentence, found.len());
    }
}
