//! Tests with a nested message, truncated after each of its bytes.

use super::super::sinks::Taker;
use super::super::{LENIENT, built_in_set, expect, show};
use fast_command::ShowEnd;
use fast_template::Templates;
use fast_text::{FromBytes, Watched};
use std::alloc::Global;

/// A message with a group and a sequence of two elements.
const NESTED: [u8; 14] = [
    0xe0, 0x8f, 0x85, 0x82, 0x01, 0xff, 0x83, 0xc0, 0x41, 0xc2, 0x00, 0xe4, 0x80, 0xfe,
];

/// The lines of `NESTED`.
const NESTED_LINES: &str = "\
message T15
field 15 x u 5
group 16 g
field 17 b b 01ff
end group
sequence 18 legs 2
element
field 19 sym a \"AB\"
field 20 px i 100
end element
element
field 19 sym a \"AB\"
field 20 px i 98
end element
end sequence
end message
";

/// For each number of its bytes from 0: how much of the lines they decide, and the last line if the stream ends there.
#[rattlefmt::skip]
const NESTED_FRONTS: &[(usize, &str)] = &[
    (0, ""),
    (0, "truncated at 1\n"),
    (12, "truncated at 2\n"),
    (38, "truncated at 3\n"),
    (38, "truncated at 4\n"),
    (38, "truncated at 5\n"),
    (66, "truncated at 6\n"),
    (93, "truncated at 7\n"),
    (93, "truncated at 8\n"),
    (93, "truncated at 9\n"),
    (113, "truncated at 10\n"),
    (113, "truncated at 11\n"),
    (151, "truncated at 12\n"),
    (171, "truncated at 13\n"),
    (225, ""),
];

/// Returns whether a prefix of `NESTED` yields this part of its lines, and then this line.
fn is_nested_front(
    alloc: Global,
    set: &Templates,
    len: usize,
    decided: usize,
    close: &str,
) -> bool {
    let mut source = FromBytes::new(NESTED.get(..len).unwrap_or(&[]));
    let mut cells = [0; 512];
    let mut target = Watched::new(Taker::whole(&mut cells));
    let end = show(alloc, set, LENIENT, false, 100, &mut source, &mut target);
    let due = if close.is_empty() {
        ShowEnd::Good
    } else {
        ShowEnd::Truncated(len as u64)
    };
    let taker = target.into_inner();
    let shown = taker.bytes();
    let (front, last) = shown.split_at(decided.min(shown.len()));
    end == Ok(due)
        && Some(front) == NESTED_LINES.as_bytes().get(..decided)
        && last == close.as_bytes()
}

#[test]
fn a_nested_message_cut_anywhere(rt: HostRuntime) {
    let set = built_in_set(&rt, rt.alloc());
    for (len, (decided, close)) in NESTED_FRONTS.iter().enumerate() {
        let is_right = is_nested_front(rt.alloc(), &set, len, *decided, close);
        expect(&rt, is_right, "a nested message that is cut", len);
    }
}
