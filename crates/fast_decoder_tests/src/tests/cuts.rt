//! Strings that go on after the bytes of a piece, and are known to do so: a decoder emits the same events if they are not.

use super::expect;
use fast_items::begun_texts::{begun_vector, is_text_front};
use fast_template::Operator;
use fast_units::stages::Stage;
use fast_value::Kind;

/// The most bytes that a string may have here.
const ROOM: usize = 16;

/// Returns the number of bytes of a vector that goes on after these, and the offset at which they begin.
fn begun(rest: &[u8], optional: bool) -> Option<(usize, usize)> {
    let begun = begun_vector(Kind::Bytes, optional, Operator::None, rest, false, ROOM)?;
    match begun.stage {
        Stage::Vector(size) => Some((size, begun.from)),
        _ => None,
    }
}

/// Returns whether these bytes begin an ASCII string that goes on after them.
fn goes_on(rest: &[u8]) -> bool {
    is_text_front(rest, ROOM)
}

#[test]
fn vectors_that_go_on(rt: HostRuntime) {
    let of = "a vector that goes on";
    expect(
        &rt,
        begun(&[0x83, 0x41, 0x42], false) == Some((3, 1)),
        of,
        0,
    );
    expect(&rt, begun(&[0x84, 0x41], true) == Some((3, 1)), of, 1);
    expect(&rt, begun(&[0x81], false) == Some((1, 1)), of, 2);
    expect(&rt, begun(&[0x90], false) == Some((16, 1)), of, 3);
    let of = "a vector that does not, or is too long";
    expect(&rt, begun(&[0x82, 0x41, 0x42], false).is_none(), of, 4);
    expect(&rt, begun(&[0x80], false).is_none(), of, 5);
    expect(&rt, begun(&[0x91, 0x41], false).is_none(), of, 6);
    expect(&rt, begun(&[0x01], false).is_none(), of, 7);
}

#[test]
fn texts_that_go_on(rt: HostRuntime) {
    let of = "an ASCII text that goes on";
    expect(&rt, goes_on(&[0x41]), of, 0);
    expect(&rt, goes_on(&[0x41, 0x00, 0x7F]), of, 1);
    expect(&rt, goes_on(&[0x41; 16]), of, 2);
    let of = "an ASCII text that does not, or may not be one";
    expect(&rt, !goes_on(&[]), of, 3);
    expect(&rt, !goes_on(&[0x00, 0x41]), of, 4);
    expect(&rt, !goes_on(&[0x41, 0xC2]), of, 5);
    expect(&rt, !goes_on(&[0x41; 17]), of, 6);
}
