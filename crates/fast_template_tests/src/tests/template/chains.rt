//! References: cycles, chains that are too long or too deep, and too many nodes.

use super::{Due, expect_fault, joined, put};
use fast_template::StaticCode;
use itoa::Buffer;
use std::alloc::{AllocError, Global};
use std::process::Abort;
use std::test::Fail;

/// Adds a letter. Without a contract, so that a call is cheap to prove.
fn push_letter(text: &mut String, letter: char) -> Result<(), AllocError> {
    text.push(letter)
}

/// Adds the template item that a letter of a name list stands for.
fn put_letter(text: &mut String, k: usize, letter: char) -> Result<(), AllocError> {
    let (before, after) = match k {
        0 => (
            "[[template]]\nname='",
            "'\nfields=[{kind='uInt32', name='x'}",
        ),
        _ => (", {kind='ref', name='", "'}"),
    };
    put(text, &[before])?;
    push_letter(text, letter)?;
    put(text, &[after])
}

/// Adds the template of a name list.
fn put_word(text: &mut String, word: &str) -> Result<(), AllocError> {
    for (k, letter) in word.chars().enumerate() {
        put_letter(text, k, letter)?;
    }
    put(text, &["]\n"])
}

/// Returns a file with a template for each name list: its first letter is the name, the others are the names to which it refers.
fn references(alloc: Global, words: &[&str]) -> Result<String, AllocError> {
    let mut text = String::new(alloc);
    for word in words {
        put_word(&mut text, word)?;
    }
    Ok(text)
}

/// Adds a reference to the template of a letter and a number, within these brackets.
fn put_reference(
    text: &mut String,
    letter: &str,
    number: &str,
    (open, close): (&str, &str),
) -> Result<(), AllocError> {
    let piece = "{kind='ref', name='";
    put(text, &[open, piece, letter, number, "'}", close, ", "])
}

/// Adds this number of references.
fn put_references(
    text: &mut String,
    letter: &str,
    number: u32,
    times: u32,
    brackets: (&str, &str),
) -> Result<(), AllocError> {
    let mut buffer = Buffer::new();
    let number = buffer.format(number);
    for _ in 0..times {
        put_reference(text, letter, number, brackets)?;
    }
    Ok(())
}

/// Adds the template of a letter and a number.
fn put_link(
    text: &mut String,
    letter: &str,
    number: u32,
    times: u32,
    brackets: (&str, &str),
) -> Result<(), AllocError> {
    let mut buffer = Buffer::new();
    let name = buffer.format(number);
    put(text, &["[[template]]\nname='", letter, name, "'\nfields=["])?;
    match number.checked_sub(1) {
        Some(before) => put_references(text, letter, before, times, brackets)?,
        None => put(text, &[brackets.0, "{kind='uInt32', name='x'}", brackets.1])?,
    }
    put(text, &["]\n"])
}

/// Returns a file of templates, each named by a letter and a number, of which the first has a field and each other refers this many times
/// to the one before, all of them within these brackets.
fn chain(
    alloc: Global,
    letter: &str,
    count: u32,
    times: u32,
    brackets: (&str, &str),
) -> Result<String, AllocError> {
    let mut text = String::new(alloc);
    for number in 0..count {
        put_link(&mut text, letter, number, times, brackets)?;
    }
    Ok(text)
}

const PLAIN: (&str, &str) = ("", "");

const GROUPS: (&str, &str) = ("{kind='group', name='g', fields=[", "]}");

const SEQUENCES: (&str, &str) = ("{kind='sequence', name='s', fields=[", "]}");

/// Name lists, and the first template of a cycle.
const CYCLES: &[(&[&str], Option<u32>)] = &[
    (&["AA"], Some(0)),
    (&["A", "BA", "CBC"], Some(2)),
    (&["AB", "BA"], Some(0)),
    (&["AB", "BB"], Some(1)),
    (&["AC", "BC", "CB"], Some(1)),
    (&["AD", "B", "CAB", "DE", "EBD"], Some(3)),
    (&["ADC", "BD", "CB", "DC"], Some(1)),
    (&["AE", "BEA", "CB", "DC", "ECD"], Some(0)),
    (&["ABBC", "BC", "C"], None),
];

/// Checks that the templates of these name lists refer to one another in a cycle, or in none.
fn expect_cycle(
    rt: &impl Abort,
    alloc: Global,
    words: &[&str],
    template: Option<u32>,
) -> Result<(), Fail> {
    let text = references(alloc, words)?;
    let want = match template {
        Some(_) => Some((StaticCode::C3, template)),
        None => None,
    };
    expect_fault(rt, alloc, text.as_str(), want, text.as_str());
    Ok(())
}

/// The start of a template that refers to itself, for use within two pairs of brackets.
const BEFORE: &str = "[[template]]\nname='A'\nfields=[";

const ITSELF: &str = "{kind='ref', name='A'}";

/// Checks that a template that refers to itself within these brackets twice is a cycle.
fn expect_cycle_within(
    rt: &impl Abort,
    alloc: Global,
    (open, close): (&str, &str),
) -> Result<(), Fail> {
    let text = joined(alloc, &[BEFORE, open, open, ITSELF, close, close, "]"])?;
    let want = Some((StaticCode::C3, Some(0)));
    expect_fault(rt, alloc, text.as_str(), want, open);
    Ok(())
}

#[test]
fn cycles_of_references(rt: HostRuntime) -> Result<(), Fail> {
    for (words, template) in CYCLES {
        expect_cycle(&rt, rt.alloc(), words, *template)?;
    }
    expect_cycle_within(&rt, rt.alloc(), GROUPS)?;
    expect_cycle_within(&rt, rt.alloc(), SEQUENCES)
}

/// Checks that a chain of this number of templates, after a template in front, has this fault.
fn expect_chain(
    rt: &impl Abort,
    alloc: Global,
    (before, letter): (&[&str], &str),
    brackets: (&str, &str),
    (count, want): (u32, Due),
) -> Result<(), Fail> {
    let front = references(alloc, before)?;
    let links = chain(alloc, letter, count, 1, brackets)?;
    let text = joined(alloc, &[front.as_str(), links.as_str()])?;
    expect_fault(rt, alloc, text.as_str(), want, brackets.0);
    Ok(())
}

const LONGEST: (u32, Due) = (65, None);

const TOO_LONG: (u32, Due) = (66, Some((StaticCode::C4, Some(65))));

const DEEPEST: (u32, Due) = (64, None);

const TOO_DEEP: (u32, Due) = (65, Some((StaticCode::C4, Some(65))));

/// A chain of 17 references.
const LONG: (u32, Due) = (18, None);

/// Groups within one another, 17 of them.
const DEEP: (u32, Due) = (17, None);

/// The templates in front, the letter, the brackets, the count, and the expected fault.
type Chain = (
    (&'static [&'static str], &'static str),
    (&'static str, &'static str),
    (u32, Due),
);

const CHAINS: &[Chain] = &[
    ((&[], "B"), PLAIN, LONG),
    ((&[], "B"), PLAIN, LONGEST),
    ((&[], "B"), PLAIN, TOO_LONG),
    ((&["A"], "G"), GROUPS, DEEP),
    ((&["A"], "G"), GROUPS, DEEPEST),
    ((&["A"], "G"), GROUPS, TOO_DEEP),
    ((&["A"], "G"), SEQUENCES, DEEPEST),
    ((&["A"], "G"), SEQUENCES, TOO_DEEP),
];

#[test]
fn the_longest_and_the_deepest_chain(rt: HostRuntime) -> Result<(), Fail> {
    for (names, brackets, due) in CHAINS {
        expect_chain(&rt, rt.alloc(), *names, *brackets, *due)?;
    }
    Ok(())
}

/// The number of templates in a chain of which each refers twice to the one before, the name lists after it, and the expected fault.
type Doubled = (u32, &'static [&'static str], Due);

/// The third is of 65,535 nodes and two more, and the fourth of two more than that.
const DOUBLED: &[Doubled] = &[
    (41, &[], Some((StaticCode::C6, Some(16)))),
    (16, &["Y"], None),
    (16, &["Y", "Z"], Some((StaticCode::C6, Some(17)))),
];

/// Checks that a chain of templates of which each refers twice to the one before, followed by name lists, has this fault.
fn expect_doubled(rt: &impl Abort, alloc: Global, row: &Doubled) -> Result<(), Fail> {
    let (count, words, want) = row;
    let many = chain(alloc, "A", *count, 2, PLAIN)?;
    let behind = references(alloc, words)?;
    let text = joined(alloc, &[many.as_str(), behind.as_str()])?;
    expect_fault(rt, alloc, text.as_str(), *want, "doubled");
    Ok(())
}

#[test]
fn the_most_nodes(rt: HostRuntime) -> Result<(), Fail> {
    for row in DOUBLED {
        expect_doubled(&rt, rt.alloc(), row)?;
    }
    Ok(())
}

/// A file with one of the three faults.
#[derive(Clone, Copy)]
enum Part {
    /// A cycle.
    Cycle,
    /// A chain that is too long.
    Long,
    /// Too many nodes.
    Many,
}

/// Returns the file of a part.
fn text_of(alloc: Global, part: Part) -> Result<String, AllocError> {
    match part {
        Part::Cycle => references(alloc, &["CC"]),
        Part::Long => chain(alloc, "B", 66, 1, PLAIN),
        Part::Many => chain(alloc, "A", 17, 2, PLAIN),
    }
}

/// A part, another after it, and the fault of both together.
type Both = (Part, Part, StaticCode, u32);

const BOTH: &[Both] = &[
    (Part::Long, Part::Cycle, StaticCode::C3, 66),
    (Part::Many, Part::Cycle, StaticCode::C3, 17),
    (Part::Many, Part::Long, StaticCode::C4, 82),
    (Part::Long, Part::Many, StaticCode::C4, 65),
];

/// Checks that the first part followed by the second has this fault.
fn expect_both(rt: &impl Abort, alloc: Global, row: &Both) -> Result<(), Fail> {
    let (first, second, code, template) = row;
    let first = text_of(alloc, *first)?;
    let second = text_of(alloc, *second)?;
    let text = joined(alloc, &[first.as_str(), second.as_str()])?;
    let want = Some((*code, Some(*template)));
    expect_fault(rt, alloc, text.as_str(), want, "both");
    Ok(())
}

#[test]
fn cycles_before_chains_before_nodes(rt: HostRuntime) -> Result<(), Fail> {
    for row in BOTH {
        expect_both(&rt, rt.alloc(), row)?;
    }
    Ok(())
}
