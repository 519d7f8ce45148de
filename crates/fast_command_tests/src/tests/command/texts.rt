//! Tests of inputs that are read whole, and of their template sets.

use super::super::expect;
use fast_command::{RunFault, read_templates, read_whole};
use fast_template::{StaticCode, StaticFault};
use fast_text::FromBytes;
use std::alloc::Global;

#[test]
fn a_text_is_read_to_its_end(rt: HostRuntime) {
    let text = [b'a'; 10_000];
    let mut source = FromBytes::new(&text);
    let is_whole = match read_whole(rt.alloc(), 10_000, &mut source) {
        Ok(read) => read.as_slice() == text.as_slice(),
        Err(_) => false,
    };
    expect(&rt, is_whole, "whole", text.len());
}

/// Returns the number of templates of the set that is read from these bytes, or why they are refused.
fn count_in(alloc: Global, text: &[u8]) -> Result<u32, RunFault> {
    match read_templates(alloc, &mut FromBytes::new(text)) {
        Ok(set) => Ok(set.count()),
        Err(fault) => Err(fault),
    }
}

#[test]
fn a_set_is_read_of_a_text_that_is_one(rt: HostRuntime) {
    let text = "[[template]]\nname = 'A'\n[[template]]\nname = 'B'";
    let found = count_in(rt.alloc(), text.as_bytes());
    expect(&rt, found == Ok(2), "two templates", 0);
    let refusals: [(&[u8], _, _); 2] = [
        (b"[[template]]\nname = '\xff'", StaticCode::S1, None),
        (
            b"[[template]]\nname = 'A'\n[[template]]\nname = 'A'",
            StaticCode::C1,
            Some(1),
        ),
    ];
    for (text, code, template) in refusals {
        let found = count_in(rt.alloc(), text);
        let due = Err(RunFault::Templates(StaticFault { code, template }));
        expect(&rt, found == due, "refused", text.len());
    }
}
