//! Tests of all that no clause says, and of each public call once.

mod dict;
mod template;
mod value;
mod wire;

use std::process::Abort;

/// Makes one comparison, under the name that a test gives it.
fn expect(rt: &impl Abort, is_right: bool, of: &str, at: usize) {
    assert!(rt; is_right, "{of} ({at})");
}
