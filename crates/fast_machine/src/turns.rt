//! A count of turns that only proofs read.

ghost use Rattle.std.specs.Prelude.{◌≡◌, ℕ, ◌+◌};
ghost use Rattle.std.specs.Borrow.{ftrue};

use std::marker::Model;

/// The number of turns that a machine has made. It has no bytes at run time.
#[derive(Drop)]
pub struct Turns {
    pub ghost count: { ℕ },
}

impl Model for Turns {
    ghost also_owns = { λ _. ftrue };
}

// It owns nothing.
unsafe impl Send for Turns {}

impl Turns {
    /// Returns a count of no turn.
    #[inline]
    pub fn none() -> Turns
        ensures { result.count ≡ 0 }
    {
        Turns {}
    }

    /// Returns a count of one turn more.
    #[inline]
    pub fn after(before: &Turns) -> Turns
        ensures { result.count ≡ before.now.count + 1 }
    {
        let _ = before;
        Turns {}
    }
}
