//! The field operators.

ghost use Rattle.std.specs.Prelude.{◌≡◌};
ghost use Rattle.fast_tree.specs.meaning.Tree.{operator_uses_bit};

/// The field operators of FAST 1.1 (Template Definition, Field Operators).
#[derive(Clone, Copy, Debug, PartialEq, Eq)]
pub enum Operator {
    /// No operator: the value is always sent.
    None,
    /// The initial value, which is never sent.
    Constant,
    /// The initial value if nothing is sent.
    Default,
    /// The previous value if nothing is sent.
    Copy,
    /// One more than the previous value if nothing is sent.
    Increment,
    /// The difference to the previous value is sent.
    Delta,
    /// The end of a string is sent, and replaces that many bytes of the previous value.
    Tail,
}

impl Operator {
    /// Returns whether a value under the operator, which may be optional, has a bit in the presence map of its segment (FAST 1.1,
    /// Transfer Encoding, Presence Map Utilization).
    #[inline]
    pub fn uses_bit(self, optional: bool) -> bool
        ensures { result ≡ operator_uses_bit self optional }
    {
        match self {
            Operator::None | Operator::Delta => false,
            Operator::Constant => optional,
            Operator::Default | Operator::Copy | Operator::Increment | Operator::Tail => true,
        }
    }
}
