//! The mode and the limits of a decoder or an encoder.

/// The least value of `max_text`, in bytes.
pub const MIN_TEXT: usize = 16;

/// The greatest value of `max_text`, in bytes.
pub const MAX_TEXT: usize = 1_048_576;

/// The mode and the limits of a decoder or an encoder.
#[derive(Clone, Copy, Debug, PartialEq, Eq)]
pub struct Limits {
    /// If set, an encoding that is longer than it needs to be is a fault (R6, R7, R8).
    pub strict: bool,
    /// The greatest length of a string or byte vector, in bytes: `MIN_TEXT` to `MAX_TEXT`.
    pub max_text: usize,
    /// The most elements of one sequence.
    pub max_elements: u32,
    /// The most elements of all sequences of one message, nested ones included.
    pub max_total: u32,
}

impl Default for Limits {
    ghost use Rattle.std.specs.Prelude.{◌≡◌};
    ghost use Rattle.fast_value.specs.meaning.Limits.{default_limits};

    ghost is_default = { λ limits. limits ≡ default_limits };

    /// Returns lenient mode, strings and byte vectors of at most 1,024 bytes, and at most 1,000 elements in a sequence and in a message.
    fn default() -> Limits {
        Limits {
            strict: false,
            max_text: 1024,
            max_elements: 1000,
            max_total: 1000,
        }
    }
}
