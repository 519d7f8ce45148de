//! The reasons for which a message is refused.

use std::alloc::AllocError;
use std::error::Error;
use std::fmt;

/// The fault for which a message is not encoded. The whole message is checked for E1, then for E2, then for E4. E3 and R9 come last: of
/// the two, the one of the earlier instruction is reported.
#[derive(Clone, Copy, Debug, PartialEq, Eq)]
pub enum EncodeFault {
    /// The template set has no template of this number, or that template has no identifier.
    E1,
    /// The message does not suit its template: the number of its slots, a type, a value outside the range of its type, or a mandatory field
    /// that is absent.
    E2,
    /// The previous values leave no way to send a value: a constant that differs from the field's, a delta or a tail whose base is missing
    /// or of another type, or a tail that would be shorter than its base.
    E3,
    /// A string or byte vector is longer than `max_text`, a sequence has more elements than `max_elements`, or all sequences together have
    /// more than `max_total`.
    E4,
    /// An ASCII string that would be sent begins with a zero character.
    R9,
    /// An allocation failed.
    Memory,
}

impl EncodeFault {
    ghost use Rattle.std.specs.Prelude.{◌≡◌};
    ghost use Rattle.fast_spelling.specs.meaning.Codes.{encode_number, encode_text};

    /// Returns the number of the fault, for callers that cannot receive an enum. No number is ever given to another fault.
    pub fn number(self) -> u8
        ensures { result ≡ encode_number self }
    {
        match self {
            EncodeFault::E1 => 1,
            EncodeFault::E2 => 2,
            EncodeFault::E3 => 3,
            EncodeFault::E4 => 4,
            EncodeFault::R9 => 5,
            EncodeFault::Memory => 6,
        }
    }

    /// Returns the name of the fault, such as `E1`. `Display` writes a sentence instead.
    pub fn name(self) -> &'static str
        ensures { result.now ≡ encode_text self }
    {
        match self {
            EncodeFault::E1 => "E1",
            EncodeFault::E2 => "E2",
            EncodeFault::E3 => "E3",
            EncodeFault::E4 => "E4",
            EncodeFault::R9 => "R9",
            EncodeFault::Memory => "Memory",
        }
    }
}

impl fmt::Display for EncodeFault {
    fn fmt<W: fmt::Write>(&self, f: &mut fmt::Formatter<W>) -> fmt::Result {
        f.write_str(match self {
            EncodeFault::E1 => "no template has the number, or that template has no identifier",
            EncodeFault::E2 => "the message does not suit its template",
            EncodeFault::E3 => "the previous values leave no way to send a value",
            EncodeFault::E4 => "a text or a number of elements is over its limit",
            EncodeFault::R9 => "an ASCII string that would be sent begins with a zero character",
            EncodeFault::Memory => "there is no memory left",
        })
    }
}

impl Error for EncodeFault {}

impl From<AllocError> for EncodeFault {
    ghost use Rattle.std.specs.Prelude.{◌≡◌};
    ghost use Rattle.fast_spelling.specs.declared.faults.EncodeFault.TheVariants.{Memory};

    ghost from_gives = { λ _ fault. fault ≡ Memory };

    fn from(_error: AllocError) -> EncodeFault {
        EncodeFault::Memory
    }
}
