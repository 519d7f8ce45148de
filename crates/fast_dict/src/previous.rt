//! The contents of a dictionary entry.

ghost use Rattle.std.specs.Prelude.{◌≡◌, option_map};
ghost use Rattle.fast_value.specs.meaning.Values.{scalar_data};
ghost use Rattle.fast_dict.specs.meaning.Dictionary.{value_in};
ghost use Rattle.fast_dict.specs.meaning.Previous.{previous_data};

use fast_value::{Kind, Scalar};

/// The previous value of a dictionary entry (FAST 1.1, Dictionaries and Previous Values). A string is borrowed from the dictionary.
#[derive(Clone, Copy, Debug)]
pub enum Previous<'a> {
    /// Nothing has been stored since the entry was reset.
    Undefined,
    /// The field that was stored last was absent.
    Empty,
    /// The value that was stored last, and the type of the field that stored it.
    Assigned(Kind, Scalar<'a>),
}

impl<'a> Previous<'a> {
    /// Returns the value that is held, if there is one.
    pub fn value(self) -> Option<Scalar<'a>>
        ensures { option_map scalar_data result ≡ value_in (previous_data self.entry) }
    {
        match self {
            Previous::Assigned(_, value) => Some(value),
            Previous::Undefined | Previous::Empty => None,
        }
    }
}
