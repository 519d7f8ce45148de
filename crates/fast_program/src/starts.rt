//! Where the messages of a template start.

ghost use Rattle.std.specs.Prelude.{◌≡◌};
ghost use Rattle.fast_program.specs.device.Starts.{id_number};

use fast_tree::Template;

/// The number that stands for the identifier of a template that has none.
const NO_ID: u64 = u64::MAX;

/// The start of a template's messages: all that a decoder needs of the template there, in one record.
#[derive(Clone, Copy, Debug)]
pub struct Start {
    /// The template identifier, or the greatest of 64 bits for none.
    pub id: u64,
    /// The index in the program at which its body begins.
    pub at: usize,
    /// If set, a message of the template resets the dictionary.
    pub reset: bool,
    /// The number of the template in its set.
    pub number: u32,
}

impl Start {
    /// Returns the start of the template with this number, whose body begins at `at`.
    pub fn of(template: &Template, number: u32, at: usize) -> Start
        ensures id { result.id ≡ id_number template.now.id }
        ensures at { result.at ≡ at }
        ensures reset { result.reset ≡ template.now.reset }
        ensures number { result.number ≡ number }
    {
        let id = match template.id {
            Some(id) => u64::from(id),
            None => NO_ID,
        };
        Start {
            id,
            at,
            reset: template.reset,
            number,
        }
    }
}
