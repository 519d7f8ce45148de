//! Explanations of lines, messages and hexadecimal digits that are refused: the position, what is found there and what is expected.
#![tactic(auto)]

pub mod digits;
mod forms;
mod heads;
pub mod lines;
pub mod messages;
mod misfits;
mod nodes;
mod pitfalls;
mod places;
pub mod stored;
mod strings;
mod values;
mod walks;

pub use digits::{Digits, explain_digits, explain_dump};
pub use lines::explain_line;
pub use messages::explain_message;
pub use stored::Stored;
