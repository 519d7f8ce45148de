//! Explanations of refused template files and of faults: the sentence of the code, its position, and what would be valid there.
#![tactic(auto)]

pub mod causes;
mod circles;
mod documents;
mod keys;
pub mod notes;
mod places;
mod shapes;
mod sights;
mod sizes;
pub mod streams;
pub mod tails;
pub mod templates;
pub mod twins;
mod uses;
mod walks;

pub use causes::{Cause, Channel, explain_cause, explain_templates_cause};
pub use notes::{NOTE_ROOM, Note};
pub use streams::explain_stream;
pub use tails::Kept;
pub use templates::explain_templates;
pub use twins::warn_of_twins;
