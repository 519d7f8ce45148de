//! A choice of a stream's messages, and a sink that passes on the events of the chosen ones.
#![tactic(auto)]

pub mod choice;
pub mod laws;
pub mod selected;

pub use choice::{Choice, ChoiceError, UnknownTemplate, templates_named};
pub use selected::{Chooser, Selected};
