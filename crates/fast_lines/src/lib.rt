//! Lines for events: their definition, and the parser of one line.
#![tactic(auto)]

pub mod bytes;
pub mod forms;
pub mod holding;
pub mod laws;
pub mod numbers;
pub mod texts;
pub mod values;
