//! Reads lines of events back into messages.
#![tactic(auto)]

pub mod laws;
pub mod messages;

pub use fast_messages::faults::{LineFault, TextFault};
pub use messages::read_lines;
