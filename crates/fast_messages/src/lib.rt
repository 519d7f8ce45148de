//! Reads one message from the lines of its events.
#![tactic(auto)]

pub mod cursors;
pub mod endings;
pub mod faults;
pub mod kinds;
pub mod messages;
pub mod naming;

pub use faults::{LineFault, TextFault};
