//! Shows a FAST stream as JSON: each message is an object on a line of its own.
#![tactic(auto)]

pub mod brackets;
pub mod json_sink;
pub mod keys;
pub mod values;

pub use json_sink::JsonSink;
pub use keys::Keys;
