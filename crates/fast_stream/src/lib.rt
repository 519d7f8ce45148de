//! The meaning of a FAST stream: events, the relation between bytes and events, and its laws.
#![tactic(auto)]

pub mod events;
pub mod faults;
pub mod laws;

pub use events::{Event, Sink, Stop};
pub use faults::{Fault, FaultCode, MakeError};
