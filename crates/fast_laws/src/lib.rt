//! Laws that need all definitions below them: how the events of a stream relate to a checked template set, and that each message has an
//! encoding or a fault.
#![tactic(auto)]

pub mod laws;
