//! Converts the lines of FAST streams back to streams, over readers and writers.
#![tactic(auto)]

pub mod convert;
pub mod laws;

pub use convert::run_convert;
