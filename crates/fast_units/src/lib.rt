//! The units of FAST streams and the fields that consist of them, from the bytes of a piece to a value.
//!
//! In this crate a *string* is an ASCII string, a Unicode string or a byte vector; a *vector* is one of the last two, whose bytes follow
//! their size.
#![tactic(auto)]

pub mod decimals;
pub mod fields;
pub mod numbers;
pub mod progress;
pub mod scalars;
pub mod scratch;
pub mod source;
pub mod stages;
pub mod text_deltas;
pub mod text_outcomes;
pub mod texts;
pub mod units;
