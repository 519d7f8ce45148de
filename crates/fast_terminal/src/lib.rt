//! The terminal's part of a run: the colors of lines, and how far the input has been read.
#![tactic(auto)]

pub mod colors;
pub mod meters;
pub mod painted;

pub use colors::{When, is_colored};
pub use meters::Meter;
pub use painted::Painted;
