//! A run that shows the chosen messages of a stream by a sink that writes them.
#![tactic(auto)]

pub mod digits;
pub mod outputs;
pub mod runs;

pub use outputs::{Lines, Output};
pub use runs::show_over;
