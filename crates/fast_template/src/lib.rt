//! Template sets of FAST streams: read from a TOML file and kept in the form that a decoder walks.
#![tactic(auto)]

mod caps;
mod programs;
pub mod queries;
mod read;
pub mod sets;
mod texts;
pub mod threads;
pub mod vectors;
mod widths;

pub use fast_notation::{NESTING_LIMIT, NODE_LIMIT, SEGMENT_LIMIT, StaticCode, StaticFault};
pub use fast_tree::{FieldInstruction, Node, Operator, Shape, Template};
pub use sets::Templates;
pub use vectors::VECTORS;
