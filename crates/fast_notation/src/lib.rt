//! The TOML notation of template sets: from a file to its templates, with all faults reported and references expanded.
#![tactic(auto)]

mod building;
mod chains;
mod checks;
pub mod codes;
mod components;
mod cycles;
mod documents;
mod entries;
mod extents;
mod keys;
mod limits;
mod names;
mod operators;
mod passes;
mod read;
mod reading;
mod scopes;
mod segments;
pub mod sets;
mod uses;
mod written;

pub use codes::{StaticCode, StaticFault};
pub use limits::{NESTING_LIMIT, NODE_LIMIT, SEGMENT_LIMIT};
pub use operators::operator_named;
pub use sets::CheckedSet;
