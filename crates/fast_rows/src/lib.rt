//! The rows of a stream with its bytes: an offset, bytes, and a line or a note.
#![tactic(auto)]

pub mod bits;
pub mod columns;
pub mod notes;
pub mod rows;

pub use notes::{Note, Part, Word};
pub use rows::{write_closing_columns, write_event, write_map, write_note};
