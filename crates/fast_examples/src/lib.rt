//! Examples as theorems over the definitions: the events of given bytes, the bytes of given messages, and the meaning of given template
//! files.
//!
//! Each function's contract is the theorem, and the function does nothing. Unless a statement says otherwise, the template set is the
//! built-in one, `vectors`, whose templates are T1 to T19 with identifiers 1 to 19; strings have at most 1024 bytes and sequences at most
//! 1000 elements; and the mode is lenient. Templates and nodes are given by their numbers.
#![tactic(auto)]

pub mod conversions;
pub mod cuts;
pub mod encodings;
pub mod faults;
pub mod initials;
pub mod limits;
pub mod lines;
pub mod messages;
pub mod operators;
pub mod refusals;
pub mod sets;
pub mod texts;
