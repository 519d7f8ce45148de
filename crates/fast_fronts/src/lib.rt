//! Integers at the front of the bytes that are left: FAST 1.1, Transfer Encoding, eight bytes at a time.
//!
//! The crate fast_wire defines the value of an entity; here an entity is found, and read as one word if it has at most eight bytes.
#![tactic(auto)]

mod fronts;
mod rest;
mod whole;
mod words;

pub use fronts::{
    First, first_nullable_signed, first_nullable_unsigned, first_signed, first_unsigned,
};
pub use rest::Rest;
pub use whole::{one_byte_delta, whole_delta, whole_signed, whole_unsigned};
pub use words::{ShortEntity, short_entity};
