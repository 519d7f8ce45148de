//! Fields that are read from the bytes that they begin with: one function for all types and operators, whose result is that of the
//! definition. It knows no piece, and keeps nothing of a field that is not complete; a carry keeps the bytes of a field that pieces split,
//! and reads it again.
#![tactic(auto)]

mod begun;
pub mod carry;
mod numbers;
pub mod reading;
mod whole;
