//! Template sets, apart from any file: their tree, and the form in which they are stored.
#![tactic(auto)]

pub mod instructions;
pub mod operators;

pub use instructions::{FieldInstruction, Node, Shape, Template};
pub use operators::Operator;
