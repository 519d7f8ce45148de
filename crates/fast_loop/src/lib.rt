//! The loop of the decoder: from op to op of a template set's program, with an arm for each code, over the machine of fast_machine.
#![tactic(auto)]

mod bits;
mod decimal_arms;
mod integer_arms;
mod kind_arms;
mod part_arms;
pub mod pieces;
mod segment_arms;
mod spot;
mod start_arms;
mod text_arms;
mod vector_arms;
mod walking;
