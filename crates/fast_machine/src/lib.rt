//! The machine of the decoder: it reads the units of a message one after the other, and emits the events that they decide.
#![tactic(auto)]

mod field_units;
pub mod heads;
pub mod in_hand;
pub mod layout;
pub mod machine;
mod making;
mod part_turns;
mod quick_starts;
mod segments;
pub mod sequence_turns;
pub mod settling;
mod stepping;
pub mod taking;
mod turning;
pub mod turns;
