//! The position of a decoder in a message: the open segments with their presence maps, and the instructions that are left.
#![tactic(auto)]

pub mod cursor;
pub mod frames;
pub mod map_place;
pub mod pending;
pub mod place;
