//! The arguments of a call of fastcat, parsed to a plan.
#![tactic(auto)]

pub mod decisions;
pub mod plans;
pub mod words;

pub use decisions::{Conflict, Origin, STANDARD_INPUT};
pub use plans::{BUILT_IN, Plan, Task};
pub use words::plan;
