//! Template sets as programs: the few bytes that a decoder's loop needs of each node.
#![tactic(auto)]

pub mod codes;
pub mod ops;
pub mod programs;
pub mod starts;

pub use codes::Code;
pub use ops::Op;
pub use programs::Program;
pub use starts::Start;
