//! Values, types of values, messages and limits of FAST streams.
#![tactic(auto)]

pub mod codes;
pub mod initial;
pub mod kinds;
pub mod messages;
pub mod settings;
pub mod values;

pub use codes::Code;
pub use initial::{InitialFault, parse_initial};
pub use kinds::Kind;
pub use messages::{Item, Message};
pub use settings::{Limits, MAX_TEXT, MIN_TEXT};
pub use values::{Scalar, Value};
