//! The encoding of messages: the functions that write a message's bytes, and their laws.
#![tactic(auto)]

pub mod bits;
pub mod checking;
pub mod draft;
pub mod entry;
pub mod faults;
pub mod fields;
pub mod forms;
pub mod integers;
pub mod items;
pub mod known;
pub mod laws;
pub mod ledger;
pub mod measuring;
pub mod messages;
pub mod parts;
pub mod plan;
pub mod quick;
pub mod suiting;
pub mod writing;

pub use faults::EncodeFault;
