//! `show --bytes`: a stream as lines, each after its offset and its bytes.
#![tactic(auto)]

pub mod dump;
pub mod kept_bytes;
pub mod page;
pub mod tracks;

pub use dump::dump_all;
