//! Runs of the decoder and the encoder over streams in memory, for measurements and for tests with a heap that refuses allocations. Their
//! results are numbers; their contracts promise only that they return.
#![tactic(auto)]

mod again;
mod callers;
mod cuts;
mod decoding;
mod encoding;
mod records;
mod sinks;
mod stops;
mod trees;

pub use crate::again::{AllWays, all_ways};
pub use crate::callers::{Called, call_all};
pub use crate::cuts::{Cuts, cut_everywhere};
pub use crate::decoding::{Answer, decode};
pub use crate::encoding::{Encoded, encode};
pub use crate::records::decode_records;
pub use crate::stops::{Runs, stop_and_decode};
