//! The decoder of FAST streams: bytes in pieces go in, events come out.
#![tactic(auto)]

pub mod decoder;
pub mod laws;
pub mod recorder;
pub mod threads;

pub use decoder::Decoder;
pub use fast_machine::in_hand::Due;
pub use fast_stream::{Event, Fault, FaultCode, MakeError, Sink, Stop};
pub use recorder::{Recorded, Recorder};
