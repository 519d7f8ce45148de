//! The encoder of FAST 1.1: messages in, bytes out.
#![tactic(auto)]

pub mod encoder;
pub mod laws;
pub mod round_trips;
pub mod threads;

pub use encoder::Encoder;
pub use fast_decoder::MakeError;
pub use fast_spelling::EncodeFault;
pub use round_trips::{RoundTripFault, RoundTripStop, round_trip, round_trip_all};
