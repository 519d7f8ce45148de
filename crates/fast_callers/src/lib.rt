//! Examples of callers of the decoder, to read and to copy: counting messages, the last price of a symbol, and a stream that stops at a
//! fault.
#![tactic(auto)]

pub mod counting;
pub mod prices;
pub mod stopping;

pub use counting::messages_in;
pub use prices::{Columns, Price, last_price};
pub use stopping::{Stopped, up_to_fault};
