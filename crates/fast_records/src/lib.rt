//! Events as records of fixed size, in the caller's buffers. Other languages receive events in this form.
#![tactic(auto)]

pub mod encoding;
pub mod feeding;
pub mod lent;
pub mod putting;
pub mod records;
mod room;
pub mod sink;
mod starting;
pub mod status;
pub mod waiting;

pub use encoding::{PutRefusal, put_records};
pub use feeding::{Fed, Outcome, feed_records};
pub use putting::{PutFault, message_of_records};
pub use records::Record;
pub use status::Status;
pub use waiting::Waiting;
