//! Laws of streams, and of the bytes and events that a decoder has read.

pub use crate::decoder::{headline, read_bounds_events, read_bounds_messages, read_is_stream};
pub use fast_stream::laws::{
    begun_bound, body_parts, element_within, events_bound, faults_stay, message_bound,
    message_caps, message_events, one_answer, read_back, reading_in_pieces, reading_is_the_stream,
    some_answer, strict_is_lenient,
};
