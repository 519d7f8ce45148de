//! Which values of this crate may cross threads.

use crate::encoder::Encoder;

fn is_send<T: Send>() {}

/// An encoder may move to another thread.
pub fn encoder_crosses_threads<'t>() {
    is_send::<Encoder<'t>>();
}
