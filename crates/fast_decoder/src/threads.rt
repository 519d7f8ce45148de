//! Which values of this crate may cross threads.

use crate::decoder::Decoder;

fn is_send<T: Send>() {}

/// A decoder may move to another thread.
pub fn decoder_crosses_threads<'t>() {
    is_send::<Decoder<'t>>();
}
