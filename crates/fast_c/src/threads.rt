//! Which handles may cross threads.

use crate::decoding::DecoderHandle;
use crate::encoding::EncoderHandle;
use crate::sets::SetHandle;

fn is_send<T: Send>() {}

/// The pointers that C has may move to another thread.
pub fn handles_cross_threads() {
    is_send::<SetHandle>();
    is_send::<DecoderHandle>();
    is_send::<EncoderHandle>();
}
