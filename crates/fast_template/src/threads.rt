//! Which values of this crate may cross threads.

use crate::sets::Templates;

fn is_send<T: Send>() {}

fn is_sync<T: Sync>() {}

/// A template set may move to another thread, and any number of threads may share it.
pub fn set_crosses_threads() {
    is_send::<Templates>();
    is_sync::<Templates>();
}
