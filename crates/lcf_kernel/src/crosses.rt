//! What may go to other threads.
use crate::kernel::{Kernel, Records};
use crate::thm::{Thm, ThmId};

fn sends<T: Send>(_value: &T) {}

fn shares<T: Send + Sync>(_value: &T) {}

/// A kernel may be sent to another thread, and its records may be shared.
pub fn may_cross(kernel: &Kernel<'_>, records: &Records, thm: &Thm, id: ThmId) {
    sends(kernel);
    shares(kernel);
    shares(records);
    shares(thm);
    shares(&id);
}
