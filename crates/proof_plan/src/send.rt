//! What may be shared between threads.
use crate::plan::Plan;

fn shares<T: Sync + Send>(_x: &T) {}

/// A plan is shared between threads and moved to others.
pub fn may_be_shared(plan: &Plan) {
    shares(plan);
}
