//! The dues of the waiting threads and of the guest's timer: the nearest one, and the count of the one-shot timer for it.
#![tactic(auto)]

mod order;
mod timeline;

ghost use Rattle.rt_timeline.specs.Laws.{IsNearest};

pub use timeline::{Due, ThreadDue, Timeline};

/// The nearest due is at most each due, and where it is none there is no due.
pub fn nearest_is_least()
    ensures { IsNearest }
{}
