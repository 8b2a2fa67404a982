//! Two steps of a tick of the real-time side, over the executive's parts: the releases of the threads whose due has come, and the pick
//! of what is on the processor.
#![tactic(auto)]

mod choice;
mod releases;

ghost use Rattle.schedule_steps.specs.Laws.{PicksKeepContexts, ReleasesKeepContexts};

pub use choice::pick;
pub use releases::release_dues;

/// Releases and the pick come to the same over the threads as they are kept and over those of which the one that is on has the registers
/// that are in the processor.
pub fn steps_keep_contexts()
    ensures releases { ReleasesKeepContexts }
    ensures picks { PicksKeepContexts }
{}
