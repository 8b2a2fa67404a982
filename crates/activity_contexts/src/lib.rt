//! The contexts of activities: the processor's registers are those of what is on, and each other one's are kept. So the threads are
//! those that are kept, with the registers of the one that is on over them, and a gate that is proved over the threads as they are kept
//! is one of the threads as they are.
#![tactic(auto)]

mod contexts;

ghost use Rattle.activity_contexts.specs.Laws.{FaultsKeepContexts, GatesKeepContexts, HasOverlaid, LastOverlaid, LiveGates, NoneOverlaid, ReturnsKeepContexts};

pub use contexts::switch;

/// A gate, a fault and a return of any activity neither read nor change the registers of a live thread.
pub fn gates_keep_contexts()
    ensures gates { GatesKeepContexts }
    ensures live { LiveGates }
    ensures faults { FaultsKeepContexts }
    ensures returns { ReturnsKeepContexts }
{}

/// Registers over those of a thread: the last ones are the thread's, and a thread that isn't live takes none.
pub fn overlays()
    ensures none { NoneOverlaid }
    ensures last { LastOverlaid }
    ensures own { HasOverlaid }
{}
