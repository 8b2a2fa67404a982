//! What the machine is made of, and which states of the definitions it stands for.
//!
//! The steps of a tick stand on this. Each of them changes some of these parts, and its contract says what becomes of the states that
//! they stand for.
#![tactic(auto)]

mod change;
mod guest;
mod inits;
mod processor;

ghost use Rattle.machine_state.specs.Laws.{KnowsNextDue, ReadyIsLive, Stands};

pub use change::DueChange;
pub use guest::Guest;
pub use inits::{Inits, MODULES_LIMIT};
pub use processor::Processor;

/// A machine between two ticks stands for its bare state, its real-time state and its hardware state by all seven points.
pub fn stands()
    ensures { Stands }
{}

/// The nearest due of the timeline is that of both machines that it stands for.
pub fn knows_next_due()
    ensures { KnowsNextDue }
{}

/// A thread that is on is live, since it is ready.
pub fn ready_is_live()
    ensures { ReadyIsLive }
{}
