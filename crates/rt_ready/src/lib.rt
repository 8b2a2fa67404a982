//! The ready threads, and which of them goes first.
#![tactic(auto)]

mod ready;
mod renumber;

ghost use Rattle.rt_ready.specs.Laws.{IsGreatest, IsLongestReady, IsThere};
ghost use Rattle.rt_ready.specs.Worked.{Picks};

pub use ready::{Place, Ready};

/// Which of small lists of threads goes first, in both versions of the rule.
pub fn worked()
    ensures { Picks }
{}

/// Whoever goes first is of the greatest priority, in version 2 the longest ready among those of that priority, and where a thread is
/// ready, one goes first.
pub fn first_is_greatest()
    ensures greatest { IsGreatest }
    ensures longest_ready { IsLongestReady }
    ensures there { IsThere }
{}
