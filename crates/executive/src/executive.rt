// The executive's parts.
ghost use Rattle.std.specs.Prelude.{◌≡◌, IfOk};
ghost use Rattle.rt_irqs.specs.Irqs.{IsLines};

use outside_io::NoMemory;
use rt_fifos::Fifos;
use rt_irqs::Irqs;
use rt_ready::Ready;
use rt_threads::Threads;
use rt_timeline::Timeline;
use std::alloc::Global;

/// The executive's parts. Threads, the ready list and the timeline of one executive agree: the ready list has just the ready threads,
/// with their priorities, and the timeline has just the dues of the waiting ones.
#[derive(Drop)]
pub struct Executive {
    pub threads: Threads,
    pub ready: Ready,
    pub timeline: Timeline,
    pub fifos: Fifos,
    pub irqs: Irqs,
}

impl Executive {
    ghost use Rattle.executive.specs.Agreement.{Agrees};
    ghost use Rattle.executive.specs.First.{first_executive};

    /// No thread, line or FIFO. All memory that an executive needs is taken here. In version 2 of the rule the thread that has been ready
    /// longest goes first among those of equal priority, in every other one that which came first.
    #[tactic(auto, unfolding(crate::specs::First::first_executive))]
    pub fn new(alloc: Global, version: u8) -> Result<Executive, NoMemory>
        ensures parts { IfOk result (λ all. all ≡ first_executive version) }
        ensures agrees { IfOk result (λ all. Agrees all) }
        ensures lines { IfOk result (λ all. IsLines all.irqs) }
    {
        Ok(Executive {
            threads: Threads::new(alloc)?,
            ready: Ready::new(alloc, version)?,
            timeline: Timeline::new(alloc)?,
            fifos: Fifos::new(alloc)?,
            irqs: Irqs::new(),
        })
    }
}
