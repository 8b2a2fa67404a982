// How far the next dues of threads can be.
ghost use Rattle.activity_step.specs.Plans.{LivePlanned, OpensPlanned, PlannedFits, TicksPlanned};

/// A thread's next due grows by a period in a tick at most, so it is below 2^63 in every tick of a run.
pub fn next_dues()
    ensures opens { OpensPlanned }
    ensures ticks { TicksPlanned }
    ensures live { LivePlanned }
    ensures fits { PlannedFits }
{}
