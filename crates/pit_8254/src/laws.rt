// What a counter does over whole runs.
ghost use Rattle.pit_8254.specs.Laws.{FollowsPulses, RisesAfterCount, IsLowOncePerCycle, TakesNextCount};

/// OUT and the count are functions of the pulses since the count was complete, however the counter is read in between.
pub fn follows_pulses()
    ensures { FollowsPulses }
{}

/// Mode 0 with the count N has OUT low for N pulses, and high from pulse N + 1 on.
pub fn rises_after_count()
    ensures { RisesAfterCount }
{}

/// Mode 2 with the count N has OUT low exactly after pulse N, 2 N, 3 N and so on: one pulse in N.
pub fn is_low_once_per_cycle()
    ensures { IsLowOncePerCycle }
{}

/// In modes 2 and 3 a new count stands from the end of the running cycle on, and that cycle is still the old count's.
pub fn takes_next_count()
    ensures { TakesNextCount }
{}
