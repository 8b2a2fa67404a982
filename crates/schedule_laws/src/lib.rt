//! Laws of the runs of the bare machine, the priority schedule and the hardware lines, each a function whose clause is the law.
//!
//! `Both` is the two machines side by side, a tick at a time. Its lines are the one pair that meets both equations, so what is
//! proved of it is proved of every such pair.
#![tactic(auto)]

ghost use Rattle.schedule_laws.specs.Laws.{AlwaysTimely, BothRuns, CalmUnlatched, DrainedCalm, GuestDrains, LinesSay, LongerBare, LongerReal, LongerRuns, OneSolution, OutputLosesNothing, PickHolds, Priority, RunReady, ThreadsSeen, TickDrains, TickReady, TickTimely, TwoGuests, UnitsShow};

/// For each guest start, real-time start, script and number of ticks there is exactly one pair of guest lines and real-time lines
/// that meets both equations.
pub fn one_solution()
    ensures { OneSolution }
{}

/// The two machines side by side, a tick at a time, are the run that the definitions give, with its lines, its output and its states.
pub fn both_runs()
    ensures { BothRuns }
{}

/// The lines of a longer run begin with those of a shorter one: of each machine beside the same lines of the other, and of the
/// solutions of both, with the hardware's lines and all in one order.
pub fn longer_runs()
    ensures real { LongerReal }
    ensures bare { LongerBare }
    ensures both { LongerRuns }
{}

/// The lines of both halves and of the hardware are those of a run's output.
pub fn output_loses_nothing()
    ensures { OutputLosesNothing }
{}

/// Two guests that make equal calls have equal real-time lines.
pub fn two_guests()
    ensures { TwoGuests }
{}

/// The real-time lines of every run keep the law of priority, and each ready thread is live.
pub fn priority()
    ensures { Priority }
{}

/// What the real-time lines say is what the state holds: who is on, and which lines modules hold.
pub fn lines_say()
    ensures { LinesSay }
{}

/// The lines of a tick name what was picked as the holder.
pub fn pick_holds()
    ensures { PickHolds }
{}

/// A tick's reply, and the lines that it marks for the guest, are those of its unit.
pub fn units_show()
    ensures { UnitsShow }
{}

/// Each tick keeps that the one-shot serves the nearest due, in the device step and as a whole, from whatever state it does.
pub fn tick_timely()
    ensures { TickTimely }
{}

/// In a tick that drains, no line is latched and nothing is due between its drain and its unit.
pub fn drained_calm()
    ensures { DrainedCalm }
{}

/// After each tick the one-shot serves the nearest due, the guest's included.
pub fn always_timely()
    ensures { AlwaysTimely }
{}

/// Where the one-shot hasn't latched line 0, every due is above the tick, and nothing is released.
pub fn calm_unlatched()
    ensures { CalmUnlatched }
{}

/// The guest is picked only in a tick that drains.
pub fn guest_drains()
    ensures tick { TickDrains }
    ensures run { GuestDrains }
{}

/// The ready list is just the threads in state ready, each once, and there are 64 places for threads.
pub fn threads_stay()
    ensures tick { TickReady }
    ensures run { RunReady }
{}

/// The live threads with their priorities, and the ready ones in their order, are those that are read off the real-time lines.
pub fn threads_seen()
    ensures { ThreadsSeen }
{}
