//! The real-time side as definitions: its state, what releases and picks its threads, its unit, a tick and a run, and the law of
//! priority that its lines meet. The table of its gates stands in a crate of its own.
//!
//! The schedule has a side of memory, threads, interrupt lines, FIFOs and a serial port. It has no interrupt controller and no timer
//! chip, and no guest: of the guest it knows the calls on FIFOs. Threads, FIFOs and lines are those of RTLinux 3; where a rule isn't
//! theirs it says so.
#![tactic(auto)]

ghost use Rattle.priority_schedule.specs.Laws.{AllReleased, ReleasesOneByOne};
ghost use Rattle.priority_schedule.specs.Worked.{Handlers, Order, Releases};

/// What the definitions give on small states: releases, what is on next, and handlers that start.
pub fn worked()
    ensures releases { Releases }
    ensures order { Order }
    ensures handlers { Handlers }
{}

/// A tick that drains releases every thread whose due has come.
pub fn all_released()
    ensures { AllReleased }
{}

/// A loop may release one thread at a time.
pub fn releases_one_by_one()
    ensures { ReleasesOneByOne }
{}
