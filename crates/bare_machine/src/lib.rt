//! The bare machine of the guest, as definitions: its state, its unit, a tick and a run.
//!
//! It has registers, a side of memory from address 0, a serial port, an interrupt flag with its shadow and mask, a set of lines that
//! are asked of it, and a timer. It has no executive, no interrupt controller and no timer chip. It stands still while the
//! real-time lines say that another holds the processor.
#![tactic(auto)]

ghost use Rattle.bare_machine.specs.Laws.{GoOn};

/// The lines of a longer run begin with those of a shorter one.
pub fn longer_runs()
    ensures { GoOn }
{}
