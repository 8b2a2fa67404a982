//! The hardware beside the two machines as definitions: which interrupt lines are latched, when the one-shot timer rises, and the
//! lines that a run says of it.
//!
//! Neither machine sees the hardware. Its state is a function of what both do in a tick: of the lines that rise, of the dues of the
//! waiting threads and of the guest's timer, and of the lines that modules hold.
#![tactic(auto)]

ghost use Rattle.hardware_lines.specs.Worked.{Edges, GuestDues, OwnerChanged, Rises, Served, Shots, Timers};

/// What the definitions give on small states: the one-shot, dues, rises, edges and acknowledgements.
pub fn worked()
    ensures shots { Shots }
    ensures guest_dues { GuestDues }
    ensures rises { Rises }
    ensures edges { Edges }
    ensures served { Served }
    ensures owner_changed { OwnerChanged }
    ensures timers { Timers }
{}
