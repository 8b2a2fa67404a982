//! What the guest and the real-time side reach, and what they may not do: their buses over lent memory and a lent board, and
//! their units, with the first breach of the guest and the fault of a real-time activity.
#![tactic(auto)]

mod access;
mod buses;
mod guest;
mod laws;
mod real_time;

pub use buses::{GuestBus, GuestPorts, OwnerBus, PortOwner, RealTimeBus, RealTimePorts};
pub use guest::{Breach, GuestUnit, guest_unit, guest_unit_on};
pub use laws::{
    access_leaves_others, real_time_keeps_others, real_time_of_serial, unit_keeps_others,
    unit_of_serial,
};
pub use line_kinds::FaultKind as Fault;
pub use real_time::{RealTimeUnit, real_time_unit, real_time_unit_on};
