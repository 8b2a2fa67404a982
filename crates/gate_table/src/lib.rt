//! The table of the gates of real-time activities, INT F8h: their names by number, and what each comes to over the threads, the ready
//! list, the interrupt lines, the FIFOs and the side.
#![tactic(auto)]

mod names;
mod request;

ghost use Rattle.gate_table.specs.Worked.{Exhausted, Faults, FifoGates, GateRows, LineGates, Refused, ThreadGates};

pub use names::{GateName, gate_name};
pub use request::Request;

/// What the table of gates gives on small states: results, and the state after each gate and after faults.
pub fn worked()
    ensures results { GateRows }
    ensures exhausted { Exhausted }
    ensures threads { ThreadGates }
    ensures fifos { FifoGates }
    ensures lines { LineGates }
    ensures refused { Refused }
    ensures faults { Faults }
{}
