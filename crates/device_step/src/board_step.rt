// The devices take a tick, and the script's events of it happen.
ghost use Rattle.std.specs.Prelude.{◌≡◌, ◌≤◌, length, suc, []};
ghost use Rattle.port_board.specs.Board.{AreEvents, rises_of};
ghost use Rattle.trace_lines.specs.TickLines.{no_tick_lines};
ghost use Rattle.bare_machine.specs.Tick.{com1_lines};
ghost use Rattle.priority_schedule.specs.Tick.{com2_lines};
ghost use Rattle.hardware_steps.specs.HardwareOf.{IsBoard};
ghost use Rattle.machine_state.specs.Parts.{MachineParts};
ghost use Rattle.machine_state.specs.Running.{IsRunning};
ghost use Rattle.device_step.specs.Stepped.{DevicesStep};

use device_script::Event;
use hardware_steps::step_devices;
use port_board::Board;
use trace_lines::{GLine, Lines, RLine};

// The byte that left COM1 has its line.
fn push_com1(byte: Option<u8>, lines: &mut Lines)
    requires { lines.old.g ≡ [] }
    ensures { lines.new ≡ record lines.old { g = com1_lines byte } }
{
    if let Some(byte) = byte {
        lines.push_g(GLine::Com1(byte));
    }
}

// The byte that left COM2 has its line.
fn push_com2(byte: Option<u8>, lines: &mut Lines)
    requires { lines.old.r ≡ [] }
    ensures { lines.new ≡ record lines.old { r = com2_lines byte } }
{
    if let Some(byte) = byte {
        lines.push_r(RLine::Com2(byte));
    }
}

/// The first step of tick `now`, with the script's events of that tick: the timer takes two pulses, both serial ports advance and receive
/// their bytes, and each line that rises is latched. A byte that leaves COM2 or COM1 has its line, and so has each edge.
pub fn devices(now: u32, events: &[Event], board: &mut Board, lines: &mut Lines)
    requires now { 1 ≤ now }
    requires events { AreEvents events.now }
    requires board { IsBoard board.old }
    requires taken { rises_of board.old ≡ 0 }
    requires empty { lines.old ≡ no_tick_lines }
    ensures step { (m : MachineParts) → now ≡ suc m.ticks → now ≤ 1000000000 → IsRunning (record m { board = board.old })
        → DevicesStep now events.now (record m { board = board.old }) (record m { board = board.new; ticks = now }) lines.new }
    ensures few { (length lines.new.r ≤ 1) × (length lines.new.h ≤ 16) }
{
    let edges = step_devices(now, events, board, lines);
    push_com2(edges.com2, lines);
    push_com1(edges.com1, lines);
}
