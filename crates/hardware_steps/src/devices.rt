// The device step of a tick.
ghost use Rattle.std.specs.Prelude.{◌≡◌, ◌≤◌, ◌||◌, ℕ, suc, length};
ghost use Rattle.line_sets.specs.LineSet.{has};
ghost use Rattle.pic_8259.specs.Controllers.{latch_of};
ghost use Rattle.port_board.specs.Board.{AreEvents, device_step, edges_of};
ghost use Rattle.hardware_steps.specs.HardwareOf.{IsBoard, marking_of};
ghost use Rattle.hardware_steps.specs.Steps.{board_stepped, with_edge_lines};

use crate::edges::push_each;
use device_script::Event;
use port_board::{Board, Edges};
use trace_lines::Lines;

// The lines that rose have their edges. `push_edges` is the same for a unit: each has the test in its own place, so that a tick in which
// nothing rose calls nothing.
fn push_risen(set: u16, lines: &mut Lines)
    requires { length lines.old.h ≤ 112 }
    ensures { lines.new ≡ with_edge_lines set lines.old }
{
    if set != 0 {
        push_each(set, lines);
    }
}

/// The device step of tick `now` with the script's events of that tick: each line that rises is latched and has its `edge` line, by
/// rising number. Of the tick's lines the R and G lines stay.
pub fn step_devices(now: u32, events: &[Event], board: &mut Board, lines: &mut Lines) -> Edges
    requires events { AreEvents events.now }
    requires board { IsBoard board.old }
    requires room { length lines.old.h ≤ 112 }
    ensures edges { result ≡ edges_of events.now board.old }
    ensures after { board.new ≡ (device_step events.now board.old).board }
    ensures board { IsBoard board.new }
    ensures latched { (n : ℕ) → has (latch_of board.new.pair) n ≡ (has (latch_of board.old.pair) n || has result.lines n) }
    ensures hardware { (k last : ℕ) → now ≡ suc k → marking_of now last board.new lines.new.h ≡ board_stepped k last events.now board.old board.new lines.old.h }
    ensures lines { lines.new ≡ record lines.old { h = lines.new.h } }
{
    let edges = board.tick(events);
    push_risen(edges.lines, lines);
    edges
}
