// What a unit leaves for the hardware's lines: its rises, and the line that it took.
ghost use Rattle.std.specs.Prelude.{◌≡◌, ◌<◌, ◌≤◌, ◌++◌, ℕ, length};
ghost use Rattle.pic_8259.specs.Controllers.{latch_of};
ghost use Rattle.port_map.specs.declared.com_port.ComPort.{ComPort};
ghost use Rattle.port_map.specs.Serial.{Serial};
ghost use Rattle.port_board.specs.Board.{accessed, rises_of, rises_taken};
ghost use Rattle.port_board.specs.Left.{ticks_left};
ghost use Rattle.port_board.specs.declared.board.Board as of_board;
ghost use Rattle.hardware_lines.specs.Hardware.{with_edges};
ghost use Rattle.irq_gates.specs.Owners.{without_taken};
ghost use Rattle.hardware_steps.specs.HardwareOf.{IsBoard, marking_of};
ghost use Rattle.hardware_steps.specs.Steps.{serials_rose, taken_acks, with_edge_lines, with_taken};

use crate::edges::push_edges;
use port_board::Board;
use trace_lines::{HLine, Lines};

/// The lines that rose by the unit's accesses, latched already, have their `edge` lines, by rising number, and are taken from the
/// board. A unit of who has one serial port leaves the board as an access to that does (`accessed`).
pub fn unit_edges(board: &mut Board, lines: &mut Lines)
    requires board { IsBoard board.old }
    requires room { length lines.old.h ≤ 112 }
    ensures after { board.new ≡ rises_taken board.old }
    ensures board { IsBoard board.new }
    ensures edges { lines.new ≡ with_edge_lines (rises_of board.old) lines.old }
    ensures hardware { (now last : ℕ) (which : ComPort) (s : Serial) (b : of_board.Board) → IsBoard b → rises_of b ≡ 0 → board.old ≡ accessed which s b → marking_of now last board.new lines.new.h ≡ with_edges (serials_rose b board.new 0) (marking_of now last b lines.old.h) }
{
    push_edges(board.take_rises(), lines);
}

/// The line that the unit acknowledged, if it did, has its `ack` line: gates 18 and 19 and a handler's fault change the owner of a line,
/// and take it out of the controllers where it stands.
pub fn unit_ack(acknowledged: Option<u8>, lines: &mut Lines)
    requires room { length lines.old.h < 128 }
    ensures acks { lines.new ≡ record lines.old { h = lines.old.h ++ taken_acks acknowledged } }
    ensures hardware { (now last : ℕ) (b after : of_board.Board) → latch_of after.pair ≡ without_taken acknowledged (latch_of b.pair) → ticks_left after ≡ ticks_left b → marking_of now last after lines.new.h ≡ with_taken acknowledged (marking_of now last b lines.old.h) }
{
    if let Some(line) = acknowledged {
        lines.push_h(HLine::Ack(u32::from(line)));
    }
}
