// The drain of the controllers.
ghost use Rattle.std.specs.Prelude.{◌≡◌, ◌≤◌, ◌+◌, ◌++◌, ℕ, map, length};
ghost use Rattle.line_sets.specs.LineSet.{has};
ghost use Rattle.line_kinds.specs.declared.kinds.HLine.TheVariants as shown;
ghost use Rattle.pic_8259.specs.Controllers.{latch_of};
ghost use Rattle.pic_8259.specs.Boot.{booted};
ghost use Rattle.rt_irqs.specs.Irqs.{IsLines};
ghost use Rattle.hard_dispatch.specs.Dispatch.{module_lines, guest_lines, marked_with};
ghost use Rattle.hard_dispatch.specs.Service.{in_order};
ghost use Rattle.hardware_steps.specs.HardwareOf.{IsBoard, hardware_of, marking_of};
ghost use Rattle.hardware_steps.specs.Steps.{last_after, emptied};

use hard_dispatch::{Drained, drain};
use port_board::Board;
use rt_irqs::Irqs;
use trace_lines::{HLine, Lines};

// The lines of acknowledgements.
fn push_acks(taken: &[u8], lines: &mut Lines)
    requires { length lines.old.h + length taken.now ≤ 128 }
    ensures { lines.new ≡ record lines.old { h = lines.old.h ++ map shown.Ack taken.now } }
{
    for line in taken {
        lines.push_h(HLine::Ack(u32::from(*line)));
    }
}

/// Acknowledges every standing line, in the controllers' order, each with its `ack` line, and gives it to its owner: the lines that
/// modules hold are marked, and those for the guest and whether line 0 stood are answered. Afterwards nothing stands. Of the board the
/// controllers alone change.
pub fn drain_board(board: &mut Board, irqs: &mut Irqs, lines: &mut Lines) -> Drained
    requires board { IsBoard board.old }
    requires room { length lines.old.h ≤ 112 }
    ensures acknowledged { result.acknowledged ≡ latch_of board.old.pair }
    ensures taken { result.taken.items ≡ in_order (latch_of board.old.pair) }
    ensures guest { result.guest ≡ guest_lines (latch_of board.old.pair) irqs.old }
    ensures timer { result.timer ≡ has (latch_of board.old.pair) 0 }
    ensures marked { irqs.new ≡ marked_with (module_lines (latch_of board.old.pair) irqs.old) irqs.old }
    ensures irqs { IsLines irqs.new }
    ensures after { board.new ≡ record board.old { pair = booted 0 0 } }
    ensures board { IsBoard board.new }
    ensures hardware { (now last : ℕ) → marking_of now (last_after now (hardware_of now last board.old)) board.new lines.new.h ≡ emptied now (marking_of now last board.old lines.old.h) }
    ensures lines { lines.new ≡ record lines.old { h = lines.new.h } }
{
    let drained = drain(&mut board.pair, irqs);
    push_acks(drained.taken.as_slice(), lines);
    drained
}
