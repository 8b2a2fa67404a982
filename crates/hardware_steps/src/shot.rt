// The one-shot is set for the nearest due.
ghost use Rattle.std.specs.Prelude.{◌≡◌, ◌<◌, ◌≤◌, ℕ, length, if◌then◌else◌};
ghost use Rattle.rt_timeline.specs.Dues.{ticks_until};
ghost use Rattle.hardware_lines.specs.Hardware.{with_set, same_due};
ghost use Rattle.hardware_steps.specs.HardwareOf.{IsBoard, marking_of};
ghost use Rattle.hardware_steps.specs.Steps.{shot_set, set_again};

use port_board::Board;
use rt_constants::limits::SHOT_LIMIT;
use trace_lines::{HLine, Lines};

// In how many ticks the one-shot has to rise, set in tick `now` for a due.
fn ticks_until(now: u32, due: u64) -> u16
    ensures value { result ≡ ticks_until now due }
    ensures some { 1 ≤ result }
    ensures most { result ≤ 32768 }
{
    due.saturating_sub(u64::from(now))
        .min(u64::from(SHOT_LIMIT))
        .max(1) as u16
}

/// Sets the one-shot in tick `now` for the nearest due, a tick, with its `set` line; nothing where there is none. Of the board the
/// timer's counter 0 alone changes.
pub fn set_shot(board: &mut Board, due: Option<u64>, now: u32, lines: &mut Lines)
    requires board { IsBoard board.old }
    requires room { length lines.old.h < 128 }
    ensures after { board.new ≡ shot_set now due board.old }
    ensures rest { board.new ≡ record board.old { pit = board.new.pit } }
    ensures board { IsBoard board.new }
    ensures hardware { (last : ℕ) → marking_of now last board.new lines.new.h ≡ with_set now due (marking_of now last board.old lines.old.h) }
    ensures lines { lines.new ≡ record lines.old { h = lines.new.h } }
{
    if let Some(due) = due {
        let ticks = ticks_until(now, due);
        board.set_one_shot(ticks);
        lines.push_h(HLine::Set(2 * ticks as u32 - 1));
    }
}

fn same_due(a: Option<u64>, b: Option<u64>) -> bool
    ensures { result ≡ same_due a b }
{
    match (a, b) {
        (None, None) => true,
        (Some(x), Some(y)) => x == y,
        _ => false,
    }
}

/// The last step of tick `now`: where the unit changed the nearest due and there is one, the one-shot is set for it. Of the board the
/// timer's counter 0 alone changes.
pub fn timer(
    board: &mut Board,
    before: Option<u64>,
    after: Option<u64>,
    now: u32,
    lines: &mut Lines,
)
    requires board { IsBoard board.old }
    requires room { length lines.old.h < 128 }
    ensures after { board.new ≡ (if same_due before after then board.old else shot_set now after board.old) }
    ensures rest { board.new ≡ record board.old { pit = board.new.pit } }
    ensures board { IsBoard board.new }
    ensures hardware { (last : ℕ) → marking_of now last board.new lines.new.h ≡ set_again now before after (marking_of now last board.old lines.old.h) }
    ensures lines { lines.new ≡ record lines.old { h = lines.new.h } }
{
    if !same_due(before, after) {
        set_shot(board, after, now, lines);
    }
}
