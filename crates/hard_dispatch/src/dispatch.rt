// Takes every standing line and says whose it is.
ghost use Rattle.std.specs.Prelude.{◌≡◌, ◌<◌, ◌++◌, [], ◌∷◌, length};
ghost use Rattle.line_sets.specs.LineSet.{has, with_line};
ghost use Rattle.pic_8259.specs.Controllers.{IsPair, latch_of};
ghost use Rattle.pic_8259.specs.Boot.{IsBooted, booted};
ghost use Rattle.rt_irqs.specs.Irqs.{IsLines};
ghost use Rattle.hard_dispatch.specs.Service.{in_order, TakesInTurn};
ghost use Rattle.hard_dispatch.specs.Dispatch.{owner_of, guest_after, lines_after, module_lines, guest_lines, marked_with};

use crate::service::take_first;
use arrayvec::ArrayVec;
use line_sets::{has_line16, with_line16};
use pic_8259::Pair;
use rt_constants::lines::{COM2_LINE, TIMER_LINE};
use rt_irqs::Irqs;

/// How many lines the pair has.
pub const LINES: usize = 16;

/// What a drain took: the lines in their order, and as sets.
#[derive(Debug, Drop)]
pub struct Drained {
    /// The lines that stood, in the order in which they were acknowledged.
    pub taken: ArrayVec<u8, LINES>,
    /// The lines that stood.
    pub acknowledged: u16,
    /// Those of them that are to be marked for the guest: neither line 0, nor line 3, nor a held line.
    pub guest: u16,
    /// Whether line 0 stood.
    pub timer: bool,
}

impl Drained {
    // Before the first line.
    fn nothing() -> Drained
        ensures taken { result.taken.items ≡ [] }
        ensures acknowledged { result.acknowledged ≡ 0 }
        ensures guest { result.guest ≡ 0 }
    {
        Drained {
            taken: ArrayVec::new(),
            acknowledged: 0,
            guest: 0,
            timer: false,
        }
    }
}

// Gives an acknowledged line to its owner: marks it for a module, or puts it into the guest's set.
fn give(line: u8, irqs: &mut Irqs, guest: u16) -> u16
    requires { line < 16 }
    ensures guest { result ≡ guest_after (owner_of irqs.old line) line guest }
    ensures lines { irqs.new ≡ lines_after (owner_of irqs.old line) line irqs.old }
    ensures kept { IsLines irqs.new }
{
    let held = irqs.held(line);
    if line == TIMER_LINE {
        return guest;
    }
    if held {
        irqs.mark(line);
        return guest;
    }
    let is_nobodys = line == COM2_LINE;
    if is_nobodys {
        guest
    } else {
        with_line16(guest, line)
    }
}

// Notes an acknowledged line, and gives it to its owner.
fn serve(line: u8, irqs: &mut Irqs, drained: &mut Drained)
    requires within { line < 16 }
    requires room { length drained.old.taken.items < 16 }
    ensures taken { drained.new.taken.items ≡ drained.old.taken.items ++ line ∷ [] }
    ensures acknowledged { drained.new.acknowledged ≡ with_line drained.old.acknowledged line }
    ensures guest { drained.new.guest ≡ guest_after (owner_of irqs.old line) line drained.old.guest }
    ensures lines { irqs.new ≡ lines_after (owner_of irqs.old line) line irqs.old }
    ensures kept { IsLines irqs.new }
{
    drained.taken.push(line);
    drained.acknowledged = with_line16(drained.acknowledged, line);
    drained.guest = give(line, irqs, drained.guest);
}

/// Acknowledges every standing line in the order 0, 1, 8 to 15, 3 to 7, and ends its service. Held lines are marked. Afterwards
/// nothing stands, and the pair is again as after the boot, with nothing in service. It takes no memory.
pub fn drain(pair: &mut Pair, irqs: &mut Irqs) -> Drained
    requires { IsBooted pair.old }
    ensures acknowledged { result.acknowledged ≡ latch_of pair.old }
    ensures guest { result.guest ≡ guest_lines (latch_of pair.old) irqs.old }
    ensures timer { result.timer ≡ has (latch_of pair.old) 0 }
    ensures marked { irqs.new ≡ marked_with (module_lines (latch_of pair.old) irqs.old) irqs.old }
    ensures taken { result.taken.items ≡ in_order (latch_of pair.old) }
    ensures turn { TakesInTurn result.taken.items pair.old pair.new }
    ensures empty { latch_of pair.new ≡ 0 }
    ensures pair { pair.new ≡ booted 0 0 }
    ensures kept { IsPair pair.new }
    ensures lines { IsLines irqs.new }
{
    // Looked at so that the proof knows what is true of each pair and of the lines before the first turn.
    let _line = pair.request();
    let _line = irqs.next();
    let mut drained = Drained::nothing();
    while let Some(line) = take_first(pair) {
        serve(line, irqs, &mut drained);
    }
    drained.timer = has_line16(drained.acknowledged, TIMER_LINE);
    drained
}
