// The rows of the table of gates.
ghost use Rattle.std.specs.Prelude.{◌≡◌, ◌<◌, ◌^◌, ℕ, None};
ghost use Rattle.line_sets.specs.LineSet.{union};
ghost use Rattle.pic_8259.specs.Boot.{IsBooted};
ghost use Rattle.pic_8259.specs.Controllers.{IsPair, latch_of};
ghost use Rattle.flat_memory.specs.Side.{side_of};
ghost use Rattle.hard_dispatch.specs.Sets.{asked_lines};
ghost use Rattle.gate_table.specs.Gates.{gate_row, range_of};
ghost use Rattle.executive.specs.Agreement.{Agrees};
ghost use Rattle.executive.specs.Parts.{gate_parts};
ghost use Rattle.irq_gates.specs.Owners.{owner_changes, taken_of, without_taken};
ghost use Rattle.module_gates.specs.Callers.{who, IsLiveCaller};
ghost use Rattle.module_gates.specs.Effects.{asked_after, row_answers};
ghost use Rattle.module_gates.specs.Ranges.{IsInRange};

use crate::Caller;
use crate::alone::alone_row;
use crate::family::{Family, family_for};
use crate::fifos::fifo_row;
use crate::lines::line_row;
use crate::threads::thread_row;
use executive::Executive;
use flat_memory::Side;
use gate_table::{GateName, Request};
use irq_gates::LineEffect;
use pic_8259::Pair;

/// A result beside which no line is marked and none was acknowledged.
pub fn unmarked(value: i32) -> LineEffect
    ensures result { result.result ≡ value }
    ensures guest { result.guest ≡ 0 }
    ensures acknowledged { result.acknowledged ≡ None }
{
    LineEffect {
        result: value,
        guest: 0,
        acknowledged: None,
    }
}

/// The row of a gate whose range fits, if it has one.
pub fn row(
    now: u32,
    caller: Caller,
    name: GateName,
    q: &Request,
    all: &mut Executive,
    side: &mut Side<'_>,
    pair: &mut Pair,
) -> LineEffect
    requires tick { now < 2 ^ 31 }
    requires caller { IsLiveCaller caller all.old.threads }
    requires range { IsInRange (side_of side.old) (range_of q.now name) }
    requires agrees { Agrees all.old }
    requires booted { IsBooted pair.old }
    requires pair { IsPair pair.old }
    ensures answer { gate_row now (who caller) q.now (gate_parts (latch_of pair.old) (side_of side.old) all.old) name
        ≡ row_answers name q.now (side_of side.old) result.result (gate_parts (latch_of pair.new) (side_of side.new) all.new) }
    ensures acknowledged { result.acknowledged ≡ taken_of (latch_of pair.old) (owner_changes all.old.irqs all.new.irqs) }
    ensures latches { latch_of pair.new ≡ without_taken result.acknowledged (latch_of pair.old) }
    ensures asked { (pending : ℕ) → asked_lines (latch_of pair.new) all.new.irqs (union pending result.guest)
        ≡ asked_after name q.now.ebx result.result (asked_lines (latch_of pair.old) all.old.irqs pending) }
    ensures booted { IsBooted pair.new }
    ensures kept { IsPair pair.new }
    ensures agrees { Agrees all.new }
    ensures guest { all.new.timeline.guest ≡ all.old.timeline.guest }
    ensures version { all.new.ready.version ≡ all.old.ready.version }
    ensures first { side.new.first ≡ side.old.first }
    ensures same_loan { side.new.bytes.ghost_name ≡ side.old.bytes.ghost_name }
{
    match family_for(name) {
        Family::Threads => unmarked(thread_row(now, caller, name, q, all, side)),
        Family::Fifos => unmarked(fifo_row(name, q, &mut all.fifos, side)),
        Family::Lines => line_row(name, q, &mut all.irqs, pair),
        Family::Alone => unmarked(alone_row(now, caller, name)),
    }
}
