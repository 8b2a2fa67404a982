// What a fault of an activity leaves, and the return of a thread.
ghost use Rattle.std.specs.Prelude.{◌≡◌, ◌<◌, ◌^◌, ℕ, None, pos, replicate};
ghost use Rattle.line_sets.specs.LineSet.{union};
ghost use Rattle.memory_model.specs.Side.{Side};
ghost use Rattle.pic_8259.specs.Boot.{IsBooted};
ghost use Rattle.pic_8259.specs.Controllers.{IsPair, latch_of};
ghost use Rattle.hard_dispatch.specs.Sets.{asked_lines};
ghost use Rattle.gate_table.specs.Gates.{after_fault};
ghost use Rattle.executive.specs.Agreement.{Agrees};
ghost use Rattle.executive.specs.Parts.{gate_parts};
ghost use Rattle.irq_gates.specs.Owners.{owner_changes, taken_of, without_taken};
ghost use Rattle.module_gates.specs.Callers.{who, IsLiveCaller};
ghost use Rattle.module_gates.specs.Effects.{IsZeroBehind};

use crate::effect::answer;
use crate::rows::unmarked;
use crate::{Caller, Effect};
use executive::Executive;
use irq_gates::LineEffect;
use pic_8259::Pair;

// Ends an activity: its result says nothing.
fn end_activity(caller: Caller, all: &mut Executive, pair: &mut Pair) -> LineEffect
    requires caller { IsLiveCaller caller all.old.threads }
    requires agrees { Agrees all.old }
    requires booted { IsBooted pair.old }
    requires pair { IsPair pair.old }
    ensures parts { (side : Side) → after_fault (who caller) (gate_parts (latch_of pair.old) side all.old) ≡ gate_parts (latch_of pair.new) side all.new }
    ensures marks { result.guest ≡ 0 }
    ensures acknowledged { result.acknowledged ≡ taken_of (latch_of pair.old) (owner_changes all.old.irqs all.new.irqs) }
    ensures latches { latch_of pair.new ≡ without_taken result.acknowledged (latch_of pair.old) }
    ensures asked { (pending : ℕ) → asked_lines (latch_of pair.new) all.new.irqs (union pending result.guest) ≡ asked_lines (latch_of pair.old) all.old.irqs pending }
    ensures booted { IsBooted pair.new }
    ensures kept { IsPair pair.new }
    ensures agrees { Agrees all.new }
    ensures guest { all.new.timeline.guest ≡ all.old.timeline.guest }
    ensures version { all.new.ready.version ≡ all.old.ready.version }
{
    match caller {
        Caller::Init(_) => unmarked(0),
        Caller::Thread(id) => unmarked(thread_gates::delete(u32::from(id), all)),
        Caller::Irq(line) => irq_gates::free(u32::from(line), &mut all.irqs, pair),
        Caller::Fifo(fifo) => unmarked(all.fifos.set_handler(u32::from(fifo), 0)),
    }
}

/// What a fault of an activity leaves, and the return of a thread: a thread is deleted, a handler's line is freed as by gate 19, a FIFO
/// loses its handler, and an init just ends. Where the line or the FIFO is gone already, that is all.
pub fn drop_caller(caller: Caller, all: &mut Executive, pair: &mut Pair) -> Effect
    requires caller { IsLiveCaller caller all.old.threads }
    requires agrees { Agrees all.old }
    requires booted { IsBooted pair.old }
    ensures parts { (side : Side) → after_fault (who caller) (gate_parts (latch_of pair.old) side all.old) ≡ gate_parts (latch_of pair.new) side all.new }
    ensures result { result.result ≡ pos 0 }
    ensures said { result.said ≡ 0 }
    ensures text { IsZeroBehind result }
    ensures marks { result.guest ≡ 0 }
    ensures acknowledged { result.acknowledged ≡ taken_of (latch_of pair.old) (owner_changes all.old.irqs all.new.irqs) }
    ensures latches { latch_of pair.new ≡ without_taken result.acknowledged (latch_of pair.old) }
    ensures asked { (pending : ℕ) → asked_lines (latch_of pair.new) all.new.irqs (union pending result.guest) ≡ asked_lines (latch_of pair.old) all.old.irqs pending }
    ensures booted { IsBooted pair.new }
    ensures kept { IsPair pair.new }
    ensures agrees { Agrees all.new }
    ensures guest { all.new.timeline.guest ≡ all.old.timeline.guest }
    ensures version { all.new.ready.version ≡ all.old.ready.version }
{
    // Looked at so that the proof knows what is true of each pair.
    let _line = pair.request();
    let line = end_activity(caller, all, pair);
    let mut effect = answer(0);
    effect.guest = line.guest;
    effect.acknowledged = line.acknowledged;
    effect
}
