// The pick of a tick.
ghost use Rattle.std.specs.Prelude.{◌≡◌, ◌≤◌, ◌<◌, ◌+◌, length, true, false, Some, None};
ghost use Rattle.pic_8259.specs.Controllers.{latch_of};
ghost use Rattle.line_kinds.specs.declared.kinds.Who.TheVariants as whos;
ghost use Rattle.executive.specs.Agreement.{Agrees};
ghost use Rattle.schedule_steps.specs.Choice.{CanRun, picked_of, running_in};
ghost use Rattle.priority_schedule.specs.Tick.{is_on};
ghost use Rattle.machine_state.specs.Inits.{next_number};
ghost use Rattle.machine_state.specs.Parts.{MachineParts};
ghost use Rattle.machine_state.specs.Running.{HasSizes, IsRunning, OnReady};
ghost use Rattle.pick_step.specs.Picked.{PickStep};
ghost use Rattle.pick_step.specs.Turns.{IsCalled, IsQuiet, IsTurn, NoneLatched, Turned};

use crate::start::begin;
use activity_contexts::switch;
use executive::Executive;
use flat_memory::FlatMemory;
use line_kinds::Who;
use machine_state::{Inits, Processor};
use schedule_steps::pick;
use trace_lines::{Lines, RLine};

// Whether this is on the processor.
fn is_on(who: Who, on: Option<Who>) -> bool
    ensures { result ≡ is_on who on }
{
    on == Some(who)
}

// What is picked. Where it wasn't on, it was called for, and no init or handler was on.
fn choose(draining: bool, on: Option<Who>, inits: &Inits, all: &Executive) -> Who
    requires { Agrees all.now }
    ensures picked { result ≡ picked_of draining on (next_number inits.now) all.now }
    ensures runs { CanRun on all.now result }
    ensures turn { is_on result on ≡ false → IsTurn draining on inits.now all.now result }
{
    pick(draining, on, inits.next_number(), all)
}

// The processor turns to what wasn't on it. An init or handler starts.
fn turn(
    who: Who,
    processor: &mut Processor,
    all: &mut Executive,
    memory: &mut FlatMemory,
    inits: &mut Inits,
)
    requires ready { OnReady processor.old.on all.old }
    requires runs { CanRun processor.old.on all.old who }
    requires idle { running_in processor.old.on ≡ None }
    requires called { IsCalled who inits.old all.old.irqs all.old.fifos }
    requires sizes { HasSizes memory.old }
    ensures on { processor.new.on ≡ Some who }
    ensures turned { (m : MachineParts) → NoneLatched who (latch_of m.board.pair)
        → IsRunning (record m { processor = processor.old; all = all.old; memory = memory.old; modules = inits.old })
        → Turned who (record m { processor = processor.old; all = all.old; memory = memory.old; modules = inits.old })
        (record m { processor = processor.new; all = all.new; memory = memory.new; modules = inits.new }) }
{
    switch(
        processor.on,
        who,
        &mut processor.registers,
        &mut processor.kept,
        &mut all.threads,
    );
    begin(
        who,
        &mut processor.registers,
        &mut all.irqs,
        &mut all.fifos,
        memory,
        inits,
    );
    processor.on = Some(who);
}

// Whether nothing waits for the processor.
fn is_quiet(all: &Executive, inits: &Inits) -> bool
    ensures { result ≡ true → IsQuiet inits.now all.now }
{
    all.ready.count() == 0
        && all.irqs.next().is_none()
        && all.fifos.next_marked().is_none()
        && inits.next_number().is_none()
}

// Whether the guest is on and nothing waits, as in most ticks: then the guest is picked, whether the tick drains or not.
fn guest_goes_on(processor: &Processor, all: &Executive, inits: &Inits) -> bool
    ensures on { result ≡ true → processor.now.on ≡ Some whos.Guest }
    ensures quiet { result ≡ true → IsQuiet inits.now all.now }
{
    match processor.on {
        Some(Who::Guest) => is_quiet(all, inits),
        _ => false,
    }
}

// Picks what is on the processor, and turns to it where something else or nothing was.
fn choose_and_turn(
    draining: bool,
    processor: &mut Processor,
    all: &mut Executive,
    memory: &mut FlatMemory,
    inits: &mut Inits,
    lines: &mut Lines,
) -> Who
    requires ready { OnReady processor.old.on all.old }
    requires agrees { Agrees all.old }
    requires sizes { HasSizes memory.old }
    requires room { length lines.old.r < 128 }
    ensures on { processor.new.on ≡ Some result }
    ensures step { (m : MachineParts) → (draining ≡ true → latch_of m.board.pair ≡ 0)
        → IsRunning (record m { processor = processor.old; all = all.old; memory = memory.old; modules = inits.old })
        → PickStep draining (record m { processor = processor.old; all = all.old; memory = memory.old; modules = inits.old })
        (record m { processor = processor.new; all = all.new; memory = memory.new; modules = inits.new }) lines.old lines.new }
    ensures few { length lines.new.r ≤ length lines.old.r + 1 }
{
    let who = choose(draining, processor.on, inits, all);
    if !is_on(who, processor.on) {
        turn(who, processor, all, memory, inits);
        lines.push_r(RLine::On(who));
    }
    who
}

/// The third step of a tick: picks what is on the processor, and turns to it, with its line, where something else or nothing was. An init or
/// handler that starts gets its registers and the top word of its stack, and the mark that called for a handler is cleared. Registers move
/// only where the processor turns.
pub fn pick_next(
    draining: bool,
    processor: &mut Processor,
    all: &mut Executive,
    memory: &mut FlatMemory,
    inits: &mut Inits,
    lines: &mut Lines,
) -> Who
    requires ready { OnReady processor.old.on all.old }
    requires agrees { Agrees all.old }
    requires sizes { HasSizes memory.old }
    requires room { length lines.old.r < 128 }
    ensures on { processor.new.on ≡ Some result }
    ensures step { (m : MachineParts) → (draining ≡ true → latch_of m.board.pair ≡ 0)
        → IsRunning (record m { processor = processor.old; all = all.old; memory = memory.old; modules = inits.old })
        → PickStep draining (record m { processor = processor.old; all = all.old; memory = memory.old; modules = inits.old })
        (record m { processor = processor.new; all = all.new; memory = memory.new; modules = inits.new }) lines.old lines.new }
    ensures few { length lines.new.r ≤ length lines.old.r + 1 }
{
    if guest_goes_on(processor, all, inits) {
        return Who::Guest;
    }
    choose_and_turn(draining, processor, all, memory, inits, lines)
}
