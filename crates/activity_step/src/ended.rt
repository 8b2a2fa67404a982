// The end of an activity by a fault or by its return.
ghost use Rattle.std.specs.Prelude.{◌≡◌, ◌≤◌, ◌<◌, ◌+◌, length};
ghost use Rattle.pic_8259.specs.Boot.{IsBooted};
ghost use Rattle.pic_8259.specs.Controllers.{IsPair};
ghost use Rattle.rt_irqs.specs.Irqs.{IsLines};
ghost use Rattle.gate_table.specs.Gates.{after_fault, after_return};
ghost use Rattle.executive.specs.Agreement.{Agrees};
ghost use Rattle.module_gates.specs.Callers.{who, IsLiveCaller};
ghost use Rattle.line_kinds.specs.declared.kinds.RLine.TheVariants as r_lines;
ghost use Rattle.activity_step.specs.Moved.{Ends, EndsWith};

use hardware_steps::unit_ack;
use module_gates::{Caller, Executive, drop_caller};
use pic_8259::Pair;
use rt_irqs::Irqs;
use trace_lines::{FaultKind, Lines, RLine, Who};

// The caller as what is on the processor.
fn holder(caller: Caller) -> Who
    ensures { result ≡ who caller }
{
    match caller {
        Caller::Init(number) => Who::Init(number),
        Caller::Thread(id) => Who::Thread(id),
        Caller::Irq(line) => Who::Irq(line),
        Caller::Fifo(fifo) => Who::Fifo(fifo),
    }
}

/// Looks at the lines so that the proof knows what is true of them at all times.
pub fn look(irqs: &Irqs)
    ensures { IsLines irqs.now }
{
    let _held = irqs.held(0);
}

// Ends an activity that faults. Answers the line that was acknowledged, if one was.
fn end_by_fault(caller: Caller, all: &mut Executive, pair: &mut Pair) -> Option<u8>
    requires caller { IsLiveCaller caller all.old.threads }
    requires agrees { Agrees all.old }
    requires booted { IsBooted pair.old }
    ensures { Ends (after_fault (who caller)) all.old all.new pair.old pair.new result }
{
    let effect = drop_caller(caller, all, pair);
    look(&all.irqs);
    effect.acknowledged
}

// An init or a handler that returns leaves everything as it is.
fn end_alone(all: &Executive, pair: &Pair) -> Option<u8>
    requires agrees { Agrees all.now }
    requires booted { IsBooted pair.now }
    requires pair { IsPair pair.now }
    ensures { Ends (λ p. p) all.now all.now pair.now pair.now result }
{
    look(&all.irqs);
    None
}

// Ends an activity that returns: a thread is deleted, and an init or a handler just ends.
fn end_by_return(caller: Caller, all: &mut Executive, pair: &mut Pair) -> Option<u8>
    requires caller { IsLiveCaller caller all.old.threads }
    requires agrees { Agrees all.old }
    requires booted { IsBooted pair.old }
    requires pair { IsPair pair.old }
    ensures { Ends (after_return (who caller)) all.old all.new pair.old pair.new result }
{
    match caller {
        Caller::Thread(_) => end_by_fault(caller, all, pair),
        Caller::Init(_) => end_alone(all, pair),
        Caller::Irq(_) => end_alone(all, pair),
        Caller::Fifo(_) => end_alone(all, pair),
    }
}

/// A fault, of which nothing is performed, with its line: the activity ends, and loses what it handles.
pub fn fault(
    caller: Caller,
    kind: FaultKind,
    all: &mut Executive,
    pair: &mut Pair,
    lines: &mut Lines,
)
    requires caller { IsLiveCaller caller all.old.threads }
    requires agrees { Agrees all.old }
    requires booted { IsBooted pair.old }
    requires room { (length lines.old.r < 128) × (length lines.old.h < 128) }
    ensures ends { EndsWith (after_fault (who caller)) (r_lines.Fault (who caller) kind) all.old all.new pair.old pair.new lines.old lines.new }
    ensures few { (length lines.new.r ≤ length lines.old.r + 1) × (length lines.new.h ≤ length lines.old.h + 1) }
{
    let taken = end_by_fault(caller, all, pair);
    lines.push_r(RLine::Fault(holder(caller), kind));
    unit_ack(taken, lines);
}

/// The return, with its line.
pub fn give_back(caller: Caller, all: &mut Executive, pair: &mut Pair, lines: &mut Lines)
    requires caller { IsLiveCaller caller all.old.threads }
    requires agrees { Agrees all.old }
    requires booted { IsBooted pair.old }
    requires pair { IsPair pair.old }
    requires room { (length lines.old.r < 128) × (length lines.old.h < 128) }
    ensures ends { EndsWith (after_return (who caller)) r_lines.Ret all.old all.new pair.old pair.new lines.old lines.new }
    ensures few { (length lines.new.r ≤ length lines.old.r + 1) × (length lines.new.h ≤ length lines.old.h + 1) }
{
    let taken = end_by_return(caller, all, pair);
    lines.push_r(RLine::Ret);
    unit_ack(taken, lines);
}
