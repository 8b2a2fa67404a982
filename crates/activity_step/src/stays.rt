// What is on after a unit.
ghost use Rattle.std.specs.Prelude.{◌≡◌, not, ◌&&◌, Some};
ghost use Rattle.activity_contexts.specs.Contexts.{live_threads};
ghost use Rattle.module_gates.specs.Callers.{who};
ghost use Rattle.activity_step.specs.Stays.{Settles, can_stay};

use cpu_state::Registers;
use machine_state::Processor;
use module_gates::{Caller, Executive};
use rt_threads::{State, Threads};

// Whether an activity that didn't end stays on.
fn can_stay(caller: Caller, threads: &Threads) -> bool
    ensures { result ≡ can_stay caller threads.now }
{
    match caller {
        Caller::Thread(id) => matches!(threads.state(id), Some(State::Ready)),
        Caller::Init(_) => true,
        Caller::Irq(_) => true,
        Caller::Fifo(_) => true,
    }
}

// The registers of a thread that leaves are kept, where it is live.
fn keep(caller: Caller, registers: &Registers, threads: &mut Threads)
    ensures { threads.new ≡ live_threads (Some (who caller)) registers.now threads.old }
{
    if let Caller::Thread(id) = caller {
        if threads.state(id).is_some() {
            threads.set_context(id, registers);
        }
    }
}

/// What is on stays, unless it ended, or is a thread that isn't ready any more.
pub fn settle(caller: Caller, over: bool, processor: &mut Processor, all: &mut Executive)
    ensures { Settles caller over processor.old processor.new all.old all.new }
{
    if !over && can_stay(caller, &all.threads) {
        return;
    }
    keep(caller, &processor.registers, &mut all.threads);
    processor.on = None;
}
