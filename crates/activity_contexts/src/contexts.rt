// The registers in the processor, and those that are kept.
ghost use Rattle.std.specs.Prelude.{◌≡◌, Some};
ghost use Rattle.activity_contexts.specs.Contexts.{activity_registers, guest_registers, live_threads, OnLive};

use cpu_state::Registers;
use line_kinds::Who;
use rt_threads::Threads;

// The registers of what was on go to where they are kept.
fn keep(on: Option<Who>, registers: &Registers, kept: &mut Registers, threads: &mut Threads)
    requires { OnLive on threads.old }
    ensures threads { threads.new ≡ live_threads on registers.now threads.old }
    ensures guest { kept.new ≡ guest_registers on registers.now kept.old }
{
    match on {
        Some(Who::Thread(id)) => threads.set_context(id, registers),
        Some(Who::Guest) => *kept = *registers,
        _ => {}
    }
}

// The registers of what is picked, where it is the guest or a thread.
fn bring(who: Who, registers: &mut Registers, kept: &Registers, threads: &Threads)
    requires { OnLive (Some who) threads.now }
    ensures threads { live_threads (Some who) registers.new threads.now ≡ threads.now }
    ensures guest { guest_registers (Some who) registers.new kept.now ≡ kept.now }
    ensures activity { activity_registers (Some who) registers.new ≡ activity_registers (Some who) registers.old }
{
    match who {
        Who::Thread(id) => *registers = threads.context(id),
        Who::Guest => *registers = *kept,
        Who::Init(_) | Who::Irq(_) | Who::Fifo(_) => {}
    }
}

/// The processor turns from what was on to what is picked, whose registers come into it; those of an init or handler stay as they are,
/// since it sets its own when it starts. What the threads and the guest are stays.
pub fn switch(
    on: Option<Who>,
    who: Who,
    registers: &mut Registers,
    kept: &mut Registers,
    threads: &mut Threads,
)
    requires on { OnLive on threads.old }
    requires who { OnLive (Some who) (live_threads on registers.old threads.old) }
    ensures threads { live_threads (Some who) registers.new threads.new ≡ live_threads on registers.old threads.old }
    ensures guest { guest_registers (Some who) registers.new kept.new ≡ guest_registers on registers.old kept.old }
    ensures activity { activity_registers (Some who) registers.new ≡ activity_registers (Some who) registers.old }
{
    keep(on, registers, kept, threads);
    bring(who, registers, kept, threads);
}
