// The start of an init or handler.
ghost use Rattle.std.specs.Prelude.{◌≡◌, ◌≤◌, ◌<◌, ◌+◌, ◌^◌, ℕ, length, false, Some};
ghost use Rattle.memory_model.specs.Side.{word_stored};
ghost use Rattle.cpu_state.specs.declared.registers.Registers.{Registers as Context};
ghost use Rattle.cpu_state.specs.Registers.{starting};
ghost use Rattle.flat_memory.specs.Side.{side_at};
ghost use Rattle.rt_irqs.specs.Irqs.{IsLines};
ghost use Rattle.activity_contexts.specs.Contexts.{guest_registers, live_threads};
ghost use Rattle.priority_schedule.specs.State.{RealTime};
ghost use Rattle.priority_schedule.specs.Tick.{stack_top, started};
ghost use Rattle.machine_state.specs.Parts.{real_side};
ghost use Rattle.machine_state.specs.Running.{HasSizes};
ghost use Rattle.pick_step.specs.Turns.{IsCalled, NoneLatched, with_start};

use cpu_state::Registers;
use flat_memory::{FlatMemory, store_doubleword};
use line_kinds::Who;
use machine_state::Inits;
use rt_fifos::Fifos;
use rt_irqs::Irqs;
use thread_gates::starting;

// Stores the side's first address, where the stub stands, as its top word, and gives the address of that.
fn push_stub(first: u32, bytes: &mut [u8]) -> u32
    requires size { 4 ≤ length bytes.old }
    requires small { first + length bytes.old < 2 ^ 32 }
    ensures top { result ≡ stack_top (side_at first bytes.old) }
    ensures stored { side_at first bytes.new ≡ word_stored (side_at first bytes.old) (stack_top (side_at first bytes.old)) 4 first }
    ensures size { length bytes.new ≡ length bytes.old }
{
    let top = first + bytes.len() as u32 - 4;
    store_doubleword(first, bytes, top, first);
    top
}

// An activity starts at an address, with a number in EAX, and with nothing on its stack but the way to the stub.
fn start_at(entry: u32, number: u8, registers: &mut Registers, memory: &mut FlatMemory)
    requires { HasSizes memory.old }
    ensures registers { registers.new ≡ starting entry number (stack_top (real_side memory.old)) false }
    ensures side { real_side memory.new
        ≡ word_stored (real_side memory.old) (stack_top (real_side memory.old)) 4 (real_side memory.old).first }
    ensures guest { memory.new.guest ≡ memory.old.guest }
    ensures sizes { HasSizes memory.new }
{
    let first = memory.guest_bytes().len() as u32;
    let top = push_stub(first, memory.real_time());
    *registers = starting(entry, u32::from(number), top, false);
}

/// What was picked and wasn't on begins: an init or handler starts, at its entry, and the mark that called for a handler is cleared. Threads
/// and the guest go on with what they have.
pub fn begin(
    who: Who,
    registers: &mut Registers,
    irqs: &mut Irqs,
    fifos: &mut Fifos,
    memory: &mut FlatMemory,
    inits: &mut Inits,
)
    requires called { IsCalled who inits.old irqs.old fifos.old }
    requires sizes { HasSizes memory.old }
    ensures started { (latch : ℕ) (m : RealTime) → NoneLatched who latch
        → started who (with_start who latch registers.old irqs.old fifos.old memory.old inits.old m)
        ≡ with_start who latch registers.new irqs.new fifos.new memory.new inits.new m }
    ensures threads { (ts : _) → live_threads (Some who) registers.new ts ≡ live_threads (Some who) registers.old ts }
    ensures guest { (kept : Context) → guest_registers (Some who) registers.new kept ≡ guest_registers (Some who) registers.old kept }
    ensures bytes { memory.new.guest ≡ memory.old.guest }
    ensures sizes { HasSizes memory.new }
    ensures held { irqs.new.entries ≡ irqs.old.entries }
    ensures lines { IsLines irqs.old → IsLines irqs.new }
{
    match who {
        Who::Init(number) => {
            let entry = inits.take();
            start_at(entry, number, registers, memory);
        }
        Who::Irq(line) => {
            let entry = irqs.start(line);
            start_at(entry, line, registers, memory);
        }
        Who::Fifo(fifo) => {
            let entry = fifos.start(fifo);
            start_at(entry, fifo, registers, memory);
        }
        Who::Guest | Who::Thread(_) => {}
    }
}
