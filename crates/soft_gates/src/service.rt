// The calls of the executive.
ghost use Rattle.std.specs.Prelude.{◌≡◌, ◌<◌, ◌+◌, ◌^◌, length};
ghost use Rattle.std.specs.Int.{cast_unsigned, w32};
ghost use Rattle.cpu_state.specs.Registers.{at_eip};
ghost use Rattle.flat_memory.specs.Side.{side_of};
ghost use Rattle.soft_flags.specs.SoftFlags.{HasTableIn};
ghost use Rattle.soft_gates.specs.Outcome.{outcome_of, Finishes, WhenOutside, IsBoundedUnit};
ghost use Rattle.soft_gates.specs.Service.{unshadowed, refused, set_timer as set_timer_of, fifo_put as fifo_put_of, fifo_get as fifo_get_of, service as service_of};

use crate::calls::{Call, GetCall, put_call};
use crate::gates::GateUnit;
use cpu_state::{Access, EAX, EBX, ECX, EDX, Registers};
use flat_memory::Side;
use rt_constants::limits::{BYTES_LIMIT, SPAN_LIMIT};
use rt_constants::{EINVAL, failed};
use side_ranges::first_outside_of;
use soft_flags::SoftFlags;

/// The functions, by EAX.
const LOAD_IDT: u32 = 1;

const MASK: u32 = 2;

const TIMER: u32 = 3;

const FIFO_PUT: u32 = 4;

const FIFO_GET: u32 = 5;

const TIME: u32 = 6;

// A result as EAX has it.
fn as_register(outcome: i32) -> u32
    ensures { result ≡ cast_unsigned w32 outcome }
{
    outcome.cast_unsigned()
}

// The guest goes on behind the gate, and its shadow ends.
fn leave(next: u32, regs: &mut Registers, flags: &mut SoftFlags)
    ensures registers { regs.new ≡ at_eip next regs.old }
    ensures flags { flags.new ≡ unshadowed flags.old }
{
    regs.eip = next;
    flags.unit_done();
}

// A function that isn't defined, or an argument that it doesn't take.
fn refuse(next: u32, regs: &mut Registers, flags: &mut SoftFlags)
    ensures { record { came = Finishes; registers = regs.new; flags = flags.new } ≡ refused next regs.old flags.old }
{
    regs.general[EAX] = as_register(failed(EINVAL));
    leave(next, regs, flags);
}

fn set_timer(next: u32, regs: &mut Registers, flags: &mut SoftFlags) -> GateUnit
    ensures served { record { came = outcome_of result; registers = regs.new; flags = flags.new }
        ≡ set_timer_of next regs.old flags.old }
    ensures unchanged { WhenOutside result ((regs.new ≡ regs.old) × (flags.new ≡ flags.old)) }
    ensures bounded { (s : _) → IsBoundedUnit s result }
    ensures same_table { (flags.new.idt ≡ flags.old.idt) × (flags.new.entries ≡ flags.old.entries) }
{
    let period = regs.general[EBX];
    if period > SPAN_LIMIT {
        refuse(next, regs, flags);
        return GateUnit::Finished;
    }
    regs.general[EAX] = 0;
    leave(next, regs, flags);
    GateUnit::Timer(period)
}

fn fifo_put(next: u32, regs: &mut Registers, flags: &mut SoftFlags, side: &Side<'_>) -> GateUnit
    requires { (side_of side.now).first + length (side_of side.now).bytes < 2 ^ 32 }
    ensures served { record { came = outcome_of result; registers = regs.new; flags = flags.new }
        ≡ fifo_put_of (side_of side.now) next regs.old flags.old }
    ensures unchanged { WhenOutside result ((regs.new ≡ regs.old) × (flags.new ≡ flags.old)) }
    ensures bounded { IsBoundedUnit (side_of side.now) result }
    ensures same_table { (flags.new.idt ≡ flags.old.idt) × (flags.new.entries ≡ flags.old.entries) }
{
    let fifo = regs.general[EBX];
    let place = regs.general[ECX];
    let count = regs.general[EDX];
    if count > BYTES_LIMIT {
        refuse(next, regs, flags);
        return GateUnit::Finished;
    }
    match first_outside_of(side, place, count) {
        Some(at) => GateUnit::Outside(Access::Load, at),
        None => {
            leave(next, regs, flags);
            GateUnit::Calls(Call::Put(put_call(fifo, place, count, side)))
        }
    }
}

fn fifo_get(next: u32, regs: &mut Registers, flags: &mut SoftFlags, side: &Side<'_>) -> GateUnit
    requires { (side_of side.now).first + length (side_of side.now).bytes < 2 ^ 32 }
    ensures served { record { came = outcome_of result; registers = regs.new; flags = flags.new }
        ≡ fifo_get_of (side_of side.now) next regs.old flags.old }
    ensures unchanged { WhenOutside result ((regs.new ≡ regs.old) × (flags.new ≡ flags.old)) }
    ensures bounded { IsBoundedUnit (side_of side.now) result }
    ensures same_table { (flags.new.idt ≡ flags.old.idt) × (flags.new.entries ≡ flags.old.entries) }
{
    let fifo = regs.general[EBX];
    let place = regs.general[ECX];
    let count = regs.general[EDX];
    if count > BYTES_LIMIT {
        refuse(next, regs, flags);
        return GateUnit::Finished;
    }
    match first_outside_of(side, place, count) {
        Some(at) => GateUnit::Outside(Access::Store, at),
        None => {
            leave(next, regs, flags);
            let count = count as u16;
            GateUnit::Calls(Call::Get(GetCall { fifo, count, place }))
        }
    }
}

/// Performs the function of EAX with its arguments EBX, ECX and EDX in tick `now`.
#[tactic(auto, unfolding(crate::specs::Service::service))]
pub fn service(
    next: u32,
    now: u32,
    regs: &mut Registers,
    flags: &mut SoftFlags,
    side: &Side<'_>,
) -> GateUnit
    requires { (side_of side.now).first + length (side_of side.now).bytes < 2 ^ 32 }
    ensures served { record { came = outcome_of result; registers = regs.new; flags = flags.new }
        ≡ service_of (side_of side.now) next now regs.old flags.old }
    ensures unchanged { WhenOutside result ((regs.new ≡ regs.old) × (flags.new ≡ flags.old)) }
    ensures bounded { IsBoundedUnit (side_of side.now) result }
    ensures table { let size = length (side_of side.now).bytes in HasTableIn flags.old size → HasTableIn flags.new size }
{
    let first = regs.general[EBX];
    let second = regs.general[ECX];
    let word = match regs.general[EAX] {
        TIMER => return set_timer(next, regs, flags),
        FIFO_PUT => return fifo_put(next, regs, flags, side),
        FIFO_GET => return fifo_get(next, regs, flags, side),
        LOAD_IDT => as_register(flags.load_idt(first, second, side.size())),
        MASK => {
            flags.mask = first;
            0
        }
        TIME => now,
        _ => as_register(failed(EINVAL)),
    };
    regs.general[EAX] = word;
    regs.eip = next;
    flags.unit_done();
    GateUnit::Finished
}
