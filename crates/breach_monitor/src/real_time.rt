// The unit of a real-time activity.
ghost use Rattle.std.specs.Prelude.{◌≡◌, true};
ghost use Rattle.i386_execute.specs.OwnFlag.{is_on_flag};
ghost use Rattle.breach_monitor.specs.RealTimeUnit.{real_time_interrupt, trapped};
ghost use Rattle.breach_monitor.specs.UnitOverBus.{IsRealTimeUnit, IsFlagUse, IsPrivilegedUse, SameLoans, over, over_bus};

use crate::RealTimeBus;
use cpu_state::{Privileged, Registers};
use i386_execute::{DIVIDE_ERROR, Stepped, after, privileged, step};
use line_kinds::FaultKind;
use port_board::Board;

/// What a unit of a real-time activity comes to. Only in the first case anything was changed by it.
#[derive(Clone, Copy, Debug, PartialEq, Eq)]
pub enum RealTimeUnit {
    /// The unit was performed.
    Next,
    /// The real-time gate is to be performed, which goes on at this EIP.
    Gate(u32),
    /// The activity returns.
    Return,
    /// The activity is to be stopped.
    Fault(FaultKind),
}

/// The vectors of the real-time gate and of the return.
const GATE: u8 = 0xf8;

const RETURN: u8 = 0xf9;

fn interrupted(vector: u8, next: u32) -> RealTimeUnit
    ensures { result ≡ real_time_interrupt vector next }
{
    match vector {
        GATE => RealTimeUnit::Gate(next),
        RETURN => RealTimeUnit::Return,
        _ => RealTimeUnit::Fault(FaultKind::Int),
    }
}

fn trapped(vector: u8) -> FaultKind
    ensures { result ≡ trapped vector }
{
    match vector {
        DIVIDE_ERROR => FaultKind::Divide,
        _ => FaultKind::Opcode,
    }
}

// Performs an instruction of so many bytes on the registers' own interrupt flag.
fn on_flag(
    kind: Privileged,
    count: u8,
    regs: &mut Registers,
    bus: &mut RealTimeBus<'_>,
) -> RealTimeUnit
    requires { is_on_flag kind ≡ true }
    ensures lent { SameLoans bus.old bus.new }
    ensures unit { IsFlagUse kind count result (over_bus regs.old bus.old) (over_bus regs.new bus.new) }
{
    match privileged(kind, count, regs, bus) {
        Stepped::Next => RealTimeUnit::Next,
        _ => RealTimeUnit::Fault(FaultKind::Memory),
    }
}

// What an instruction of so many bytes on the hard interrupt flag, or HLT, comes to.
fn privileged_use(
    kind: Privileged,
    count: u8,
    regs: &mut Registers,
    bus: &mut RealTimeBus<'_>,
) -> RealTimeUnit
    ensures lent { SameLoans bus.old bus.new }
    ensures unit { IsPrivilegedUse kind count result (over_bus regs.old bus.old) (over_bus regs.new bus.new) }
{
    match kind {
        Privileged::Cli => on_flag(kind, count, regs, bus),
        Privileged::Sti => on_flag(kind, count, regs, bus),
        Privileged::Pushf => on_flag(kind, count, regs, bus),
        Privileged::Popf => on_flag(kind, count, regs, bus),
        Privileged::Iret => RealTimeUnit::Fault(FaultKind::Privileged),
        Privileged::Hlt => RealTimeUnit::Fault(FaultKind::Privileged),
    }
}

/// One unit of a real-time activity: the instruction at EIP, or the first fault in the order of the fetch, privileged use, a
/// vector that is neither the gate's nor the return's, a port of another owner, and the first access outside.
#[tactic(auto, unfolding(crate::specs::RealTimeUnit::real_time_outcome))]
pub fn real_time_unit(regs: &mut Registers, bus: &mut RealTimeBus<'_>) -> RealTimeUnit
    ensures lent { SameLoans bus.old bus.new }
    ensures unit { IsRealTimeUnit result (over_bus regs.old bus.old) (over_bus regs.new bus.new) }
{
    match step(regs, bus) {
        Stepped::Next => RealTimeUnit::Next,
        Stepped::Trap(vector) => RealTimeUnit::Fault(trapped(vector)),
        Stepped::Interrupt(vector) => interrupted(vector, after(regs, bus)),
        Stepped::Privileged(kind, count) => privileged_use(kind, count, regs, bus),
        Stepped::Outside(_, _) => RealTimeUnit::Fault(FaultKind::Memory),
        Stepped::Port(_) => RealTimeUnit::Fault(FaultKind::Port),
    }
}

/// One unit of a real-time activity over a board and bytes that are lent, of which the first stands at the address `first`.
pub fn real_time_unit_on(
    regs: &mut Registers,
    first: u32,
    memory: &mut [u8],
    board: &mut Board,
) -> RealTimeUnit
    ensures unit { IsRealTimeUnit result (over regs.old first memory.old board.old) (over regs.new first memory.new board.new) }
{
    let mut bus = RealTimeBus::new(first, memory, board);
    real_time_unit(regs, &mut bus)
}
