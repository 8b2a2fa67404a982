// The guest's unit.
ghost use Rattle.std.specs.Prelude.{◌≡◌};
ghost use Rattle.breach_monitor.specs.GuestUnit.{interrupted};
ghost use Rattle.breach_monitor.specs.UnitOverBus.{IsGuestUnit, HasSoftGate, SameLoans, over, over_bus};

use crate::GuestBus;
use cpu_state::{Access, Privileged, Registers};
use i386_execute::{Stepped, after, step};
use port_board::Board;

/// What the guest did that it may not do.
#[derive(Clone, Copy, Debug, PartialEq, Eq)]
pub enum Breach {
    /// a hard instruction on the interrupt flag, or HLT
    Privileged(Privileged),
    /// an interrupt of this vector, F7h to FFh
    Int(u8),
    /// a port of another owner: the first port of the access
    Port(u16),
    /// the first access outside its side, and the address
    Outside(Access, u32),
}

/// What a unit of the guest comes to. Only in the first case anything was changed by it.
#[derive(Clone, Copy, Debug, PartialEq, Eq)]
pub enum GuestUnit {
    /// The unit was performed.
    Next,
    /// A trap or an interrupt of this vector is to be entered, and this EIP to be pushed.
    Enter(u8, u32),
    /// The soft gate of this number is to be performed, which goes on at this EIP.
    Gate(u8, u32),
    /// The guest is to be stopped for good.
    Breach(Breach),
}

/// The first and the last of the vectors that are soft gates. No guest may use those behind them.
const FIRST_GATE: u8 = 0xf0;

const LAST_GATE: u8 = 0xf6;

fn interrupted(vector: u8, next: u32) -> GuestUnit
    ensures { result ≡ interrupted vector next }
{
    if vector < FIRST_GATE {
        GuestUnit::Enter(vector, next)
    } else if vector <= LAST_GATE {
        GuestUnit::Gate(vector, next)
    } else {
        GuestUnit::Breach(Breach::Int(vector))
    }
}

/// One unit of the guest: the instruction at EIP, or the first breach in the order of the fetch, privileged use, a vector
/// that no guest may use, a port of another owner, and the first access outside.
pub fn guest_unit(regs: &mut Registers, bus: &mut GuestBus<'_>) -> GuestUnit
    ensures lent { SameLoans bus.old bus.new }
    ensures unit { IsGuestUnit result (over_bus regs.old bus.old) (over_bus regs.new bus.new) }
    ensures gate { HasSoftGate result }
{
    let eip = regs.eip;
    match step(regs, bus) {
        Stepped::Next => GuestUnit::Next,
        Stepped::Trap(vector) => GuestUnit::Enter(vector, eip),
        Stepped::Interrupt(vector) => interrupted(vector, after(regs, bus)),
        Stepped::Privileged(kind, _) => GuestUnit::Breach(Breach::Privileged(kind)),
        Stepped::Outside(access, at) => GuestUnit::Breach(Breach::Outside(access, at)),
        Stepped::Port(port) => GuestUnit::Breach(Breach::Port(port)),
    }
}

/// One unit of the guest over a board and bytes that are lent, of which the first stands at address 0.
pub fn guest_unit_on(regs: &mut Registers, memory: &mut [u8], board: &mut Board) -> GuestUnit
    ensures unit { IsGuestUnit result (over regs.old 0 memory.old board.old) (over regs.new 0 memory.new board.new) }
    ensures gate { HasSoftGate result }
{
    let mut bus = GuestBus::new(0, memory, board);
    guest_unit(regs, &mut bus)
}
