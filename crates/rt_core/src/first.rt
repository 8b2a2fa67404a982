// The parts of a machine before its first tick.
ghost use Rattle.std.specs.Prelude.{◌≡◌, None};
ghost use Rattle.cpu_state.specs.Registers.{first_registers};
ghost use Rattle.line_kinds.specs.declared.kinds.Mode.TheVariants as modes;
ghost use Rattle.soft_flags.specs.SoftFlags.{first_flags};
ghost use Rattle.activity_contexts.specs.Contexts.{guest_registers as guest_registers_of};
ghost use Rattle.rt_core.specs.First.{first_board};

use cpu_state::Registers;
use line_kinds::Who;
use machine_state::{Guest, Processor};
use pending_irqs::Pending;
use port_board::Board;
use soft_flags::SoftFlags;
use trace_lines::Mode;

/// The board as the boot leaves it: the pair of controllers is programmed, and no timer is set.
pub fn booted_board() -> Board
    ensures { result ≡ first_board }
{
    let mut board = Board::new();
    board.pair.initialize();
    board
}

/// Nothing is on, and the guest's registers are kept: EIP at its entry, and ESP at the end of its side.
pub fn first_processor(entry: u32, size: u32) -> Processor
    ensures { result ≡ record { registers = first_registers entry size; kept = first_registers entry size; on = None } }
{
    let registers = Registers::new(entry, size);
    Processor {
        registers,
        kept: registers,
        on: None,
    }
}

/// The guest runs with its flag clear, every line masked, no table and no timer.
pub fn first_guest() -> Guest
    ensures { result ≡ record { soft = first_flags; pending = 0; mode = modes.Runs; timer_start = 0; timer_period = 0 } }
{
    Guest {
        soft: SoftFlags::new(),
        pending: Pending::new(),
        mode: Mode::Runs,
        timer_start: 0,
        timer_period: 0,
    }
}

/// The guest's registers: those of the processor where it is on, or else those that are kept.
pub fn guest_registers(processor: &Processor) -> Registers
    ensures { result ≡ guest_registers_of processor.now.on processor.now.registers processor.now.kept }
{
    match processor.on {
        Some(Who::Guest) => processor.registers,
        _ => processor.kept,
    }
}
