// The processor's unit.
ghost use Rattle.std.specs.Prelude.{◌≡◌, ◌≢◌, length};
ghost use Rattle.port_map.specs.declared.com_port.ComPort.TheVariants as com_port;
ghost use Rattle.port_board.specs.Board.{accessed};
ghost use Rattle.hardware_steps.specs.HardwareOf.{IsBoard};
ghost use Rattle.machine_state.specs.Parts.{real_side};
ghost use Rattle.machine_state.specs.Running.{HasSizes};
ghost use Rattle.activity_step.specs.Performed.{Performs, outcome_over};

use breach_monitor::{
    RealTimeUnit, real_time_keeps_others, real_time_of_serial, real_time_unit_on,
};
use cpu_state::Registers;
use flat_memory::FlatMemory;
use hardware_steps::access_keeps_board;
use port_board::Board;
use port_map::ComPort;

/// The address of the first byte of the real-time part: the guest's stands in front of it.
pub fn first_address(memory: &FlatMemory) -> u32
    requires { HasSizes memory.now }
    ensures { result ≡ length memory.now.guest }
{
    memory.guest_bytes().len() as u32
}

/// One unit of the processor over the real-time part of the memory and COM2.
#[tactic(auto, unfolding(priority_schedule::specs::Unit::outcome_at))]
pub fn perform(
    memory: &mut FlatMemory,
    registers: &mut Registers,
    board: &mut Board,
) -> RealTimeUnit
    requires sizes { HasSizes memory.old }
    requires board { IsBoard board.old }
    ensures { Performs (outcome_over memory.old registers.old board.old) result memory.old memory.new registers.old registers.new
        board.old board.new }
{
    real_time_of_serial(ComPort::Com2);
    real_time_keeps_others(ComPort::Com2);
    access_keeps_board();
    let first = first_address(memory);
    real_time_unit_on(registers, first, memory.real_time(), board)
}
