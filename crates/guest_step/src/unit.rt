// The guest's unit.
ghost use Rattle.std.specs.Prelude.{◌≡◌, ◌≢◌, ◌≤◌, ◌+◌, ◌++◌, [], ◌∷◌, length, false, Some};
ghost use Rattle.pic_8259.specs.Controllers.{latch_of};
ghost use Rattle.port_map.specs.declared.com_port.ComPort.TheVariants as com_port;
ghost use Rattle.port_board.specs.Board.{accessed, rises_of, IsSampled};
ghost use Rattle.soft_flags.specs.SoftFlags.{HasTableIn};
ghost use Rattle.line_kinds.specs.declared.kinds.GLine.TheVariants.{Breach as BreachLine};
ghost use Rattle.line_kinds.specs.declared.kinds.Who.TheVariants as whos;
ghost use Rattle.bare_machine.specs.Unit.{instruction as instruction_of, guest_unit as guest_unit_of, breach_kind};
ghost use Rattle.hardware_steps.specs.HardwareOf.{IsBoard};
ghost use Rattle.schedule_steps.specs.Dues.{has_come};
ghost use Rattle.machine_state.specs.Parts.{MachineParts};
ghost use Rattle.machine_state.specs.Running.{IsRunning};
ghost use Rattle.guest_step.specs.Leaves.{parts, bare_marked, CanBegin, Leaves, LeavesBoard, Performs, Times, effect_on, com1_of, asked_after};
ghost use Rattle.guest_step.specs.Unit.{GuestStep};

use crate::entries::{enter_line, enter_vector, line_to_enter};
use crate::gates::perform_gate;
use crate::kinds::breach_kind;
use breach_monitor::{Breach, GuestUnit, guest_unit_on, unit_keeps_others, unit_of_serial};
use cpu_state::Registers;
use flat_memory::FlatMemory;
use hardware_steps::unit_edges;
use machine_state::{DueChange, Guest};
use port_board::Board;
use port_map::ComPort;
use rt_fifos::Fifos;
use rt_timeline::Timeline;
use trace_lines::{GLine, Lines, Mode};

// A unit of the processor over the guest's part of the memory and COM1.
#[tactic(auto, unfolding(breach_monitor::specs::SerialUnit::unit_at))]
fn run_unit(memory: &mut FlatMemory, registers: &mut Registers, board: &mut Board) -> GuestUnit
    ensures performs { Performs (effect_on memory.old registers.old board.old) result memory.old memory.new registers.old registers.new }
    ensures board { board.new ≡ accessed com_port.Com1 (effect_on memory.old registers.old board.old).bus.devices board.old }
    ensures sampled { IsSampled board.old → IsSampled board.new }
    ensures unchanged { result ≢ GuestUnit.Next
        → (registers.new ≡ registers.old) × (memory.new ≡ memory.old) × (board.new ≡ board.old) }
{
    unit_of_serial(ComPort::Com1);
    unit_keeps_others(ComPort::Com1);
    guest_unit_on(registers, memory.guest(), board)
}

// The same, of a board that stays as it must be.
fn perform(memory: &mut FlatMemory, registers: &mut Registers, board: &mut Board) -> GuestUnit
    requires { IsBoard board.old }
    ensures performs { Performs (effect_on memory.old registers.old board.old) result memory.old memory.new registers.old registers.new }
    ensures com1 { com1_of board.new ≡ (effect_on memory.old registers.old board.old).bus.devices }
    ensures after { board.new ≡ accessed com_port.Com1 (com1_of board.new) board.old }
    ensures board { IsBoard board.new }
    ensures unchanged { result ≢ GuestUnit.Next
        → (registers.new ≡ registers.old) × (memory.new ≡ memory.old) × (board.new ≡ board.old) }
{
    run_unit(memory, registers, board)
}

fn show_breach(breach: Breach, lines: &mut Lines)
    requires { length lines.old.g ≤ 7 }
    ensures { lines.new ≡ record lines.old { g = lines.old.g ++ BreachLine (breach_kind breach) ∷ [] } }
{
    lines.push_g(GLine::Breach(breach_kind(breach)));
}

// An instruction was performed: the shadow, if one stood, ends.
fn end_shadow(guest: &mut Guest)
    ensures { guest.new ≡ record guest.old { soft = record guest.old.soft { shadow = false } } }
{
    guest.soft.unit_done();
}

// One instruction of a guest that runs, with its lines.
fn instruction(
    now: u32,
    memory: &mut FlatMemory,
    registers: &mut Registers,
    board: &mut Board,
    guest: &mut Guest,
    timeline: &mut Timeline,
    fifos: &mut Fifos,
    lines: &mut Lines,
) -> DueChange
    requires can_begin { CanBegin (parts memory.old registers.old guest.old lines.old) }
    requires runs { guest.old.mode ≡ Mode.Runs }
    requires board { IsBoard board.old }
    requires taken { rises_of board.old ≡ 0 }
    requires room { length lines.old.h ≤ 64 }
    ensures leaves { let old = parts memory.old registers.old guest.old lines.old in
        let new = parts memory.new registers.new guest.new lines.new in
        Leaves (instruction_of now (bare_marked old (com1_of board.old)))
        (com1_of board.new) (asked_after (com1_of board.old) (com1_of board.new) guest.new.pending) fifos.old fifos.new old new }
    ensures board { LeavesBoard board.old board.new lines.old.h lines.new.h }
    ensures times { Times now result guest.old guest.new timeline.old timeline.new }
{
    match perform(memory, registers, board) {
        GuestUnit::Next => {
            end_shadow(guest);
            unit_edges(board, lines);
            DueChange::Same
        }
        GuestUnit::Enter(vector, push) => {
            enter_vector(vector, push, memory, registers, guest, lines);
            DueChange::Same
        }
        GuestUnit::Gate(number, next) => {
            perform_gate(
                number, next, now, memory, registers, guest, timeline, fifos, lines,
            )
        }
        GuestUnit::Breach(breach) => {
            guest.mode = Mode::Stopped;
            show_breach(breach, lines);
            DueChange::Same
        }
    }
}

// What applies first: a stopped guest does nothing; an asked line is entered; a halted guest does nothing; one instruction is performed.
#[tactic(auto, unfolding(bare_machine::specs::Unit::guest_unit))]
fn first_of_all(
    now: u32,
    memory: &mut FlatMemory,
    registers: &mut Registers,
    board: &mut Board,
    guest: &mut Guest,
    timeline: &mut Timeline,
    fifos: &mut Fifos,
    lines: &mut Lines,
) -> DueChange
    requires can_begin { CanBegin (parts memory.old registers.old guest.old lines.old) }
    requires board { IsBoard board.old }
    requires taken { rises_of board.old ≡ 0 }
    requires room { length lines.old.h ≤ 64 }
    ensures leaves { let old = parts memory.old registers.old guest.old lines.old in
        let new = parts memory.new registers.new guest.new lines.new in
        Leaves (guest_unit_of now (bare_marked old (com1_of board.old)))
        (com1_of board.new) (asked_after (com1_of board.old) (com1_of board.new) guest.new.pending) fifos.old fifos.new old new }
    ensures board { LeavesBoard board.old board.new lines.old.h lines.new.h }
    ensures times { Times now result guest.old guest.new timeline.old timeline.new }
{
    if guest.mode == Mode::Stopped {
        return DueChange::Same;
    }
    if let Some(line) = line_to_enter(guest) {
        enter_line(line, memory, registers, guest, lines);
        return DueChange::Same;
    }
    if guest.mode == Mode::Halted {
        return DueChange::Same;
    }
    instruction(now, memory, registers, board, guest, timeline, fifos, lines)
}

/// The guest's unit in tick `now`, with its line, if it has one, and that of the answer to its call. Where the guest is stopped, nothing happens. Else an asked line that may be
/// entered goes first. Else, where the guest is halted, nothing happens. It comes only in a tick that drains, behind the drain: so nothing
/// is latched, and no due of the guest has come. Answers whether the dues may have changed: function 3 of INT F6h sets the guest's timer.
pub fn guest_unit(
    now: u32,
    memory: &mut FlatMemory,
    registers: &mut Registers,
    board: &mut Board,
    guest: &mut Guest,
    timeline: &mut Timeline,
    fifos: &mut Fifos,
    lines: &mut Lines,
) -> DueChange
    requires tick { now ≤ 1000000000 }
    requires size { length memory.old.guest ≤ 16777216 }
    requires table { HasTableIn guest.old.soft (length memory.old.guest) }
    requires board { IsBoard board.old }
    requires taken { rises_of board.old ≡ 0 }
    requires emptied { latch_of board.old.pair ≡ 0 }
    requires calm { has_come now timeline.old.guest ≡ false }
    requires room { (length lines.old.g ≤ 7) × ((length lines.old.r ≤ 120) × (length lines.old.h ≤ 64)) }
    ensures step { (m : MachineParts) → m.ticks ≡ now → m.processor.on ≡ Some whos.Guest
        → IsRunning (record m {
          memory = memory.old;
          processor = record m.processor { registers = registers.old };
          board = board.old;
          guest = guest.old;
          all = record m.all { timeline = timeline.old; fifos = fifos.old };
        })
        → GuestStep now (record m {
          memory = memory.old;
          processor = record m.processor { registers = registers.old };
          board = board.old;
          guest = guest.old;
          all = record m.all { timeline = timeline.old; fifos = fifos.old };
        })
        (record m {
          memory = memory.new;
          processor = record m.processor { registers = registers.new };
          board = board.new;
          guest = guest.new;
          all = record m.all { timeline = timeline.new; fifos = fifos.new };
        }) lines.old lines.new result }
    ensures few { length lines.new.h ≤ length lines.old.h + 16 }
{
    first_of_all(now, memory, registers, board, guest, timeline, fifos, lines)
}
