// Entries through the guest's descriptor table. Lines are rare: each is pushed where it is made, so that no tick without one makes room
// for it.
ghost use Rattle.std.specs.Prelude.{◌≡◌, ◌≢◌, ◌<◌, ◌^◌, length, if◌then◌else◌, None, IfSome};
ghost use Rattle.flat_memory.specs.Side.{side_at};
ghost use Rattle.line_sets.specs.LineSet.{without_line};
ghost use Rattle.soft_flags.specs.SoftFlags.{HasTableIn, is_open};
ghost use Rattle.pending_irqs.specs.Pending.{lowest_enabled};
ghost use Rattle.soft_entry.specs.Entry.{entering};
ghost use Rattle.bare_machine.specs.Unit.{int_entry, asked_entry};
ghost use Rattle.guest_step.specs.Leaves.{parts, bare_marked, CanBegin, LeavesAlone};

use cpu_state::Registers;
use flat_memory::{FlatMemory, Side};
use machine_state::Guest;
use soft_entry::{Entry, enter};
use soft_flags::SoftFlags;
use trace_lines::{BreachKind, GLine, Lines, Mode};

/// The vector of the first interrupt line; that of line n is n above it.
const FIRST_LINE: u8 = 0x20;

// An entry over bytes from address 0 on.
fn enter_on(
    vector: u8,
    push: u32,
    registers: &mut Registers,
    soft: &mut SoftFlags,
    bytes: &mut [u8],
) -> Entry
    requires size { length bytes.old < 2 ^ 32 }
    requires table { HasTableIn soft.old (length bytes.old) }
    ensures entering { record { entry = result; registers = registers.new; flags = soft.new; side = side_at 0 bytes.new }
        ≡ entering vector push registers.old soft.old (side_at 0 bytes.old) }
    ensures unchanged { result ≢ Entry.Entered → (registers.new ≡ registers.old) × (soft.new ≡ soft.old) × (bytes.new ≡ bytes.old) }
    ensures table { HasTableIn soft.new (length bytes.old) }
{
    let mut side = Side::new(0, bytes);
    enter(vector, push, registers, soft, &mut side)
}

/// A trap or an interrupt of a guest that runs, which pushes the EIP `push`, with its line.
pub fn enter_vector(
    vector: u8,
    push: u32,
    memory: &mut FlatMemory,
    registers: &mut Registers,
    guest: &mut Guest,
    lines: &mut Lines,
)
    requires can_begin { CanBegin (parts memory.old registers.old guest.old lines.old) }
    requires runs { guest.old.mode ≡ Mode.Runs }
    ensures leaves { let old = parts memory.old registers.old guest.old lines.old in
        let new = parts memory.new registers.new guest.new lines.new in
        (com1 : _) → LeavesAlone (int_entry vector push (bare_marked old com1)) com1 new.guest.pending old new }
    ensures edges { lines.new.h ≡ lines.old.h }
    ensures timer { (guest.new.timer_start ≡ guest.old.timer_start) × (guest.new.timer_period ≡ guest.old.timer_period) }
{
    match enter_on(vector, push, registers, &mut guest.soft, memory.guest()) {
        Entry::Entered => lines.push_g(GLine::Int(u32::from(vector))),
        Entry::Shutdown => {
            guest.mode = Mode::Stopped;
            lines.push_g(GLine::Shutdown(u32::from(vector)));
        }
        Entry::Outside(at) => {
            guest.mode = Mode::Stopped;
            lines.push_g(GLine::Breach(BreachKind::Store(at)));
        }
    }
}

// Where an asked line is entered, it is asked no more, and a halted guest runs.
fn begin_handler(line: u8, guest: &mut Guest)
    requires { line < 32 }
    ensures { guest.new ≡ record guest.old { pending = without_line guest.old.pending line; mode = Mode.Runs } }
{
    guest.pending.clear(line);
    guest.mode = Mode::Runs;
}

/// An asked line, with its line.
pub fn enter_line(
    line: u8,
    memory: &mut FlatMemory,
    registers: &mut Registers,
    guest: &mut Guest,
    lines: &mut Lines,
)
    requires line { line < 32 }
    requires can_begin { CanBegin (parts memory.old registers.old guest.old lines.old) }
    ensures leaves { let old = parts memory.old registers.old guest.old lines.old in
        let new = parts memory.new registers.new guest.new lines.new in
        (com1 : _) → LeavesAlone (asked_entry line (bare_marked old com1)) com1 new.guest.pending old new }
    ensures edges { lines.new.h ≡ lines.old.h }
    ensures timer { (guest.new.timer_start ≡ guest.old.timer_start) × (guest.new.timer_period ≡ guest.old.timer_period) }
{
    let vector = FIRST_LINE + line;
    match enter_on(
        vector,
        registers.eip,
        registers,
        &mut guest.soft,
        memory.guest(),
    ) {
        Entry::Entered => {
            begin_handler(line, guest);
            lines.push_g(GLine::Enter(u32::from(vector)));
        }
        Entry::Shutdown => {
            guest.mode = Mode::Stopped;
            lines.push_g(GLine::Shutdown(u32::from(vector)));
        }
        Entry::Outside(at) => {
            guest.mode = Mode::Stopped;
            lines.push_g(GLine::Breach(BreachKind::Store(at)));
        }
    }
}

/// The line that is to be entered: the lowest that is asked and enabled, where the flag is set and no shadow stands.
pub fn line_to_enter(guest: &Guest) -> Option<u8>
    ensures line { result
        ≡ (if is_open guest.now.soft then lowest_enabled guest.now.pending guest.now.soft.mask else None) }
    ensures below { IfSome result (λ n. n < 32) }
{
    let open = guest.soft.may_enter();
    if open {
        guest.pending.lowest(guest.soft.mask)
    } else {
        None
    }
}
