// An entry.
ghost use Rattle.std.specs.Prelude.{◌≡◌, ◌≢◌, ◌<◌, ◌^◌, true, length};
ghost use Rattle.memory_model.specs.Side.{word_at, inside};
ghost use Rattle.cpu_state.specs.Registers.{esp};
ghost use Rattle.flat_memory.specs.Side.{side_of};
ghost use Rattle.soft_flags.specs.SoftFlags.{HasTableIn};
ghost use Rattle.soft_entry.specs.Entry.{entering, entered, is_gate, outside_push, doubleword_outside, frame_stored, below};

use cpu_state::{ESP, Registers};
use flat_memory::Side;
use soft_flags::SoftFlags;

/// How many bytes a descriptor has, and where its second doubleword stands (Intel 80386 manual, section 9.5).
const DESCRIPTOR_SIZE: u32 = 8;

const SECOND_DOUBLEWORD: u32 = 4;

/// The code segment that an entry pushes.
const CODE_SEGMENT: u32 = 8;

/// The bits of a descriptor's attribute byte: present, no system segment, and the type.
const PRESENT: u32 = 0x80;

const APPLICATION: u32 = 0x10;

const INTERRUPT_GATE: u32 = 0x0e;

const TRAP_GATE: u32 = 0x0f;

/// What an entry comes to.
#[derive(Clone, Copy, Debug, PartialEq, Eq)]
pub enum Entry {
    /// The vector was entered.
    Entered,
    /// The table has no present descriptor of an interrupt or trap gate for the vector. Nothing changed.
    Shutdown,
    /// The first doubleword of the frame that lies outside, by its address. Nothing changed.
    Outside(u32),
}

// An address so many bytes below another.
fn below_top(top: u32, count: u32) -> u32
    requires { count < 2 ^ 32 }
    ensures { result ≡ below top count }
{
    top.wrapping_sub(count)
}

fn is_present_gate(attribute: u32) -> bool
    requires { attribute < 256 }
    ensures { result ≡ is_gate attribute }
{
    let kind = attribute % 0x10;
    attribute >= PRESENT
        && attribute / APPLICATION % 2 == 0
        && (kind == INTERRUPT_GATE || kind == TRAP_GATE)
}

// The doubleword at an address that is on the side.
fn read(side: &Side<'_>, at: u32) -> u32
    requires { inside (side_of side.now) at 4 ≡ true }
    ensures { result ≡ word_at (side_of side.now) at 4 }
{
    match side.load32(at) {
        Some(word) => word,
        None => 0,
    }
}

fn doubleword_outside_of(side: &Side<'_>, at: u32) -> Option<u32>
    ensures { result ≡ doubleword_outside (side_of side.now) at }
{
    match side.load32(at) {
        Some(_) => None,
        None => Some(at),
    }
}

// The first doubleword of a frame below `top` that lies outside.
fn first_outside_push(side: &Side<'_>, top: u32) -> Option<u32>
    ensures { result ≡ outside_push (side_of side.now) top }
{
    if let Some(at) = doubleword_outside_of(side, below_top(top, 4)) {
        return Some(at);
    }
    if let Some(at) = doubleword_outside_of(side, below_top(top, 8)) {
        return Some(at);
    }
    doubleword_outside_of(side, below_top(top, 12))
}

// Pushes the frame.
fn push_frame(side: &mut Side<'_>, top: u32, eflags: u32, eip: u32)
    ensures stored { side_of side.new ≡ frame_stored (side_of side.old) top eflags eip }
    ensures first { side.new.first ≡ side.old.first }
    ensures same_loan { side.new.bytes.ghost_name ≡ side.old.bytes.ghost_name }
{
    let _ = side.store32(below_top(top, 4), eflags);
    let _ = side.store32(below_top(top, 8), CODE_SEGMENT);
    let _ = side.store32(below_top(top, 12), eip);
}

// Enters through a gate, whose doublewords are `low` and `high`.
fn enter_gate(
    low: u32,
    high: u32,
    push: u32,
    regs: &mut Registers,
    flags: &mut SoftFlags,
    side: &mut Side<'_>,
) -> Entry
    ensures entering { record { entry = result; registers = regs.new; flags = flags.new; side = side_of side.new }
        ≡ entered low high push regs.old flags.old (side_of side.old) (outside_push (side_of side.old) (esp regs.old)) }
    ensures unchanged { result ≢ Entry.Entered → (regs.new ≡ regs.old) × (flags.new ≡ flags.old) × (side_of side.new ≡ side_of side.old) }
    ensures same_table { (flags.new.idt ≡ flags.old.idt) × (flags.new.entries ≡ flags.old.entries) }
    ensures first { side.new.first ≡ side.old.first }
    ensures same_loan { side.new.bytes.ghost_name ≡ side.old.bytes.ghost_name }
{
    let top = regs.general[ESP];
    if let Some(at) = first_outside_push(side, top) {
        return Entry::Outside(at);
    }
    let eflags = regs.eflags.with_interrupt(flags.flag).word();
    push_frame(side, top, eflags, push);
    regs.general[ESP] = below_top(top, 12);
    regs.eip = low % 0x1_0000 + high / 0x1_0000 * 0x1_0000;
    flags.flag = flags.flag && high / 0x100 % 0x10 != INTERRUPT_GATE;
    flags.shadow = false;
    Entry::Entered
}

/// Enters a vector: pushes EFLAGS with bit 9 equal to the flag, the code segment 8 and `push`, and goes on at the offset of
/// the vector's descriptor. An interrupt gate clears the flag, a trap gate leaves it. `push` needn't be the EIP of `regs`.
#[tactic(auto, unfolding(crate::specs::Entry::entering))]
pub fn enter(
    vector: u8,
    push: u32,
    regs: &mut Registers,
    flags: &mut SoftFlags,
    side: &mut Side<'_>,
) -> Entry
    requires first { (side_of side.old).first ≡ 0 }
    requires size { length (side_of side.old).bytes < 2 ^ 32 }
    requires table { HasTableIn flags.old (length (side_of side.old).bytes) }
    ensures entering { record { entry = result; registers = regs.new; flags = flags.new; side = side_of side.new } ≡ entering vector push regs.old flags.old (side_of side.old) }
    ensures first { side.new.first ≡ side.old.first }
    ensures same_loan { side.new.bytes.ghost_name ≡ side.old.bytes.ghost_name }
    ensures unchanged { result ≢ Entry.Entered → (regs.new ≡ regs.old) × (flags.new ≡ flags.old) × (side_of side.new ≡ side_of side.old) }
    ensures same_table { (flags.new.idt ≡ flags.old.idt) × (flags.new.entries ≡ flags.old.entries) }
{
    if u32::from(vector) >= flags.entries {
        return Entry::Shutdown;
    }
    let place = flags.idt + DESCRIPTOR_SIZE * u32::from(vector);
    let low = read(side, place);
    let high = read(side, place + SECOND_DOUBLEWORD);
    if !is_present_gate(high / 0x100 % 0x100) {
        return Entry::Shutdown;
    }
    enter_gate(low, high, push, regs, flags, side)
}
