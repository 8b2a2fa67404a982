// Data movement.
ghost use Rattle.std.specs.Prelude.{◌≡◌, ◌≤◌, ◌<◌, ◌+◌};
ghost use Rattle.cpu_state.specs.Width.{modulus};
ghost use Rattle.i386_decode.specs.WellFormed.{memory_count};
ghost use Rattle.i386_effects.specs.Effect.{came_to};
ghost use Rattle.i386_execute.specs.Loads.{first_touches, second_touches};
ghost use Rattle.i386_execute.specs.Moves.{copied, exchanged, extended, width_named, extended_touches, zero_extended, sign_extended, half, widened, sign_spread, place_of, addressed, table_touches, translated, set_where};
ghost use Rattle.i386_execute.specs.Unit.{row, plain_row};

use crate::results::{code, complete, onward};
use cpu_state::{Access, Bus, EBX, Registers, Width};
use i386_alu::condition;
use i386_decode::{Form, Operand};
use i386_effects::{ACCUMULATOR, DATA, Stepped, address, finish, part, read, set, set_part, value};

// MOV.
#[tactic(auto, unfolding(crate::specs::Moves::copied, crate::specs::Loads::second_touches))]
pub(crate) fn copy<B: Bus>(form: &Form, length: u8, regs: &mut Registers, bus: &mut B) -> Stepped
    ensures effect { came_to result regs.new (B.state bus.new) ≡ row B.ports (second_touches form.now) (copied form.now) length regs.old (B.state bus.old) }
    ensures lenders { B.lenders bus.new ≡ B.lenders bus.old }
{
    let a = match read(form.width, &form.second, &regs.general, bus) {
        Ok(a) => a,
        Err(at) => return Stepped::Outside(Access::Load, at),
    };
    complete(a, regs.eflags, form, length, regs, bus)
}

// XCHG.
#[tactic(auto, unfolding(crate::specs::Moves::exchanged, crate::specs::Loads::first_touches))]
pub(crate) fn exchange<B: Bus>(
    form: &Form,
    length: u8,
    regs: &mut Registers,
    bus: &mut B,
) -> Stepped
    requires { memory_count form.now.first + memory_count form.now.second ≤ 1 }
    ensures effect { came_to result regs.new (B.state bus.new) ≡ row B.ports (first_touches form.now) (exchanged form.now) length regs.old (B.state bus.old) }
    ensures lenders { B.lenders bus.new ≡ B.lenders bus.old }
{
    let a = match read(form.width, &form.first, &regs.general, bus) {
        Ok(a) => a,
        Err(at) => return Stepped::Outside(Access::Load, at),
    };
    let b = value(form.width, &form.second, &regs.general, 0);
    let eip = onward(regs.eip, u32::from(length));
    let eflags = regs.eflags;
    match finish(form.width, &form.first, b, eflags, eip, regs, bus) {
        None => {
            set(form.width, &form.second, a, &mut regs.general);
            Stepped::Next
        }
        Some(at) => Stepped::Outside(Access::Store, at),
    }
}

// An operand with its sign, as a doubleword.
fn extended(width: Width, a: u32) -> u32
    requires { a < modulus width }
    ensures { result ≡ extended width a }
{
    if width.top_bit(a) {
        (a as u64 + (0x1_0000_0000 - width.modulus())) as u32
    } else {
        a
    }
}

// The width that a number of bits names.
fn width_named(operand: &Operand) -> Width
    ensures { result ≡ width_named operand.now }
{
    match operand {
        Operand::Immediate(bits) => if *bits == 8 { Width::W8 } else { Width::W16 },
        _ => Width::W16,
    }
}

// MOVZX.
#[tactic(auto, unfolding(crate::specs::Moves::zero_extended, crate::specs::Moves::extended_touches))]
pub(crate) fn extend_by_zero<B: Bus>(
    form: &Form,
    length: u8,
    regs: &mut Registers,
    bus: &mut B,
) -> Stepped
    ensures effect { came_to result regs.new (B.state bus.new) ≡ row B.ports (extended_touches form.now) (zero_extended form.now) length regs.old (B.state bus.old) }
    ensures lenders { B.lenders bus.new ≡ B.lenders bus.old }
{
    let narrow = width_named(&form.third);
    let a = match read(narrow, &form.second, &regs.general, bus) {
        Ok(a) => a,
        Err(at) => return Stepped::Outside(Access::Load, at),
    };
    complete(a, regs.eflags, form, length, regs, bus)
}

// MOVSX.
#[tactic(auto, unfolding(crate::specs::Moves::sign_extended, crate::specs::Moves::extended_touches))]
pub(crate) fn extend_by_sign<B: Bus>(
    form: &Form,
    length: u8,
    regs: &mut Registers,
    bus: &mut B,
) -> Stepped
    ensures effect { came_to result regs.new (B.state bus.new) ≡ row B.ports (extended_touches form.now) (sign_extended form.now) length regs.old (B.state bus.old) }
    ensures lenders { B.lenders bus.new ≡ B.lenders bus.old }
{
    let narrow = width_named(&form.third);
    let a = match read(narrow, &form.second, &regs.general, bus) {
        Ok(a) => a,
        Err(at) => return Stepped::Outside(Access::Load, at),
    };
    let value = extended(narrow, a);
    complete(value, regs.eflags, form, length, regs, bus)
}

// Half of a width.
fn half(width: Width) -> Width
    ensures { result ≡ half width }
{
    match width {
        Width::W8 => Width::W8,
        Width::W16 => Width::W8,
        Width::W32 => Width::W16,
    }
}

// CBW and CWDE.
#[tactic(auto, unfolding(crate::specs::Moves::widened))]
pub(crate) fn widen<B: Bus>(form: &Form, length: u8, regs: &mut Registers, bus: &mut B) -> Stepped
    ensures effect { came_to result regs.new (B.state bus.new) ≡ plain_row B.ports (widened form.now) length regs.old (B.state bus.old) }
    ensures lenders { B.lenders bus.new ≡ B.lenders bus.old }
{
    let half = half(form.width);
    let a = part(half, ACCUMULATOR, &regs.general);
    set_part(
        form.width,
        ACCUMULATOR,
        extended(half, a),
        &mut regs.general,
    );
    regs.eip = onward(regs.eip, u32::from(length));
    Stepped::Next
}

// CWD and CDQ.
#[tactic(auto, unfolding(crate::specs::Moves::sign_spread))]
pub(crate) fn spread_sign<B: Bus>(
    form: &Form,
    length: u8,
    regs: &mut Registers,
    bus: &mut B,
) -> Stepped
    ensures effect { came_to result regs.new (B.state bus.new) ≡ plain_row B.ports (sign_spread form.now) length regs.old (B.state bus.old) }
    ensures lenders { B.lenders bus.new ≡ B.lenders bus.old }
{
    let a = part(form.width, ACCUMULATOR, &regs.general);
    let sign = if form.width.top_bit(a) {
        0xffff_ffff
    } else {
        0
    };
    set_part(form.width, DATA, sign, &mut regs.general);
    regs.eip = onward(regs.eip, u32::from(length));
    Stepped::Next
}

// The address that an operand names.
fn place(operand: &Operand, general: &[u32; 8]) -> u32
    ensures { result ≡ place_of operand.now general.now }
{
    match operand {
        Operand::Memory(at) => address(at, general),
        _ => 0,
    }
}

// LEA.
#[tactic(auto, unfolding(crate::specs::Moves::addressed))]
pub(crate) fn load_address<B: Bus>(
    form: &Form,
    length: u8,
    regs: &mut Registers,
    bus: &mut B,
) -> Stepped
    ensures effect { came_to result regs.new (B.state bus.new) ≡ plain_row B.ports (addressed form.now) length regs.old (B.state bus.old) }
    ensures lenders { B.lenders bus.new ≡ B.lenders bus.old }
{
    let value = place(&form.second, &regs.general);
    complete(value, regs.eflags, form, length, regs, bus)
}

// XLAT.
#[tactic(auto, unfolding(crate::specs::Moves::translated, crate::specs::Moves::table_touches))]
pub(crate) fn translate<B: Bus>(length: u8, regs: &mut Registers, bus: &mut B) -> Stepped
    ensures effect { came_to result regs.new (B.state bus.new) ≡ row B.ports table_touches translated length regs.old (B.state bus.old) }
    ensures lenders { B.lenders bus.new ≡ B.lenders bus.old }
{
    let index = part(Width::W8, ACCUMULATOR, &regs.general);
    let at = regs.general[EBX].wrapping_add(index);
    let byte = match bus.load(at, Width::W8) {
        Some(byte) => byte,
        None => return Stepped::Outside(Access::Load, at),
    };
    set_part(Width::W8, ACCUMULATOR, byte, &mut regs.general);
    regs.eip = onward(regs.eip, u32::from(length));
    Stepped::Next
}

// SETcc.
#[tactic(auto, unfolding(crate::specs::Moves::set_where))]
pub(crate) fn set_on_condition<B: Bus>(
    form: &Form,
    length: u8,
    regs: &mut Registers,
    bus: &mut B,
) -> Stepped
    ensures effect { came_to result regs.new (B.state bus.new) ≡ plain_row B.ports (set_where form.now) length regs.old (B.state bus.old) }
    ensures lenders { B.lenders bus.new ≡ B.lenders bus.old }
{
    let holds = condition(code(&form.second, regs), regs.eflags);
    let value = if holds { 1 } else { 0 };
    complete(value, regs.eflags, form, length, regs, bus)
}
