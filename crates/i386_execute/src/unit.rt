// One unit.
ghost use Rattle.std.specs.Prelude.{◌≡◌, ◌≢◌, ◌≤◌, ◌+◌, length, true};
ghost use Rattle.memory_model.specs.Laws.{SamePlace};
ghost use Rattle.i386_decode.specs.WellFormed.{is_string, memory_count};
ghost use Rattle.i386_effects.specs.Effect.{came_to};
ghost use Rattle.i386_strings.specs.Iteration.{iteration};
ghost use Rattle.i386_execute.specs.Unit.{unit, address_behind, fetched_at, onward, performed, string_unit};

use crate::arithmetic::{alter, combine, compare, double_shift_operand, shift_operand};
use crate::bits::{change_bit, scan_bits, test_bit};
use crate::flags::{change_flag, give_flags, take_flags};
use crate::interrupts::{BREAKPOINT, interrupt, interrupt_on_overflow, read_port, write_port};
use crate::jumps::{branch, jump_at_zero, loop_back};
use crate::moves::{
    copy, exchange, extend_by_sign, extend_by_zero, load_address, set_on_condition, spread_sign,
    translate, widen,
};
use crate::products::{divide_accumulator, multiply_operand, multiply_signed};
use crate::results::onward;
use crate::stack::{call, jump, leave, pop, pop_all, push, push_all, return_from_call};
use cpu_state::{Access, Bus, Op, Privileged, Registers};
use i386_decode::{Extent, Form, decode};
use i386_effects::Stepped;
use i386_strings::{Iteration, iterate};

/// The exceptions that the processor raises itself: a divide error and an invalid opcode (Intel 80386 manual, sections
/// 9.8.1 and 9.8.6).
pub const DIVIDE_ERROR: u8 = 0;

pub const INVALID_OPCODE: u8 = 6;

// Whether an operation is a string instruction.
fn is_string(op: Op) -> bool
    ensures { result ≡ is_string op }
{
    match op {
        Op::Movs => true,
        Op::Cmps => true,
        Op::Stos => true,
        Op::Lods => true,
        Op::Scas => true,
        _ => false,
    }
}

// Performs one iteration of a string instruction of so many bytes.
fn perform_string<B: Bus>(form: &Form, length: u8, regs: &mut Registers, bus: &mut B) -> Stepped
    requires { is_string form.now.op ≡ true }
    ensures effect { came_to result regs.new (B.state bus.new) ≡ string_unit length (iteration form.now regs.old (B.state bus.old)) }
    ensures unchanged { result ≢ Stepped.Next → (regs.new ≡ regs.old) × (B.state bus.new ≡ B.state bus.old) }
    ensures place { SamePlace (B.state bus.old).side (B.state bus.new).side }
    ensures lenders { B.lenders bus.new ≡ B.lenders bus.old }
{
    match iterate(form, regs, bus) {
        Iteration::More => Stepped::Next,
        Iteration::Finished => {
            regs.eip = onward(regs.eip, u32::from(length));
            Stepped::Next
        }
        Iteration::Outside(kind, at) => Stepped::Outside(kind, at),
    }
}

// Performs a form of so many bytes that isn't a string instruction: the effect alone.
#[tactic(auto, unfolding(crate::specs::Unit::performed, crate::specs::Loads::loads, crate::specs::Changes::change))]
fn perform_exactly<B: Bus>(form: &Form, length: u8, regs: &mut Registers, bus: &mut B) -> Stepped
    requires { memory_count form.now.first + memory_count form.now.second ≤ 1 }
    ensures effect { came_to result regs.new (B.state bus.new) ≡ performed B.ports form.now length regs.old (B.state bus.old) }
    ensures lenders { B.lenders bus.new ≡ B.lenders bus.old }
{
    match form.op {
        Op::Mov => copy(form, length, regs, bus),
        Op::Movzx => extend_by_zero(form, length, regs, bus),
        Op::Movsx => extend_by_sign(form, length, regs, bus),
        Op::Xchg => exchange(form, length, regs, bus),
        Op::Lea => load_address(form, length, regs, bus),
        Op::Xlat => translate(length, regs, bus),
        Op::Push => push(form, length, regs, bus),
        Op::Pusha => push_all(length, regs, bus),
        Op::Pop => pop(form, length, regs, bus),
        Op::Popa => pop_all(length, regs, bus),
        Op::Add | Op::Or | Op::Adc | Op::Sbb | Op::And | Op::Sub | Op::Xor => combine(
            form, length, regs, bus,
        ),
        Op::Cmp | Op::Test => compare(form, length, regs, bus),
        Op::Inc | Op::Dec | Op::Not | Op::Neg => alter(form, length, regs, bus),
        Op::Mul => multiply_operand(form, length, regs, bus),
        Op::Imul => multiply_signed(form, length, regs, bus),
        Op::Div => divide_accumulator(false, form, length, regs, bus),
        Op::Idiv => divide_accumulator(true, form, length, regs, bus),
        Op::Cbw => widen(form, length, regs, bus),
        Op::Cwd => spread_sign(form, length, regs, bus),
        Op::Rol | Op::Ror | Op::Rcl | Op::Rcr | Op::Shl | Op::Shr | Op::Sar => shift_operand(
            form, length, regs, bus,
        ),
        Op::Shld | Op::Shrd => double_shift_operand(form, length, regs, bus),
        Op::Bt => test_bit(form, length, regs, bus),
        Op::Bts | Op::Btr | Op::Btc => change_bit(form, length, regs, bus),
        Op::Bsf | Op::Bsr => scan_bits(form, length, regs, bus),
        Op::Setcc => set_on_condition(form, length, regs, bus),
        Op::Jcc => branch(form, length, regs, bus),
        Op::Jmp => jump(form, length, regs, bus),
        Op::Call => call(form, length, regs, bus),
        Op::Ret => return_from_call(form, length, regs, bus),
        Op::Leave => leave(length, regs, bus),
        Op::Loop | Op::Loope | Op::Loopne => loop_back(form, length, regs, bus),
        Op::Jecxz => jump_at_zero(form, length, regs, bus),
        Op::Int3 => Stepped::Interrupt(BREAKPOINT),
        Op::Int => interrupt(form, length, regs, bus),
        Op::Into => interrupt_on_overflow(length, regs, bus),
        Op::Clc | Op::Stc | Op::Cmc | Op::Cld | Op::Std => change_flag(form, length, regs, bus),
        Op::Sahf => take_flags(length, regs, bus),
        Op::Lahf => give_flags(length, regs, bus),
        Op::In => read_port(form, length, regs, bus),
        Op::Out => write_port(form, length, regs, bus),
        Op::Iret => Stepped::Privileged(Privileged::Iret, length),
        Op::Cli => Stepped::Privileged(Privileged::Cli, length),
        Op::Sti => Stepped::Privileged(Privileged::Sti, length),
        Op::Pushf => Stepped::Privileged(Privileged::Pushf, length),
        Op::Popf => Stepped::Privileged(Privileged::Popf, length),
        Op::Hlt => Stepped::Privileged(Privileged::Hlt, length),
        // string instructions don't come here: an iteration of one is performed apart
        Op::Movs | Op::Cmps | Op::Stos | Op::Lods | Op::Scas => Stepped::Trap(INVALID_OPCODE),
    }
}

// Performs a form of so many bytes that isn't a string instruction.
fn perform<B: Bus>(form: &Form, length: u8, regs: &mut Registers, bus: &mut B) -> Stepped
    requires { memory_count form.now.first + memory_count form.now.second ≤ 1 }
    ensures effect { came_to result regs.new (B.state bus.new) ≡ performed B.ports form.now length regs.old (B.state bus.old) }
    ensures unchanged { result ≢ Stepped.Next → (regs.new ≡ regs.old) × (B.state bus.new ≡ B.state bus.old) }
    ensures place { SamePlace (B.state bus.old).side (B.state bus.new).side }
    ensures lenders { B.lenders bus.new ≡ B.lenders bus.old }
{
    perform_exactly(form, length, regs, bus)
}

/// Performs the instruction at EIP. What isn't performed changes neither the registers nor the bus.
// (a function of its own: where it is inlined into a loop over ticks, that loop fills its locals in each of them)
#[inline(never)]
#[tactic(auto, unfolding(crate::specs::Unit::unit))]
pub fn step<B: Bus>(regs: &mut Registers, bus: &mut B) -> Stepped
    ensures effect { came_to result regs.new (B.state bus.new) ≡ unit B.ports regs.old (B.state bus.old) }
    ensures unchanged { result ≢ Stepped.Next → (regs.new ≡ regs.old) × (B.state bus.new ≡ B.state bus.old) }
    ensures place { SamePlace (B.state bus.old).side (B.state bus.new).side }
    ensures lenders { B.lenders bus.new ≡ B.lenders bus.old }
{
    let mut form = Form::new();
    match decode(bus.fetch(regs.eip), &mut form) {
        Extent::Whole(length) => {
            if is_string(form.op) {
                perform_string(&form, length, regs, bus)
            } else {
                perform(&form, length, regs, bus)
            }
        }
        Extent::Undefined => Stepped::Trap(INVALID_OPCODE),
        Extent::Short => fetch_outside(regs.eip, bus),
    }
}

// The first byte behind those that are on the side.
fn fetch_outside<B: Bus>(eip: u32, bus: &B) -> Stepped
    ensures { result ≡ Stepped.Outside Access.Fetch (onward eip (length (fetched_at eip (B.state bus.now).side))) }
{
    Stepped::Outside(Access::Fetch, onward(eip, bus.fetch(eip).len() as u32))
}

/// The EIP behind the instruction at EIP, or EIP itself where no instruction stands there.
#[tactic(auto, unfolding(crate::specs::Unit::address_behind))]
pub fn after<B: Bus>(regs: &Registers, bus: &B) -> u32
    ensures { result ≡ address_behind regs.now (B.state bus.now).side }
{
    let mut form = Form::new();
    match decode(bus.fetch(regs.eip), &mut form) {
        Extent::Whole(length) => onward(regs.eip, u32::from(length)),
        Extent::Undefined | Extent::Short => regs.eip,
    }
}
