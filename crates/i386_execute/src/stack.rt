// The stack, and calls.
ghost use Rattle.std.specs.Prelude.{◌≡◌};
ghost use Rattle.i386_effects.specs.Effect.{came_to};
ghost use Rattle.i386_execute.specs.Loads.{first_touches};
ghost use Rattle.i386_execute.specs.Stack.{below, above, slot, pushed, all_pushed, top_touches, popped, all_touches, all_popped, frame_touches, leave, target_read, called, returned, jumped};
ghost use Rattle.i386_execute.specs.Unit.{row, plain_row};

use crate::results::{made, onward, port};
use cpu_state::{Access, Bus, EBP, ESP, Registers, Width};
use i386_decode::{Form, Operand};
use i386_effects::{Stepped, Touch, Words, address, load_all, push_eight, read, set, word};

// ESP moved down by n bytes.
pub(crate) fn below(regs: &Registers, n: u32) -> u32
    ensures { result ≡ below regs.now n }
{
    regs.general[ESP].wrapping_sub(n)
}

// ESP moved up by n bytes.
pub(crate) fn above(regs: &Registers, n: u32) -> u32
    ensures { result ≡ above regs.now n }
{
    regs.general[ESP].wrapping_add(n)
}

// PUSH.
#[tactic(auto, unfolding(crate::specs::Stack::pushed, crate::specs::Loads::first_touches))]
pub(crate) fn push<B: Bus>(form: &Form, length: u8, regs: &mut Registers, bus: &mut B) -> Stepped
    ensures effect { came_to result regs.new (B.state bus.new) ≡ row B.ports (first_touches form.now) (pushed form.now) length regs.old (B.state bus.old) }
    ensures lenders { B.lenders bus.new ≡ B.lenders bus.old }
{
    let a = match read(form.width, &form.first, &regs.general, bus) {
        Ok(a) => a,
        Err(at) => return Stepped::Outside(Access::Load, at),
    };
    let at = below(regs, form.width.bytes());
    if !bus.store(at, form.width, a) {
        return Stepped::Outside(Access::Store, at);
    }
    regs.general[ESP] = at;
    regs.eip = onward(regs.eip, u32::from(length));
    Stepped::Next
}

// PUSHA.
#[tactic(auto, unfolding(crate::specs::Stack::all_pushed))]
pub(crate) fn push_all<B: Bus>(length: u8, regs: &mut Registers, bus: &mut B) -> Stepped
    ensures effect { came_to result regs.new (B.state bus.new) ≡ plain_row B.ports all_pushed length regs.old (B.state bus.old) }
    ensures lenders { B.lenders bus.new ≡ B.lenders bus.old }
{
    let words = regs.general;
    let mut after = *regs;
    after.general[ESP] = below(regs, 32);
    after.eip = onward(regs.eip, u32::from(length));
    made(push_eight(&after, words[ESP], &words, regs, bus))
}

// POP. The address of an operand in memory is computed after ESP has moved.
#[tactic(auto, unfolding(crate::specs::Stack::popped, crate::specs::Stack::top_touches))]
pub(crate) fn pop<B: Bus>(form: &Form, length: u8, regs: &mut Registers, bus: &mut B) -> Stepped
    ensures effect { came_to result regs.new (B.state bus.new) ≡ row B.ports (top_touches form.now.width) (popped form.now) length regs.old (B.state bus.old) }
    ensures lenders { B.lenders bus.new ≡ B.lenders bus.old }
{
    let top = regs.general[ESP];
    let word = match bus.load(top, form.width) {
        Some(word) => word,
        None => return Stepped::Outside(Access::Load, top),
    };
    let mut general = regs.general;
    general[ESP] = above(regs, form.width.bytes());
    match &form.first {
        Operand::Memory(place) => {
            let at = address(place, &general);
            if !bus.store(at, form.width, word) {
                return Stepped::Outside(Access::Store, at);
            }
        }
        _ => set(form.width, &form.first, word, &mut general),
    }
    regs.general = general;
    regs.eip = onward(regs.eip, u32::from(length));
    Stepped::Next
}

// The load of a slot above the top of the stack.
fn slot(regs: &Registers, n: u32) -> Touch
    ensures { result ≡ slot regs.now n }
{
    Touch {
        at: above(regs, n),
        width: Width::W32,
    }
}

// The loads of POPA: that of the slot of ESP isn't made.
#[tactic(auto, unfolding(crate::specs::Stack::all_touches))]
fn all_touches(regs: &Registers) -> [Touch; 7]
    ensures { result ≡ all_touches regs.now }
{
    [
        slot(regs, 0),
        slot(regs, 4),
        slot(regs, 8),
        slot(regs, 16),
        slot(regs, 20),
        slot(regs, 24),
        slot(regs, 28),
    ]
}

// POPA.
#[tactic(auto, unfolding(crate::specs::Stack::all_popped))]
pub(crate) fn pop_all<B: Bus>(length: u8, regs: &mut Registers, bus: &mut B) -> Stepped
    ensures effect { came_to result regs.new (B.state bus.new) ≡ row B.ports all_touches all_popped length regs.old (B.state bus.old) }
    ensures lenders { B.lenders bus.new ≡ B.lenders bus.old }
{
    let mut after = *regs;
    after.eip = onward(regs.eip, u32::from(length));
    let touches = all_touches(&after);
    let mut words = Words::new();
    if let Some(at) = load_all(&touches, &mut words, bus) {
        return Stepped::Outside(Access::Load, at);
    }
    let words = words.as_slice();
    after.general = [
        word(words, 6),
        word(words, 5),
        word(words, 4),
        word(words, 3),
        above(regs, 32),
        word(words, 2),
        word(words, 1),
        word(words, 0),
    ];
    *regs = after;
    Stepped::Next
}

// LEAVE.
#[tactic(auto, unfolding(crate::specs::Stack::leave, crate::specs::Stack::frame_touches))]
pub(crate) fn leave<B: Bus>(length: u8, regs: &mut Registers, bus: &mut B) -> Stepped
    ensures effect { came_to result regs.new (B.state bus.new) ≡ row B.ports frame_touches leave length regs.old (B.state bus.old) }
    ensures lenders { B.lenders bus.new ≡ B.lenders bus.old }
{
    let frame = regs.general[EBP];
    let word = match bus.load(frame, Width::W32) {
        Some(word) => word,
        None => return Stepped::Outside(Access::Load, frame),
    };
    regs.general[ESP] = frame.wrapping_add(4);
    regs.general[EBP] = word;
    regs.eip = onward(regs.eip, u32::from(length));
    Stepped::Next
}

// Where CALL and JMP go from the address behind them, or the address where the operand lies outside.
fn target<B: Bus>(form: &Form, eip: u32, general: &[u32; 8], bus: &B) -> Result<u32, u32>
    ensures { result ≡ target_read (B.state bus.now).side eip form.now.width form.now.first general.now }
{
    match &form.first {
        Operand::Immediate(displacement) => Ok(eip.wrapping_add(*displacement)),
        _ => read(form.width, &form.first, general, bus),
    }
}

// CALL.
#[tactic(auto, unfolding(crate::specs::Stack::called, crate::specs::Loads::first_touches))]
pub(crate) fn call<B: Bus>(form: &Form, length: u8, regs: &mut Registers, bus: &mut B) -> Stepped
    ensures effect { came_to result regs.new (B.state bus.new) ≡ row B.ports (first_touches form.now) (called form.now) length regs.old (B.state bus.old) }
    ensures lenders { B.lenders bus.new ≡ B.lenders bus.old }
{
    let eip = onward(regs.eip, u32::from(length));
    let target = match target(form, eip, &regs.general, bus) {
        Ok(target) => target,
        Err(at) => return Stepped::Outside(Access::Load, at),
    };
    let at = below(regs, 4);
    if !bus.store(at, Width::W32, eip) {
        return Stepped::Outside(Access::Store, at);
    }
    regs.general[ESP] = at;
    regs.eip = target;
    Stepped::Next
}

// RET.
#[tactic(auto, unfolding(crate::specs::Stack::returned, crate::specs::Stack::top_touches))]
pub(crate) fn return_from_call<B: Bus>(
    form: &Form,
    length: u8,
    regs: &mut Registers,
    bus: &mut B,
) -> Stepped
    ensures effect { came_to result regs.new (B.state bus.new) ≡ row B.ports (top_touches Width.W32) (returned form.now) length regs.old (B.state bus.old) }
    ensures lenders { B.lenders bus.new ≡ B.lenders bus.old }
{
    let top = regs.general[ESP];
    let word = match bus.load(top, Width::W32) {
        Some(word) => word,
        None => return Stepped::Outside(Access::Load, top),
    };
    regs.general[ESP] = above(regs, 4 + u32::from(port(&form.first, regs)));
    regs.eip = word;
    Stepped::Next
}

// JMP.
#[tactic(auto, unfolding(crate::specs::Stack::jumped, crate::specs::Loads::first_touches))]
pub(crate) fn jump<B: Bus>(form: &Form, length: u8, regs: &mut Registers, bus: &mut B) -> Stepped
    ensures effect { came_to result regs.new (B.state bus.new) ≡ row B.ports (first_touches form.now) (jumped form.now) length regs.old (B.state bus.old) }
    ensures lenders { B.lenders bus.new ≡ B.lenders bus.old }
{
    let eip = onward(regs.eip, u32::from(length));
    match target(form, eip, &regs.general, bus) {
        Ok(target) => {
            regs.eip = target;
            Stepped::Next
        }
        Err(at) => Stepped::Outside(Access::Load, at),
    }
}
