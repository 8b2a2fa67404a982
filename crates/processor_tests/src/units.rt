// Units as on a real processor, and where an access lies outside.
mod arithmetic;
mod bits_and_strings;
mod moves;
mod stack_and_jumps;

use crate::rows::{Kind, check, numbers};
use arithmetic::ARITHMETIC;
use bits_and_strings::BITS_AND_STRINGS;
use cpu_state::{Access, Bus, EAX, ESP, Eflags, Privileged, Registers, Width};
use i386_effects::Stepped;
use i386_execute::{after, privileged, step};
use moves::MOVES;
use stack_and_jumps::STACK_AND_JUMPS;
use std::alloc::Global;

/// A side of memory that is lent, with no ports.
#[derive(Drop)]
struct SmallBus<'a> {
    first: u32,
    bytes: &'a mut [u8],
}

impl<'a> Bus for SmallBus<'a> {
    ghost use Rattle.std.specs.Prelude.{[], ◌∷◌, false};

    type Devices = ();

    ghost state = { λ bus. record { side = record { first = bus.first; bytes = bus.bytes.now }; devices = tt } };

    ghost lenders = { λ bus. bus.bytes.ghost_name ∷ [] };

    ghost ports = { record { mine = λ _. false; answer = λ _ _ _. 0; after_in = λ devices _ _. devices; after_out = λ devices _ _ _. devices } };

    fn fits(&self, at: u32, count: u32) -> bool {
        flat_memory::fits(self.first, &*self.bytes, at, count)
    }

    fn fetch(&self, at: u32) -> &[u8] {
        flat_memory::fetch(self.first, &*self.bytes, at)
    }

    fn load(&self, at: u32, width: Width) -> Option<u32> {
        match width {
            Width::W8 => flat_memory::load_byte(self.first, &*self.bytes, at),
            Width::W16 => flat_memory::load_word(self.first, &*self.bytes, at),
            Width::W32 => flat_memory::load_doubleword(self.first, &*self.bytes, at),
        }
    }

    fn store(&mut self, at: u32, width: Width, value: u32) -> bool {
        match width {
            Width::W8 => flat_memory::store_byte(self.first, &mut *self.bytes, at, value),
            Width::W16 => flat_memory::store_word(self.first, &mut *self.bytes, at, value),
            Width::W32 => flat_memory::store_doubleword(self.first, &mut *self.bytes, at, value),
        }
    }

    fn port_in(&mut self, _port: u16, _width: Width) -> Option<u32> {
        None
    }

    fn port_out(&mut self, _port: u16, _width: Width, _value: u32) -> bool {
        false
    }
}

const FIRST: u32 = 0x1_0000;

const SIZE: usize = 4096;

const DATA: usize = 0x800;

/// What units begin with: EAX to EDI and EFLAGS, as in tests/units.c.
static BEGUN: [&str; 3] = [
    "12348182 3 ffff 10800 10c00 10c20 10810 10840 2",
    "fffffff0 ffffffdb 1 10880 10c40 10c60 10850 10820 cd7",
    "1234 57 0 10900 10d00 10d10 10a00 10a00 43",
];

// The memory that units begin with, behind the instruction.
fn fill(bytes: &mut [u8]) {
    for (i, byte) in bytes.iter_mut().enumerate() {
        *byte = if i < DATA {
            0
        } else {
            (i.wrapping_mul(7).wrapping_add(i / 256) % 256) as u8
        };
    }
}

// The memory that they leave, as a sum.
fn sum(bytes: &[u8; SIZE]) -> u32 {
    let mut weight = DATA as u32;
    let mut sum = 0u32;
    for byte in &bytes[DATA..] {
        weight = weight.wrapping_add(1);
        sum = sum.wrapping_add(weight.wrapping_mul(u32::from(*byte)));
    }
    sum
}

// The registers from EAX to EDI among the numbers of a row, from a place on.
fn general(numbers: &[u32; 13], place: usize) -> [u32; 8] {
    let mut general = [0; 8];
    for (register, number) in general.iter_mut().zip(&numbers[place.min(13)..]) {
        *register = *number;
    }
    general
}

/// Whether a unit is performed as on a real processor, at 10000h in 4096 bytes from there on; `None` where the text isn't a row. A
/// row has its bytes, the registers that it begins with, whether it is the divide error, EAX to EDI, EIP and EFLAGS after it, and
/// a sum of the memory.
pub fn agrees(alloc: Global, row: &str) -> Option<bool> {
    let (digits, rest) = row.split_once(' ')?;
    let code = hex::decode(alloc, digits).ok()?;
    let due = numbers(rest)?;
    let begun = numbers(BEGUN[due[0] as usize % 3])?;
    let mut bytes = [0u8; SIZE];
    fill(&mut bytes);
    for (place, byte) in bytes.iter_mut().zip(&code) {
        *place = *byte;
    }
    let mut regs = Registers {
        general: general(&begun, 0),
        eip: FIRST,
        eflags: Eflags::from_word(begun[8]),
    };
    let mut bus = SmallBus {
        first: FIRST,
        bytes: &mut bytes,
    };
    let stepped = step(&mut regs, &mut bus);
    let due_step = if due[1] == 1 {
        Stepped::Trap(0)
    } else {
        Stepped::Next
    };
    Some(
        stepped == due_step
            && regs.general == general(&due, 2)
            && regs.eip == due[10]
            && regs.eflags.word() == due[11]
            && sum(&bytes) == due[12],
    )
}

#[test]
fn moves_as_on_a_processor(rt: HostRuntime) {
    check(&rt, rt.alloc(), Kind::Unit, MOVES, 29);
}

#[test]
fn stack_and_jumps_as_on_a_processor(rt: HostRuntime) {
    check(&rt, rt.alloc(), Kind::Unit, STACK_AND_JUMPS, 35);
}

#[test]
fn arithmetic_as_on_a_processor(rt: HostRuntime) {
    check(&rt, rt.alloc(), Kind::Unit, ARITHMETIC, 46);
}

#[test]
fn bits_and_strings_as_on_a_processor(rt: HostRuntime) {
    check(&rt, rt.alloc(), Kind::Unit, BITS_AND_STRINGS, 35);
}

// So many units of a program at 0, with zeros behind it, in 65,536 bytes: what the last one came to, and the registers.
fn run(alloc: Global, program: &[u8], esp: u32, units: u32) -> Option<(Stepped, Registers)> {
    let mut memory = vec![in alloc; 0u8; 0x1_0000].ok()?;
    for (place, byte) in memory.iter_mut().zip(program) {
        *place = *byte;
    }
    let mut regs = Registers::new(0, esp);
    let mut bus = SmallBus {
        first: 0,
        bytes: memory.as_mut_slice(),
    };
    let mut stepped = Stepped::Next;
    for _unit in 0..units {
        stepped = step(&mut regs, &mut bus);
    }
    Some((stepped, regs))
}

/// Where the accesses of an instruction lie outside, in the order of the manual's pushes and pops; traps, interrupts and ports. A
/// row has a program, the ESP that it begins with, how many units of it are performed, EIP, EFLAGS, EAX and ESP after them, and
/// what the last one comes to.
const PROGRAMS: &str = "\
# INC EAX twice and a jump back
4040ebfc 10000 5 2 2 4 10000: Next
# a store at FFFCh is inside, and at FFFDh not
a3fcff0000a3fdff0000 10000 1 5 2 0 10000: Next
a3fcff0000a3fdff0000 10000 2 5 2 0 10000: Outside(Store, 65533)
# PUSHA with ESP 10h: the fifth store is the first outside
60 10 1 0 2 0 10: Outside(Store, 4294967292)
# POPA with ESP FFECh: the slot of ESP isn't loaded, and the one behind it lies outside
61 ffec 1 0 2 0 ffec: Outside(Load, 65536)
# POP to memory outside; PUSH of memory outside before the stack outside; CALL with a stack outside
8f0500000100 1000 1 0 2 0 1000: Outside(Store, 65536)
ff35fdff0000 0 1 0 2 0 0: Outside(Load, 65533)
e800000000 2 1 0 2 0 2: Outside(Store, 4294967294)
# a shift by 0 loads its operand, SHLD by 40 too, and DIV before its error
c1250000010000 0 1 0 2 0 0: Outside(Load, 65536)
f735ffff0000 0 1 0 2 0 0: Outside(Load, 65535)
# DIV EAX where EAX is 0
f7f0 10000 1 0 2 0 10000: Trap(0)
# MOV CL,3 and REP MOVSB; with ECX 0 the instruction ends without an access
b103f3a440 10000 3 2 2 0 10000: Next
b103f3a440 10000 5 5 2 1 10000: Next
f3a440 10000 2 3 2 1 10000: Next
# ADD AL,1 to 7Fh, SHL AL,1 of 81h, ADD [EAX],AL of empty memory
b07f0401 10000 2 4 892 80 10000: Next
b081d0e0 10000 2 4 803 2 10000: Next
 10000 1 2 46 0 10000: Next
# a jump to the end, where the fetch lies outside; UD2
e9faff0000 10000 2 ffff 2 0 10000: Outside(Fetch, 65536)
0f0b 10000 1 0 2 0 10000: Trap(6)
# INT F7h, CLI under prefix 2E, OUT DX,AL to a port of another owner
cdf7 10000 1 0 2 0 10000: Interrupt(247)
2efa 10000 1 0 2 0 10000: Privileged(Cli, 2)
66baf803ee 10000 2 4 2 0 10000: Port(1016)
";

/// Whether the units of a row's program come to what it says; `None` where it isn't a row.
pub fn comes_to(alloc: Global, row: &str) -> Option<bool> {
    let (given, due_step) = row.split_once(": ")?;
    let (digits, rest) = given.split_once(' ')?;
    let program = hex::decode(alloc, digits).ok()?;
    let due = numbers(rest)?;
    let (stepped, regs) = run(alloc, &program, due[0], due[1])?;
    let outcome = format!(in alloc; "{stepped:?}").ok()?;
    Some(
        outcome.as_str() == due_step
            && regs.eip == due[2]
            && regs.eflags.word() == due[3]
            && regs.general[EAX] == due[4]
            && regs.general[ESP] == due[5],
    )
}

#[test]
fn programs_come_to_their_units(rt: HostRuntime) {
    check(&rt, rt.alloc(), Kind::Program, PROGRAMS, 22);
}

// STI, PUSHF, POPF of all flags, and a stack outside; the address behind an instruction.
#[test]
fn flags_are_pushed_and_popped(rt: HostRuntime) {
    let mut bytes = [0x90, 0x66, 0x90, 0x0f, 0x0b, 0, 0, 0];
    let mut regs = Registers::new(1, 8);
    let mut bus = SmallBus {
        first: 0,
        bytes: &mut bytes,
    };
    let pushed = after(&regs, &bus) == 3
        && privileged(Privileged::Sti, 1, &mut regs, &mut bus) == Stepped::Next
        && privileged(Privileged::Pushf, 2, &mut regs, &mut bus) == Stepped::Next
        && bus.load(4, Width::W32) == Some(0x202);
    let popped = bus.store(4, Width::W32, 0xffff_ffff)
        && privileged(Privileged::Popf, 1, &mut regs, &mut bus) == Stepped::Next
        && regs.eflags.word() == 0xed7
        && regs.eip == 5;
    let outside = privileged(Privileged::Popf, 1, &mut regs, &mut bus);
    let cleared = privileged(Privileged::Cli, 1, &mut regs, &mut bus) == Stepped::Next
        && regs.eflags.word() == 0xcd7;
    assert!(rt; pushed && popped && outside == Stepped::Outside(Access::Load, 8) && cleared);
}
