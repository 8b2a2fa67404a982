// Registers and operands.
ghost use Rattle.std.specs.Prelude.{◌≡◌, ◌<◌, ◌%◌, ◌^◌, ℕ, Ok};
ghost use Rattle.cpu_state.specs.Width.{modulus};
ghost use Rattle.i386_effects.specs.Effect.{committed};
ghost use Rattle.i386_effects.specs.Operands.{part, with_part, base_value, index_value, effective_address, value_of, read_of, with_operand, writes_to};

use cpu_state::{Bus, EAX, EDX, Eflags, Registers, Width};
use i386_decode::{Address, Operand};

/// AL, AX or EAX, DX or EDX, and AH, by their numbers among the registers of a width.
pub const ACCUMULATOR: u8 = EAX as u8;

pub const DATA: u8 = EDX as u8;

pub const AH: u8 = 4;

/// A register of a width (Intel 80386 manual, section 2.3.1): of 32 bits, its low 16, or its lowest byte or the next
/// one.
pub fn part(width: Width, r: u8, general: &[u32; 8]) -> u32
    ensures value { result ≡ part width r general.now }
    ensures fits { result < modulus width }
{
    let whole = (r % 8) as usize;
    let quarter = (r % 4) as usize;
    match width {
        Width::W32 => general[whole],
        Width::W16 => general[whole] % 0x1_0000,
        Width::W8 => {
            if r % 8 < 4 {
                general[whole] % 0x100
            } else {
                general[quarter] / 0x100 % 0x100
            }
        }
    }
}

/// Puts the low part of a value into a register of a width. The other bits stay.
pub fn set_part(width: Width, r: u8, value: u32, general: &mut [u32; 8])
    ensures { general.new ≡ with_part width r value general.old }
{
    let whole = (r % 8) as usize;
    let quarter = (r % 4) as usize;
    match width {
        Width::W32 => general[whole] = value,
        Width::W16 => general[whole] = general[whole] / 0x1_0000 * 0x1_0000 + value % 0x1_0000,
        Width::W8 => {
            if r % 8 < 4 {
                general[whole] = general[whole] / 0x100 * 0x100 + value % 0x100;
            } else {
                general[quarter] = general[quarter] / 0x1_0000 * 0x1_0000
                    + (value % 0x100 * 0x100 + general[quarter] % 0x100);
            }
        }
    }
}

// A base, or 0.
fn base(base: &Option<u8>, general: &[u32; 8]) -> u32
    ensures { result ≡ base_value base.now general.now }
{
    match base {
        Some(r) => general[(*r % 8) as usize],
        None => 0,
    }
}

// An index with its shift, or 0.
fn index(index: &Option<(u8, u8)>, general: &[u32; 8]) -> u64
    ensures value { result ≡ index_value index.now general.now }
    ensures small { result < 2 ^ 36 }
{
    match index {
        Some((r, shift)) => general[(*r % 8) as usize] as u64 * scale(*shift) as u64,
        None => 0,
    }
}

// The factor of a shift.
fn scale(shift: u8) -> u32
    ensures value { result ≡ 2 ^ (shift % 4) }
    ensures small { result < 9 }
{
    match shift % 4 {
        0 => 1,
        1 => 2,
        2 => 4,
        _ => 8,
    }
}

/// The address of an operand, modulo 2^32 (section 2.5.3.2).
pub fn address(address: &Address, general: &[u32; 8]) -> u32
    ensures { result ≡ effective_address address.now general.now }
{
    let base = base(&address.base, general) as u64;
    let index = index(&address.index, general);
    ((base + index + address.displacement as u64) % 0x1_0000_0000) as u32
}

/// The value of an operand, with the word that was loaded for it.
pub fn value(width: Width, operand: &Operand, general: &[u32; 8], loaded: u32) -> u32
    ensures value { result ≡ value_of width operand.now general.now loaded }
    ensures fits { result < modulus width }
{
    match operand {
        Operand::Absent => 0,
        Operand::Register(r) => part(width, *r, general),
        Operand::Memory(_) => (loaded as u64 % width.modulus()) as u32,
        Operand::Immediate(x) => (*x as u64 % width.modulus()) as u32,
    }
}

/// Puts a value into an operand, if it is a register.
pub fn set(width: Width, operand: &Operand, value: u32, general: &mut [u32; 8])
    ensures { general.new ≡ with_operand width operand.now value general.old }
{
    if let Operand::Register(r) = operand {
        set_part(width, *r, value, general);
    }
}

// The low part of a word.
fn low(width: Width, word: u32) -> u32
    ensures value { result ≡ word % modulus width }
    ensures fits { result < modulus width }
{
    match width {
        Width::W8 => word % 0x100,
        Width::W16 => word % 0x1_0000,
        Width::W32 => word,
    }
}

/// The value of an operand, or the address where it lies outside.
pub fn read<B: Bus>(
    width: Width,
    operand: &Operand,
    general: &[u32; 8],
    bus: &B,
) -> Result<u32, u32>
    ensures value { result ≡ read_of (B.state bus.now).side width operand.now general.now }
    ensures fits { (a : ℕ) → result ≡ Ok a → a < modulus width }
{
    match operand {
        Operand::Register(r) => Ok(part(width, *r, general)),
        Operand::Memory(place) => {
            let at = address(place, general);
            match bus.load(at, width) {
                Some(word) => Ok(low(width, word)),
                None => Err(at),
            }
        }
        Operand::Immediate(bits) => Ok(low(width, *bits)),
        Operand::Absent => Ok(0),
    }
}

/// Puts a value into an operand and takes flags and an EIP, or does none of it, and gives the address where the operand
/// lies outside.
pub fn finish<B: Bus>(
    width: Width,
    operand: &Operand,
    value: u32,
    eflags: Eflags,
    eip: u32,
    regs: &mut Registers,
    bus: &mut B,
) -> Option<u32>
    ensures effect { record { outside = result; registers = regs.new; bus = B.state bus.new } ≡ (committed regs.old (B.state bus.old) (record regs.old { general = with_operand width operand.now value regs.old.general; eflags = eflags; eip = eip }) (writes_to width operand.now value regs.old.general)) }
    ensures lenders { B.lenders bus.new ≡ B.lenders bus.old }
{
    match operand {
        Operand::Register(r) => set_part(width, *r, value, &mut regs.general),
        Operand::Memory(place) => {
            let at = address(place, &regs.general);
            if !bus.store(at, width, value) {
                return Some(at);
            }
        }
        Operand::Absent | Operand::Immediate(_) => {}
    }
    regs.eflags = eflags;
    regs.eip = eip;
    None
}
