// The guest.

ghost use Rattle.std.specs.Prelude.{◌≡◌, ◌++◌, OnOk, IfOk};
ghost use Rattle.work_maker.specs.Bytes.{segment_at};
ghost use Rattle.work_maker.specs.Guest.{guest_code, guest_image, descriptors};

use crate::segment::{add_word, segment};
use elf_loader::{Image, Segment};
use item_list::Items;
use std::alloc::{AllocError, Global};

/// The address of the first instruction.
const ENTRY: u32 = 0x1000;
/// The address of the handler.
const HANDLER: u32 = 0x1100;
/// The address of the descriptor of vector 20h.
const DESCRIPTORS: u32 = 0x3100;

/// How many vectors have a descriptor: those of the sixteen interrupt lines.
const VECTORS: u32 = 16;

/// MOV EAX, 1, MOV EBX, 3000h, MOV ECX, 40h, INT F6h: the descriptor table.
const LOAD_TABLE: [u8; 17] = [
    0xB8, 0x01, 0x00, 0x00, 0x00, 0xBB, 0x00, 0x30, 0x00, 0x00, 0xB9, 0x40, 0x00, 0x00, 0x00, 0xCD,
    0xF6,
];
/// MOV EAX, 2, XOR EBX, EBX, INT F6h: the mask, without a line.
const CLEAR_MASK: [u8; 9] = [0xB8, 0x02, 0x00, 0x00, 0x00, 0x31, 0xDB, 0xCD, 0xF6];
/// MOV EAX, 3: the period of the timer.
const SET_TIMER: [u8; 5] = [0xB8, 0x03, 0x00, 0x00, 0x00];
/// The opcode of MOV EBX, imm32.
const MOV_EBX: u8 = 0xBB;
/// INT F6h, INT F1h, which sets the flag, INC dword [2000h], and JMP to that INC.
const GO_ON: [u8; 12] = [
    0xCD, 0xF6, 0xCD, 0xF1, 0xFF, 0x05, 0x00, 0x20, 0x00, 0x00, 0xEB, 0xF8,
];
/// INC dword [2004h], INT F2h.
const HANDLER_CODE: [u8; 8] = [0xFF, 0x05, 0x04, 0x20, 0x00, 0x00, 0xCD, 0xF2];
/// A present interrupt gate to 1100h.
const DESCRIPTOR: [u8; 8] = [0x00, 0x11, 0x08, 0x00, 0x00, 0x8E, 0x00, 0x00];

/// The guest whose timer has this period, in ticks.
pub fn guest(alloc: Global, period: u32) -> Result<Image, AllocError>
    ensures { IfOk result (λ image. image ≡ guest_image period) }
{
    let mut segments = Items::empty(alloc);
    segments.push(start(alloc, period)?)?;
    segments.push(segment(HANDLER, Vec::from_slice(alloc, &HANDLER_CODE)?))?;
    segments.push(table(alloc)?)?;
    Ok(Image {
        entry: ENTRY,
        segments,
    })
}

// The segment of the first instructions.
#[tactic(auto, using(crate::proofs::Fits::guest_length))]
fn start(alloc: Global, period: u32) -> Result<Segment, AllocError>
    ensures { IfOk result (λ made. made ≡ segment_at 0x1000 (guest_code period)) }
{
    let mut code = Vec::new(alloc);
    add_start(&mut code, period)?;
    Ok(segment(ENTRY, code))
}

#[tactic(auto, unfolding(crate::specs::Guest::guest_code))]
fn add_start(code: &mut Vec<u8>, period: u32) -> Result<(), AllocError>
    ensures { OnOk result (code.new.items ≡ code.old.items ++ guest_code period) }
{
    code.extend_from_slice(&LOAD_TABLE)?;
    code.extend_from_slice(&CLEAR_MASK)?;
    code.extend_from_slice(&SET_TIMER)?;
    add_word(code, MOV_EBX, period)?;
    code.extend_from_slice(&GO_ON)
}

// The segment of the descriptors.
#[tactic(auto, using(crate::proofs::Fits::descriptors_length))]
fn table(alloc: Global) -> Result<Segment, AllocError>
    ensures { IfOk result (λ made. made ≡ segment_at 0x3100 descriptors) }
{
    let mut bytes = Vec::new(alloc);
    add_descriptors(&mut bytes)?;
    Ok(segment(DESCRIPTORS, bytes))
}

#[tactic(auto, unfolding(crate::specs::Guest::descriptors))]
fn add_descriptors(bytes: &mut Vec<u8>) -> Result<(), AllocError>
    ensures { OnOk result (bytes.new.items ≡ bytes.old.items ++ descriptors) }
{
    for _ in 0..VECTORS {
        bytes.extend_from_slice(&DESCRIPTOR)?;
    }
    Ok(())
}
