// The module.

ghost use Rattle.std.specs.Prelude.{◌≡◌, ◌<◌, ◌+◌, ◌++◌, OnOk, IfOk};
ghost use Rattle.work_maker.specs.Draws.{after, threads_from};
ghost use Rattle.work_maker.specs.Module.{making_of, timing_of, starts_from, module_code, module_of};

use crate::draws::{Draws, Thread};
use crate::made::GUEST_SIZE;
use crate::segment::{add_word, segment};
use elf_loader::Image;
use item_list::Items;
use std::alloc::{AllocError, Global};

/// How many threads the module makes.
const THREADS: u32 = 8;

/// The address of the module's first byte, which is its entry.
const ENTRY: u32 = GUEST_SIZE + 0x1000;
/// The address of what the threads do.
const WORK_LOOP: u32 = GUEST_SIZE + 0x1171;
/// Below the stacks; each has a page, and thread `i` has the one with number `i`.
const STACKS: u32 = GUEST_SIZE + 0x2_0000;

const STACK_SIZE: u32 = 0x1000;
/// The first due of the first thread, in ticks. The others follow it by one tick each.
const FIRST_DUE: u32 = 1_000;

/// The opcodes of MOV r32, imm32 (B8+rd), by register.
const MOV_ECX: u8 = 0xB9;

const MOV_EDX: u8 = 0xBA;

const MOV_EBX: u8 = 0xBB;

const MOV_ESI: u8 = 0xBE;

/// MOV EAX, 2: the gate that makes a thread.
const MAKE: [u8; 5] = [0xB8, 0x02, 0x00, 0x00, 0x00];
/// INT F8h: the gates of real-time activities.
const GATE: [u8; 2] = [0xCD, 0xF8];
/// MOV EBX, EAX, the thread that was made; MOV EAX, 6, the gate that makes a thread periodic.
const MAKE_PERIODIC: [u8; 7] = [0x89, 0xC3, 0xB8, 0x06, 0x00, 0x00, 0x00];
/// RET: the end of the init.
const RETURN: [u8; 1] = [0xC3];
/// What a thread does: it counts EAX down in each period. MOV EDI, EAX; MOV ECX, EDI; DEC ECX; JNZ; MOV EAX, 7; INT F8h; JMP.
const WORK: [u8; 16] = [
    0x89, 0xC7, 0x89, 0xF9, 0x49, 0x75, 0xFD, 0xB8, 0x07, 0x00, 0x00, 0x00, 0xCD, 0xF8, 0xEB, 0xF2,
];

/// The module of the next threads that are drawn.
#[tactic(auto, using(crate::proofs::Fits::module_length))]
pub fn draw_module(alloc: Global, draws: &mut Draws) -> Result<Image, AllocError>
    ensures drawn { IfOk result (λ image. image ≡ module_of draws.old.state) }
    ensures next { OnOk result (draws.new.state ≡ after 24 draws.old.state) }
{
    let mut code = Vec::new(alloc);
    add_code(&mut code, draws)?;
    let mut segments = Items::empty(alloc);
    segments.push(segment(ENTRY, code))?;
    Ok(Image {
        entry: ENTRY,
        segments,
    })
}

// The init, and what the threads do.
#[tactic(auto, unfolding(crate::specs::Module::module_code))]
fn add_code(code: &mut Vec<u8>, draws: &mut Draws) -> Result<(), AllocError>
    ensures code { OnOk result (code.new.items ≡ code.old.items ++ module_code draws.old.state) }
    ensures next { OnOk result (draws.new.state ≡ after 24 draws.old.state) }
{
    add_starts(code, draws)?;
    code.extend_from_slice(&RETURN)?;
    code.extend_from_slice(&WORK)?;
    Ok(())
}

// Draws the threads, and adds what makes each and makes it periodic.
fn add_starts(code: &mut Vec<u8>, draws: &mut Draws) -> Result<(), AllocError>
    ensures code { OnOk result (code.new.items ≡ code.old.items ++ starts_from 0 (threads_from 8 draws.old.state)) }
    ensures next { OnOk result (draws.new.state ≡ after 24 draws.old.state) }
{
    for index in 0..THREADS {
        let thread = draws.thread();
        add_making(code, index, thread)?;
        add_timing(code, index, thread)?;
    }
    Ok(())
}

fn add_making(code: &mut Vec<u8>, index: u32, thread: Thread) -> Result<(), AllocError>
    requires { index < 8 }
    ensures { OnOk result (code.new.items ≡ code.old.items ++ making_of index thread) }
{
    code.extend_from_slice(&MAKE)?;
    add_word(code, MOV_EBX, WORK_LOOP)?;
    add_word(code, MOV_ECX, thread.priority)?;
    add_word(code, MOV_EDX, STACKS + STACK_SIZE * (index + 1))?;
    add_word(code, MOV_ESI, thread.work)?;
    code.extend_from_slice(&GATE)?;
    Ok(())
}

fn add_timing(code: &mut Vec<u8>, index: u32, thread: Thread) -> Result<(), AllocError>
    requires { index < 8 }
    ensures { OnOk result (code.new.items ≡ code.old.items ++ timing_of index thread) }
{
    code.extend_from_slice(&MAKE_PERIODIC)?;
    add_word(code, MOV_ECX, FIRST_DUE + index)?;
    add_word(code, MOV_EDX, thread.period)?;
    code.extend_from_slice(&GATE)?;
    Ok(())
}
