// The guest's calls on FIFOs.
ghost use Rattle.std.specs.Prelude.{◌≡◌, ◌≤◌, ◌<◌, ◌++◌, ◌∷◌, ◌^◌, [], length, take, if◌then◌else◌, Some};
ghost use Rattle.rt_constants.specs.declared.limits.TheConstants.{BYTES_LIMIT};
ghost use Rattle.flat_memory.specs.Side.{side_at};
ghost use Rattle.rt_fifos.specs.Fifos.{get_reply, put_reply, with_mark};
ghost use Rattle.module_gates.specs.Replies.{count_of};
ghost use Rattle.soft_flags.specs.SoftFlags.{HasTableIn};
ghost use Rattle.soft_gates.specs.Calls.{call_of, place_of, replied, IsBounded, TakesReply};
ghost use Rattle.bare_machine.specs.Unit.{call_line};
ghost use Rattle.priority_schedule.specs.Unit.{is_positive as is_positive_result};
ghost use Rattle.machine_state.specs.Parts.{guest_side};
ghost use Rattle.guest_step.specs.Leaves.{called, fifo_of as fifo_of_call, reply_to, Answers, IsShort, TakesBytes};

use cpu_state::Registers;
use flat_memory::{FlatMemory, Side};
use module_gates::take_out;
use rt_fifos::Fifos;
use soft_gates::{Call, GetCall, PutCall, reply};
use trace_lines::{GLine, Lines, RLine, Said};

/// The answer to a call: its result, and the bytes that a get takes out.
#[derive(Clone, Copy)]
pub struct Answered {
    pub result: i32,
    pub bytes: Said,
}

// The line of a call.
fn show_call(call: &Call, lines: &mut Lines)
    requires short { IsShort call.now }
    requires room { length lines.old.g ≤ 7 }
    ensures { lines.new ≡ record lines.old { g = lines.old.g ++ call_line (call_of call.now) ∷ [] } }
{
    match call {
        Call::Put(put) => lines.push_g(GLine::Put(
            put.fifo,
            Said::new(&put.bytes[..put.length as usize]),
        )),
        Call::Get(get) => lines.push_g(GLine::Get(get.fifo, u32::from(get.count))),
    }
}

// How many bytes a result counts; a failure counts none.
fn counted(value: i32) -> usize
    requires { count_of value ≤ BYTES_LIMIT }
    ensures { result ≡ count_of value }
{
    if value > 0 { value as usize } else { 0 }
}

// A put hands no bytes back.
fn put(call: &PutCall, fifos: &mut Fifos) -> Answered
    requires { call.now.length ≤ BYTES_LIMIT }
    ensures few { length result.bytes ≡ 0 }
    ensures answers { Answers result fifos.new (put_reply call.now.fifo (take call.now.length call.now.bytes) fifos.old) }
{
    let result = fifos.put(call.fifo, &call.bytes[..call.length as usize]);
    Answered {
        result,
        bytes: Said::new(&[]),
    }
}

fn get(call: &GetCall, fifos: &mut Fifos) -> Answered
    requires { call.now.count ≤ BYTES_LIMIT }
    ensures few { length result.bytes ≤ call.now.count }
    ensures answers { Answers result fifos.new (get_reply call.now.fifo call.now.count fifos.old) }
{
    let mut into = [0; 256];
    let result = take_out(call.fifo, u32::from(call.count), fifos, &mut into);
    Answered {
        result,
        bytes: Said::new(&into[..counted(result)]),
    }
}

// The FIFO of a call.
fn fifo_of(call: &Call) -> u32
    ensures { result ≡ fifo_of_call (call_of call.now) }
{
    match call {
        Call::Put(put) => put.fifo,
        Call::Get(get) => get.fifo,
    }
}

// The bytes go in or out.
fn move_bytes(call: &Call, fifos: &mut Fifos) -> Answered
    requires { IsShort call.now }
    ensures answers { Answers result fifos.new (reply_to (call_of call.now) fifos.old) }
    ensures few { TakesBytes (length result.bytes) call.now }
{
    match call {
        Call::Put(call) => put(call, fifos),
        Call::Get(call) => get(call, fifos),
    }
}

fn is_positive(value: i32) -> bool
    ensures { result ≡ is_positive_result value }
{
    value > 0
}

fn mark_where(marks: bool, fifo: u32, fifos: &mut Fifos)
    ensures { fifos.new ≡ (if marks then with_mark fifo fifos.old else fifos.old) }
{
    if marks {
        fifos.mark(fifo);
    }
}

// The answer to a call. A result above 0 marks the FIFO's handler to start.
fn answer(call: &Call, fifos: &mut Fifos) -> Answered
    requires { IsShort call.now }
    ensures fifos { fifos.new ≡ (called (Some (call_of call.now)) fifos.old).fifos }
    ensures result { result.result ≡ (reply_to (call_of call.now) fifos.old).result }
    ensures bytes { result.bytes ≡ (reply_to (call_of call.now) fifos.old).bytes }
    ensures few { TakesBytes (length result.bytes) call.now }
{
    let answered = move_bytes(call, fifos);
    mark_where(is_positive(answered.result), fifo_of(call), fifos);
    answered
}

// The guest takes the answer, over bytes from address 0 on.
fn take_reply(call: &Call, answered: &Answered, registers: &mut Registers, bytes: &mut [u8])
    requires taken { TakesReply (side_at 0 bytes.old) (length answered.now.bytes) call.now }
    requires size { length bytes.old < 2 ^ 32 }
    ensures { record { registers = registers.new; side = side_at 0 bytes.new }
        ≡ replied (call_of call.now) (place_of call.now) answered.now.result answered.now.bytes registers.old (side_at 0 bytes.old) }
{
    let mut side = Side::new(0, bytes);
    reply(
        call,
        answered.result,
        answered.bytes.as_bytes(),
        registers,
        &mut side,
    );
}

/// A call of the guest, with its line and its answer's: the guest has gone on behind the gate already, and takes the answer in this unit.
pub fn perform_call(
    call: &Call,
    memory: &mut FlatMemory,
    registers: &mut Registers,
    fifos: &mut Fifos,
    lines: &mut Lines,
)
    requires bounded { IsBounded (guest_side memory.old) call.now }
    requires size { length memory.old.guest < 2 ^ 32 }
    requires room { (length lines.old.g ≤ 7) × (length lines.old.r ≤ 120) }
    ensures replied { let reply = reply_to (call_of call.now) fifos.old in record { registers = registers.new; side = guest_side memory.new }
        ≡ replied (call_of call.now) (place_of call.now) reply.result reply.bytes registers.old (guest_side memory.old) }
    ensures size { length memory.new.guest ≡ length memory.old.guest }
    ensures real_time { memory.new.real_time ≡ memory.old.real_time }
    ensures fifos { fifos.new ≡ (called (Some (call_of call.now)) fifos.old).fifos }
    ensures lines { lines.new ≡ record lines.old {
      g = lines.old.g ++ call_line (call_of call.now) ∷ [];
      r = lines.old.r ++ (called (Some (call_of call.now)) fifos.old).lines;
    } }
{
    show_call(call, lines);
    let answered = answer(call, fifos);
    lines.push_r(RLine::Reply(answered.result, answered.bytes));
    take_reply(call, &answered, registers, memory.guest());
}
