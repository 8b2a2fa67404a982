// Calls on FIFOs, and their replies.
ghost use Rattle.std.specs.Prelude.{◌≡◌, ◌≤◌, length, take, true};
ghost use Rattle.memory_model.specs.Side.{bytes_at, covers};
ghost use Rattle.rt_constants.specs.declared.limits.TheConstants.{BYTES_LIMIT};
ghost use Rattle.flat_memory.specs.Side.{side_of};
ghost use Rattle.soft_gates.specs.Calls.{call_of, place_of, replied, with_result, TakesReply};

use cpu_state::{EAX, Registers};
use flat_memory::Side;
use side_ranges::{range, store_bytes, with_zeros};

/// A put of the first `length` of these bytes, at most 256, into a FIFO.
#[derive(Clone, Copy, Debug)]
pub struct PutCall {
    pub fifo: u32,
    pub length: u16,
    pub bytes: [u8; 256],
}

/// A get of at most `count` bytes of a FIFO, at most 256, which go to the address `place`.
#[derive(Clone, Copy, Debug)]
pub struct GetCall {
    pub fifo: u32,
    pub count: u16,
    pub place: u32,
}

/// A call of the guest on a FIFO.
#[derive(Clone, Copy, Debug)]
pub enum Call {
    Put(PutCall),
    Get(GetCall),
}

/// The put of `count` bytes of the side, from an address on, into a FIFO.
pub fn put_call(fifo: u32, at: u32, count: u32, side: &Side<'_>) -> PutCall
    requires few { count ≤ BYTES_LIMIT }
    requires inside { covers (side_of side.now) at count ≡ true }
    ensures fifo { result.fifo ≡ fifo }
    ensures length { result.length ≡ count }
    ensures bytes { take count result.bytes ≡ bytes_at (side_of side.now) at count }
{
    let bytes = with_zeros(range(side.first(), side.bytes(), at, count));
    PutCall {
        fifo,
        length: count as u16,
        bytes,
    }
}

// A call's result, as EAX has it.
fn leave_result(answer: i32, regs: &mut Registers)
    ensures { regs.new ≡ with_result answer regs.old }
{
    regs.general[EAX] = answer.cast_unsigned();
}

/// The reply to a call: its result is left in EAX, and the bytes of a get are stored at its place.
pub fn reply(call: &Call, answer: i32, bytes: &[u8], regs: &mut Registers, side: &mut Side<'_>)
    requires { TakesReply (side_of side.old) (length bytes.now) call.now }
    ensures replied { record { registers = regs.new; side = side_of side.new }
        ≡ replied (call_of call.now) (place_of call.now) answer bytes.now regs.old (side_of side.old) }
    ensures first { side.new.first ≡ side.old.first }
    ensures same_loan { side.new.bytes.ghost_name ≡ side.old.bytes.ghost_name }
{
    leave_result(answer, regs);
    if let Call::Get(get) = call {
        store_bytes(side, get.place, bytes);
    }
}
