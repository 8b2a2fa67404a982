// The gates on FIFOs.
ghost use Rattle.std.specs.Prelude.{◌≡◌, ◌≤◌, ℕ, take, true};
ghost use Rattle.memory_model.specs.Side.{covers, stored};
ghost use Rattle.rt_constants.specs.declared.limits.TheConstants.{BYTES_LIMIT};
ghost use Rattle.rt_fifos.specs.Fifos.{get_reply};
ghost use Rattle.rt_fifos.specs.Room.{IsAtMost};
ghost use Rattle.module_gates.specs.Replies.{count_of};
ghost use Rattle.line_kinds.specs.declared.kinds.Who.{Who};
ghost use Rattle.flat_memory.specs.Side.{side_of};
ghost use Rattle.gate_table.specs.declared.names.GateName.TheVariants as names;
ghost use Rattle.gate_table.specs.Gates.{GateParts, answers, gate_row, range_of};
ghost use Rattle.module_gates.specs.Families.{family_of};
ghost use Rattle.module_gates.specs.declared.family.Family.TheVariants as families;
ghost use Rattle.module_gates.specs.Effects.{row_answers};
ghost use Rattle.module_gates.specs.Ranges.{IsInRange};

use flat_memory::Side;
use gate_table::{GateName, Request};
use rt_fifos::Fifos;
use side_ranges::{range, store_bytes};

/// Moves the first bytes of a FIFO, at most so many, to the front of these, and says how many; -19 exactly where there is no such FIFO.
pub fn take_out(fifo: u32, count: u32, fifos: &mut Fifos, into: &mut [u8; 256]) -> i32
    requires { count ≤ BYTES_LIMIT }
    ensures result { result ≡ (get_reply fifo count fifos.old).result }
    ensures few { IsAtMost count result }
    ensures bytes { take (count_of result) into.new ≡ (get_reply fifo count fifos.old).bytes }
    ensures fifos { fifos.new ≡ (get_reply fifo count fifos.old).fifos }
{
    fifos.get(fifo, &mut into[..count as usize])
}

// Stores the bytes that a result counts.
fn store_counted(got: i32, at: u32, bytes: &[u8; 256], side: &mut Side<'_>)
    requires few { count_of got ≤ BYTES_LIMIT }
    requires inside { covers (side_of side.old) at (count_of got) ≡ true }
    ensures stored { side_of side.new ≡ stored (side_of side.old) at (take (count_of got) bytes.now) }
    ensures same_loan { side.new.bytes.ghost_name ≡ side.old.bytes.ghost_name }
{
    if got > 0 {
        store_bytes(side, at, &bytes[..got as usize]);
    }
}

// Function 14, rtf_get.
fn get(q: &Request, fifos: &mut Fifos, side: &mut Side<'_>) -> i32
    requires { IsInRange (side_of side.old) (range_of q.now names.FifoGet) }
    ensures answer { (t : ℕ) (who : Who) (p : GateParts) → gate_row t who q.now (record p { fifos = fifos.old; side = side_of side.old }) names.FifoGet
        ≡ answers result (record p { fifos = fifos.new; side = side_of side.new }) }
    ensures first { side.new.first ≡ side.old.first }
    ensures same_loan { side.new.bytes.ghost_name ≡ side.old.bytes.ghost_name }
{
    let mut into = [0; 256];
    let result = take_out(q.ebx, q.edx, fifos, &mut into);
    store_counted(result, q.ecx, &into, side);
    result
}

/// A gate on FIFOs.
pub fn fifo_row(name: GateName, q: &Request, fifos: &mut Fifos, side: &mut Side<'_>) -> i32
    requires name { family_of name ≡ families.Fifos }
    requires range { IsInRange (side_of side.old) (range_of q.now name) }
    ensures answer { (t : ℕ) (who : Who) (p : GateParts) → gate_row t who q.now (record p { fifos = fifos.old; side = side_of side.old }) name
        ≡ row_answers name q.now (side_of side.old) result (record p { fifos = fifos.new; side = side_of side.new }) }
    ensures first { side.new.first ≡ side.old.first }
    ensures same_loan { side.new.bytes.ghost_name ≡ side.old.bytes.ghost_name }
{
    match name {
        GateName::FifoCreate => fifos.create(q.ebx, q.ecx),
        GateName::FifoDestroy => fifos.destroy(q.ebx),
        GateName::FifoPut => fifos.put(q.ebx, range(side.first(), side.bytes(), q.ecx, q.edx)),
        GateName::FifoGet => get(q, fifos, side),
        GateName::FifoFlush => fifos.flush(q.ebx),
        GateName::FifoCreateHandler => fifos.set_handler(q.ebx, q.ecx),
        _ => fifos.count(q.ebx),
    }
}
