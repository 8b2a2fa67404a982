// What an activity asks for, and the range of a gate that accesses memory.
ghost use Rattle.std.specs.Prelude.{◌≡◌, ◌<◌, ◌+◌, ◌^◌, length, Some};
ghost use Rattle.flat_memory.specs.Side.{side_of};
ghost use Rattle.gate_table.specs.Gates.{range_of, request_of};
ghost use Rattle.module_gates.specs.declared.ranges.Admission.TheVariants as admissions;
ghost use Rattle.module_gates.specs.Ranges.{admission_of, IsInRange};

use cpu_state::{EAX, EBX, ECX, EDX, ESI, Registers};
use flat_memory::Side;
use gate_table::{GateName, Request};
use rt_constants::limits::BYTES_LIMIT;
use side_ranges::first_outside_of;

/// What the registers ask for.
pub fn request(regs: &Registers) -> Request
    ensures { result ≡ request_of regs.now }
{
    Request {
        function: regs.general[EAX],
        ebx: regs.general[EBX],
        ecx: regs.general[ECX],
        edx: regs.general[EDX],
        esi: regs.general[ESI],
    }
}

/// What becomes of a gate by its range: its row answers, it fails, or a byte is outside the side.
#[derive(Clone, Copy)]
pub enum Admission {
    Fits,
    TooLong,
    Outside,
}

/// Whether the range of a gate fits, if it has one.
pub fn admit(name: GateName, q: &Request, side: &Side<'_>) -> Admission
    requires { (side_of side.now).first + length (side_of side.now).bytes < 2 ^ 32 }
    ensures admission { result ≡ admission_of (side_of side.now) (range_of q.now name) }
    ensures fits { result ≡ admissions.Fits → IsInRange (side_of side.now) (range_of q.now name) }
{
    match name {
        GateName::FifoPut => range_admission(q.ecx, q.edx, side),
        GateName::FifoGet => range_admission(q.ecx, q.edx, side),
        GateName::Print => range_admission(q.ebx, q.ecx, side),
        _ => Admission::Fits,
    }
}

fn range_admission(place: u32, count: u32, side: &Side<'_>) -> Admission
    requires { (side_of side.now).first + length (side_of side.now).bytes < 2 ^ 32 }
    ensures admission { result ≡ admission_of (side_of side.now) (Some (record { place = place; count = count })) }
    ensures fits { result ≡ admissions.Fits → IsInRange (side_of side.now) (Some (record { place = place; count = count })) }
{
    if count > BYTES_LIMIT {
        return Admission::TooLong;
    }
    match first_outside_of(side, place, count) {
        Some(_) => Admission::Outside,
        None => Admission::Fits,
    }
}
