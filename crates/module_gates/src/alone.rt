// The gates that change nothing.
ghost use Rattle.std.specs.Prelude.{◌≡◌, ◌<◌, ◌^◌};
ghost use Rattle.gate_table.specs.declared.request.Request.{Request as Asked};
ghost use Rattle.gate_table.specs.Gates.{GateParts, answers, gate_row, of_thread, succeeds};
ghost use Rattle.module_gates.specs.declared.family.Family.TheVariants as families;
ghost use Rattle.module_gates.specs.Callers.{who};
ghost use Rattle.module_gates.specs.Effects.{row_answers};
ghost use Rattle.module_gates.specs.Families.{family_of};

use crate::Caller;
use gate_table::GateName;
use rt_constants::{EINVAL, failed};

// Function 8, pthread_self.
fn self_number(caller: Caller) -> i32
    ensures { (p : GateParts) → of_thread (who caller) p (λ i. succeeds i p) ≡ answers result p }
{
    match caller {
        Caller::Thread(id) => i32::from(id),
        _ => failed(EINVAL),
    }
}

/// The result of a gate that changes nothing: the tick, the caller's number, 0 of a print, or -22.
pub fn alone_row(now: u32, caller: Caller, name: GateName) -> i32
    requires name { family_of name ≡ families.Alone }
    requires tick { now < 2 ^ 31 }
    ensures answer { (q : Asked) (p : GateParts) → gate_row now (who caller) q p name ≡ row_answers name q p.side result p }
{
    match name {
        GateName::Gethrtime => now as i32,
        GateName::PthreadSelf => self_number(caller),
        GateName::Print => 0,
        _ => failed(EINVAL),
    }
}
