// The gates on threads.
ghost use Rattle.std.specs.Prelude.{◌≡◌, ℕ};
ghost use Rattle.flat_memory.specs.Side.{side_of};
ghost use Rattle.gate_table.specs.Gates.{gate_row, nanosleep, of_thread, pthread_wait};
ghost use Rattle.executive.specs.Agreement.{Agrees};
ghost use Rattle.executive.specs.Parts.{gate_parts, IsAnswered};
ghost use Rattle.module_gates.specs.declared.family.Family.TheVariants as families;
ghost use Rattle.module_gates.specs.Callers.{who, IsLiveCaller};
ghost use Rattle.module_gates.specs.Effects.{row_answers};
ghost use Rattle.module_gates.specs.Families.{family_of};

use crate::Caller;
use executive::Executive;
use flat_memory::Side;
use gate_table::{GateName, Request};
use rt_constants::{EINVAL, failed};

// Function 7, pthread_wait_np, of the calling thread.
fn wait_by(caller: Caller, all: &mut Executive) -> i32
    requires caller { IsLiveCaller caller all.old.threads }
    requires agrees { Agrees all.old }
    ensures answer { IsAnswered (λ p. of_thread (who caller) p (pthread_wait p)) result all.old all.new }
    ensures agrees { Agrees all.new }
    ensures guest { all.new.timeline.guest ≡ all.old.timeline.guest }
    ensures version { all.new.ready.version ≡ all.old.ready.version }
    ensures others { (all.new.fifos ≡ all.old.fifos) × (all.new.irqs ≡ all.old.irqs) }
{
    match caller {
        Caller::Thread(id) => thread_gates::wait(id, all),
        _ => failed(EINVAL),
    }
}

// Function 23, nanosleep, of the calling thread.
fn sleep_by(now: u32, caller: Caller, q: &Request, all: &mut Executive) -> i32
    requires caller { IsLiveCaller caller all.old.threads }
    requires agrees { Agrees all.old }
    ensures answer { IsAnswered (λ p. of_thread (who caller) p (nanosleep now q.now p)) result all.old all.new }
    ensures agrees { Agrees all.new }
    ensures guest { all.new.timeline.guest ≡ all.old.timeline.guest }
    ensures version { all.new.ready.version ≡ all.old.ready.version }
    ensures others { (all.new.fifos ≡ all.old.fifos) × (all.new.irqs ≡ all.old.irqs) }
{
    match caller {
        Caller::Thread(id) => thread_gates::sleep(now, id, *q, all),
        _ => failed(EINVAL),
    }
}

/// A gate on threads.
pub fn thread_row(
    now: u32,
    caller: Caller,
    name: GateName,
    q: &Request,
    all: &mut Executive,
    side: &mut Side<'_>,
) -> i32
    requires name { family_of name ≡ families.Threads }
    requires caller { IsLiveCaller caller all.old.threads }
    requires agrees { Agrees all.old }
    ensures answer { (latch : ℕ) → gate_row now (who caller) q.now (gate_parts latch (side_of side.old) all.old) name
        ≡ row_answers name q.now (side_of side.old) result (gate_parts latch (side_of side.new) all.new) }
    ensures agrees { Agrees all.new }
    ensures guest { all.new.timeline.guest ≡ all.old.timeline.guest }
    ensures version { all.new.ready.version ≡ all.old.ready.version }
    ensures others { (all.new.fifos ≡ all.old.fifos) × (all.new.irqs ≡ all.old.irqs) }
    ensures first { side.new.first ≡ side.old.first }
    ensures same_loan { side.new.bytes.ghost_name ≡ side.old.bytes.ghost_name }
{
    match name {
        GateName::PthreadCreate => thread_gates::create(now, *q, all, side),
        GateName::PthreadDelete => thread_gates::delete(q.ebx, all),
        GateName::PthreadSuspend => thread_gates::suspend(q.ebx, all),
        GateName::PthreadWakeup => thread_gates::wakeup(now, q.ebx, all),
        GateName::PthreadMakePeriodic => thread_gates::make_periodic(*q, all),
        GateName::PthreadWait => wait_by(caller, all),
        GateName::PthreadSetprio => thread_gates::set_priority(*q, all),
        GateName::PthreadGetprio => thread_gates::priority(q.ebx, all),
        _ => sleep_by(now, caller, q, all),
    }
}
