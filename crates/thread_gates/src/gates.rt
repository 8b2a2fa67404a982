// The gates on threads, one function each.
ghost use Rattle.std.specs.Prelude.{◌≡◌, ◌-◌, ◌&&◌, ℕ, IsTrue, length, nat_le};
ghost use Rattle.memory_model.specs.Side.{inside};
ghost use Rattle.rt_threads.specs.Threads.{is_live, is_ready_in, NextFits, priority_of, thread_at};
ghost use Rattle.rt_constants.specs.declared.limits.TheConstants.{THREADS_LIMIT};
ghost use Rattle.flat_memory.specs.Side.{side_of};
ghost use Rattle.gate_table.specs.Gates.{answers, nanosleep, on_live, pthread_create, pthread_delete, pthread_make_periodic, pthread_setprio, pthread_suspend, pthread_wait, pthread_wakeup, succeeds};
ghost use Rattle.executive.specs.Agreement.{Agrees};
ghost use Rattle.executive.specs.Parts.{gate_parts, IsAnswered};

use crate::lists::{join, leave};
use crate::starting;
use executive::Executive;
use flat_memory::{Side, fits};
use gate_table::Request;
use rt_constants::limits::{HIGHEST_PRIORITY, THREADS_LIMIT};
use rt_constants::{EINVAL, failed};
use rt_threads::{State, Threads};

// How many bytes the word has that leads a thread to the stub.
const STUB_WORD: u32 = 4;

// Whether a stack below this address has room on the side for the word that leads to the stub.
fn has_stack(top: u32, side: &Side<'_>) -> bool
    ensures { result ≡ (nat_le 4 top && inside (side_of side.now) (top - 4) 4) }
{
    top >= STUB_WORD && fits(side.first(), side.bytes(), top - STUB_WORD, STUB_WORD)
}

/// Function 2, pthread_create: a thread begins at EBX, ready, with the priority ECX, its stack below EDX, and ESI in EAX. Its number;
/// -22 where the priority is above 255 or the word below EDX isn't on the side, else -11 where 64 threads are live.
pub fn create(now: u32, q: Request, all: &mut Executive, side: &mut Side<'_>) -> i32
    requires agrees { Agrees all.old }
    ensures answer { (latch : ℕ) → pthread_create now q (gate_parts latch (side_of side.old) all.old) ≡ answers result (gate_parts latch (side_of side.new) all.new) }
    ensures agrees { Agrees all.new }
    ensures guest { all.new.timeline.guest ≡ all.old.timeline.guest }
    ensures version { all.new.ready.version ≡ all.old.ready.version }
    ensures others { (all.new.fifos ≡ all.old.fifos) × (all.new.irqs ≡ all.old.irqs) }
    ensures first { side.new.first ≡ side.old.first }
    ensures same_loan { side.new.bytes.ghost_name ≡ side.old.bytes.ghost_name }
{
    if q.ecx > HIGHEST_PRIORITY || !has_stack(q.edx, side) {
        return failed(EINVAL);
    }
    let stack = q.edx - STUB_WORD;
    let result = all
        .threads
        .create(q.ecx, starting(q.ebx, q.esi, stack, true));
    if result >= 0 {
        let _ = side.store32(stack, side.first());
        join(result as u8, u64::from(now), all);
    }
    result
}

/// Function 3, pthread_delete_np: a thread is gone. 0; -22 where it isn't live.
pub fn delete(id: u32, all: &mut Executive) -> i32
    requires { Agrees all.old }
    ensures answer { IsAnswered (pthread_delete id) result all.old all.new }
    ensures agrees { Agrees all.new }
    ensures guest { all.new.timeline.guest ≡ all.old.timeline.guest }
    ensures version { all.new.ready.version ≡ all.old.ready.version }
    ensures others { (all.new.fifos ≡ all.old.fifos) × (all.new.irqs ≡ all.old.irqs) }
{
    let result = all.threads.delete(id);
    if result == 0 {
        leave(id as u8, all);
    }
    result
}

/// Function 4, pthread_suspend_np: a thread is suspended. 0; -22 where it isn't live.
pub fn suspend(id: u32, all: &mut Executive) -> i32
    requires { Agrees all.old }
    ensures answer { IsAnswered (pthread_suspend id) result all.old all.new }
    ensures agrees { Agrees all.new }
    ensures guest { all.new.timeline.guest ≡ all.old.timeline.guest }
    ensures version { all.new.ready.version ≡ all.old.ready.version }
    ensures others { (all.new.fifos ≡ all.old.fifos) × (all.new.irqs ≡ all.old.irqs) }
{
    let result = all.threads.suspend(id);
    if result == 0 {
        leave(id as u8, all);
    }
    result
}

// Whether a thread is ready.
fn is_ready(id: u32, threads: &Threads) -> bool
    requires { length threads.now ≡ THREADS_LIMIT }
    ensures { result ≡ is_ready_in (thread_at threads.now id) }
{
    id < THREADS_LIMIT && matches!(threads.state(id as u8), Some(State::Ready))
}

/// Function 5, pthread_wakeup_np: a suspended or waiting thread becomes ready, last, since tick `now`; a ready one stays as it is. 0; -22
/// where it isn't live.
pub fn wakeup(now: u32, id: u32, all: &mut Executive) -> i32
    requires { Agrees all.old }
    ensures answer { IsAnswered (pthread_wakeup now id) result all.old all.new }
    ensures agrees { Agrees all.new }
    ensures guest { all.new.timeline.guest ≡ all.old.timeline.guest }
    ensures version { all.new.ready.version ≡ all.old.ready.version }
    ensures others { (all.new.fifos ≡ all.old.fifos) × (all.new.irqs ≡ all.old.irqs) }
{
    if is_ready(id, &all.threads) {
        return 0;
    }
    let result = all.threads.wakeup(id);
    if result == 0 {
        join(id as u8, u64::from(now), all);
    }
    result
}

/// Function 6, pthread_make_periodic_np: thread EBX has the period EDX and its next due at tick ECX, until which it waits. 0; -22 where
/// it isn't live, the period isn't 1 to 1,000,000,000 ticks, or the due is above 2,000,000,000.
pub fn make_periodic(q: Request, all: &mut Executive) -> i32
    requires { Agrees all.old }
    ensures answer { IsAnswered (pthread_make_periodic q) result all.old all.new }
    ensures agrees { Agrees all.new }
    ensures guest { all.new.timeline.guest ≡ all.old.timeline.guest }
    ensures version { all.new.ready.version ≡ all.old.ready.version }
    ensures others { (all.new.fifos ≡ all.old.fifos) × (all.new.irqs ≡ all.old.irqs) }
{
    let result = all.threads.periodic(q.ebx, q.ecx, q.edx);
    if result == 0 {
        leave(q.ebx as u8, all);
    }
    result
}

/// Function 7, pthread_wait_np: the calling thread's next due grows by its period, and it waits until that. 0; -22 where it has no
/// period.
pub fn wait(id: u8, all: &mut Executive) -> i32
    requires agrees { Agrees all.old }
    requires next { NextFits (thread_at all.old.threads id) }
    ensures answer { IsAnswered (λ p. pthread_wait p id) result all.old all.new }
    ensures agrees { Agrees all.new }
    ensures guest { all.new.timeline.guest ≡ all.old.timeline.guest }
    ensures version { all.new.ready.version ≡ all.old.ready.version }
    ensures others { (all.new.fifos ≡ all.old.fifos) × (all.new.irqs ≡ all.old.irqs) }
{
    let result = all.threads.wait(u32::from(id));
    if result == 0 {
        leave(id, all);
    }
    result
}

/// Function 9, pthread_setschedprio: thread EBX has the priority ECX, and keeps its place in the ready list. 0; -22 where it isn't live
/// or the priority is above 255.
pub fn set_priority(q: Request, all: &mut Executive) -> i32
    requires { Agrees all.old }
    ensures answer { IsAnswered (pthread_setprio q) result all.old all.new }
    ensures agrees { Agrees all.new }
    ensures guest { all.new.timeline.guest ≡ all.old.timeline.guest }
    ensures version { all.new.ready.version ≡ all.old.ready.version }
    ensures others { (all.new.fifos ≡ all.old.fifos) × (all.new.irqs ≡ all.old.irqs) }
{
    let result = all.threads.set_priority(q.ebx, q.ecx);
    if result == 0 {
        all.ready.set_priority(q.ebx as u8, q.ecx as u8);
    }
    result
}

/// Function 10, pthread_getschedparam: a thread's priority; -22 where it isn't live.
pub fn priority(id: u32, all: &Executive) -> i32
    ensures { IsAnswered (λ p. on_live id p (succeeds (priority_of p.threads id) p)) result all.now all.now }
{
    all.threads.priority(id)
}

/// Function 23, nanosleep: the calling thread waits EBX ticks from `now` on; its period and its next due stay. 0; -22 where that isn't 1
/// to 1,000,000,000 ticks.
pub fn sleep(now: u32, id: u8, q: Request, all: &mut Executive) -> i32
    requires agrees { Agrees all.old }
    requires live { IsTrue (is_live all.old.threads id) }
    ensures answer { IsAnswered (λ p. nanosleep now q p id) result all.old all.new }
    ensures agrees { Agrees all.new }
    ensures guest { all.new.timeline.guest ≡ all.old.timeline.guest }
    ensures version { all.new.ready.version ≡ all.old.ready.version }
    ensures others { (all.new.fifos ≡ all.old.fifos) × (all.new.irqs ≡ all.old.irqs) }
{
    let result = all.threads.sleep(u32::from(id), now, q.ebx);
    if result == 0 {
        leave(id, all);
    }
    result
}
