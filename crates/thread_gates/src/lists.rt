// A thread's place in the ready list and on the timeline, where the thread itself was changed.
ghost use Rattle.std.specs.Prelude.{◌≡◌, ◌<◌, ℕ, IsTrue, false};
ghost use Rattle.memory_model.specs.Side.{Side};
ghost use Rattle.rt_constants.specs.declared.limits.TheConstants.{THREADS_LIMIT};
ghost use Rattle.rt_threads.specs.declared.threads.State.TheVariants as states;
ghost use Rattle.rt_threads.specs.Threads.{is_live, is_ready_in, thread_at, with_state, with_thread};
ghost use Rattle.rt_ready.specs.Order.{is_in};
ghost use Rattle.executive.specs.Agreement.{Agrees};
ghost use Rattle.executive.specs.Parts.{gate_parts};
ghost use Rattle.thread_gates.specs.Changes.{AgreesButDue, released, with_listed, without_listed};

use executive::Executive;
use rt_threads::State;
use rt_timeline::Due;

/// A thread that isn't ready any more leaves the ready list, and has the due until which it waits, if it does.
pub fn leave(id: u8, all: &mut Executive)
    requires { id < THREADS_LIMIT }
    ensures { all.new ≡ without_listed id all.old }
{
    all.ready.take(id);
    match all.threads.state(id) {
        Some(State::Waiting(due)) => all.timeline.set(Due::Thread(id), due),
        _ => all.timeline.clear(Due::Thread(id)),
    }
}

/// A thread that is ready now comes last in the ready list, ready since `since`, a tick, and has no due any more.
pub fn join(id: u8, since: u64, all: &mut Executive)
    requires number { id < THREADS_LIMIT }
    requires live { IsTrue (is_live all.old.threads id) }
    requires absent { is_in id all.old.ready.places ≡ false }
    ensures { all.new ≡ with_listed id since all.old }
{
    let priority = all.threads.priority(u32::from(id)) as u8;
    all.timeline.clear(Due::Thread(id));
    all.ready.add(id, priority, since);
}

/// A live thread that isn't ready becomes ready, last, since `since`, a tick, and has no due any more. Its due may have been taken out
/// of the timeline before.
pub fn release(id: u8, since: u64, all: &mut Executive)
    requires live { IsTrue (is_live all.old.threads id) }
    requires idle { is_ready_in (thread_at all.old.threads id) ≡ false }
    requires agrees { AgreesButDue id all.old }
    ensures after { all.new ≡ with_listed id since (record all.old { threads = with_thread id (with_state states.Ready) all.old.threads }) }
    ensures parts { (latch : ℕ) (side : Side) → released id since (gate_parts latch side all.old) ≡ gate_parts latch side all.new }
    ensures agrees { Agrees all.new }
{
    all.threads.release(id);
    join(id, since, all);
}
