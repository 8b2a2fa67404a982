// The third step of a tick: what is on the processor.
ghost use Rattle.std.specs.Prelude.{◌≡◌, ℕ, IfSome, None};
ghost use Rattle.executive.specs.Agreement.{Agrees};
ghost use Rattle.priority_schedule.specs.State.{RealTime};
ghost use Rattle.priority_schedule.specs.Pick.{pick as pick_of};
ghost use Rattle.schedule_steps.specs.Choice.{CanRun, handler_next, running_in, thread_next};
ghost use Rattle.schedule_steps.specs.States.{IsBeforePick, real_with};

use executive::Executive;
use line_kinds::Who;

// An init or handler that runs.
fn running(on: Option<Who>) -> Option<Who>
    ensures { result ≡ running_in on }
{
    match on {
        Some(Who::Init(number)) => Some(Who::Init(number)),
        Some(Who::Irq(line)) => Some(Who::Irq(line)),
        Some(Who::Fifo(fifo)) => Some(Who::Fifo(fifo)),
        _ => None,
    }
}

// In a tick that drains, the handler of the marked line that is next, or else that of the marked FIFO of lowest number.
fn next_handler(draining: bool, all: &Executive) -> Option<Who>
    ensures handler { result ≡ handler_next draining all.now }
    ensures runs { IfSome result (λ who. CanRun None all.now who) }
{
    if !draining {
        return None;
    }
    if let Some(line) = all.irqs.next() {
        return Some(Who::Irq(line));
    }
    match all.fifos.next_marked() {
        Some(fifo) => Some(Who::Fifo(fifo)),
        None => None,
    }
}

// The thread that goes first.
fn next_thread(all: &Executive) -> Option<Who>
    requires { Agrees all.now }
    ensures thread { result ≡ thread_next all.now }
    ensures runs { IfSome result (λ who. CanRun None all.now who) }
{
    match all.ready.first() {
        Some(id) => Some(Who::Thread(id)),
        None => None,
    }
}

/// What is on the processor in this tick: an init or handler that runs; else the init of the module that is next, of which this is the
/// number; in a tick that drains the handler of a line, then of a FIFO; the first of the ready threads; and else the guest.
pub fn pick(draining: bool, on: Option<Who>, module_next: Option<u8>, all: &Executive) -> Who
    requires { Agrees all.now }
    ensures picked { (latch : ℕ) (m : RealTime) → IsBeforePick draining on module_next latch all.now m → pick_of draining (real_with latch all.now m) ≡ result }
    ensures runs { CanRun on all.now result }
{
    if let Some(who) = running(on) {
        return who;
    }
    if let Some(number) = module_next {
        return Who::Init(number);
    }
    if let Some(handler) = next_handler(draining, all) {
        return handler;
    }
    match next_thread(all) {
        Some(thread) => thread,
        None => Who::Guest,
    }
}
