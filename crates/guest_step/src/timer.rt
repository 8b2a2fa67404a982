// The guest's timer.
ghost use Rattle.std.specs.Prelude.{◌≡◌, ◌≤◌};
ghost use Rattle.rt_timeline.specs.Dues.{nearest_due};
ghost use Rattle.guest_step.specs.Leaves.{due_from};

use machine_state::Guest;
use rt_timeline::{Due, Timeline};

// The guest's due: a period after tick `now`, or none where the timer is set off.
fn set_due(now: u32, period: u32, timeline: &mut Timeline)
    ensures { timeline.new ≡ record timeline.old { guest = due_from now period } }
{
    if period == 0 {
        timeline.clear(Due::Guest);
    } else {
        timeline.set(Due::Guest, u64::from(now) + u64::from(period));
    }
}

/// The guest's timer gets a period of so many ticks, which begins in tick `now`; 0 sets it off. Answers the nearest due before.
pub fn set_timer(now: u32, period: u32, guest: &mut Guest, timeline: &mut Timeline) -> Option<u64>
    ensures before { result ≡ nearest_due timeline.old }
    ensures guest { guest.new ≡ record guest.old { timer_start = now; timer_period = period } }
    ensures due { timeline.new ≡ record timeline.old { guest = due_from now period } }
{
    let before = timeline.nearest();
    guest.timer_start = now;
    guest.timer_period = period;
    set_due(now, period, timeline);
    before
}
