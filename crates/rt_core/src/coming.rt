// The script's events, tick by tick.
ghost use Rattle.std.specs.Prelude.{◌≡◌, ◌≤◌, ◌+◌, drop, take, length};
ghost use Rattle.run_lines.specs.Ticks.{at_tick};
ghost use Rattle.port_board.specs.Board.{AreEvents};
ghost use Rattle.rt_core.specs.Coming.{above, comes, AreComing};

use device_script::Event;

/// How many events one tick has at most.
pub const MOST_EVENTS: usize = 16;

// Is the event at a place there, and of this tick?
fn comes(events: &[(u32, Event)], next: usize, now: u32) -> bool
    requires { next ≤ length events.now }
    ensures { result ≡ comes now (drop next events.now) }
{
    next < events.len() && events[next].0 == now
}

/// Copies the events of tick `now` from a script's events from the place `next` on, none of which is of an earlier tick, and gives
/// how many they are. The place moves behind them.
pub fn take_events(
    events: &[(u32, Event)],
    next: &mut usize,
    now: u32,
    into: &mut [Event; 16],
) -> usize
    requires place { next.old ≤ length events.now }
    requires coming { AreComing now (drop next.old events.now) }
    ensures events { take result into.new ≡ at_tick now (drop next.old events.now) }
    ensures few { result ≤ 16 }
    ensures are { AreEvents (take result into.new) }
    ensures place { next.new ≤ length events.now }
    ensures later { drop next.new events.now ≡ above now (drop next.old events.now) }
    ensures coming { AreComing (now + 1) (drop next.new events.now) }
{
    let mut count = 0;
    while comes(events, *next, now) {
        into[count] = events[*next].1;
        count += 1;
        *next += 1;
    }
    count
}
