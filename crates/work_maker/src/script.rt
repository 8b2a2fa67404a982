// The script.

ghost use Rattle.std.specs.Prelude.{◌≡◌, ◌≤◌, IfOk};
ghost use Rattle.work_maker.specs.Script.{event_count as count_of, events_from};

use crate::draws::Draws;
use device_script::Event;
use item_list::Items;
use std::alloc::{AllocError, Global};

/// How many ticks each event has to itself.
const SPACING: u32 = 1_000;
/// The most events of a script.
const MOST_EVENTS: u32 = 100_000;

/// How many events a run of so many ticks has.
pub fn event_count(ticks: u32) -> u32
    ensures count { result ≡ count_of ticks }
    ensures most { result ≤ 100000 }
{
    (ticks / SPACING).min(MOST_EVENTS)
}

/// The next events that are drawn.
pub fn draw_events(
    alloc: Global,
    draws: &mut Draws,
    count: u32,
) -> Result<Items<(u32, Event)>, AllocError>
    requires { count ≤ 100000 }
    ensures { IfOk result (λ events. events ≡ events_from count 1 draws.old.state) }
{
    let mut events = Items::empty(alloc);
    for index in 0..count {
        events.push(draws.event(index + 1))?;
    }
    Ok(events)
}
