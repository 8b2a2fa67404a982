// The part of a script that has been read.

ghost use Rattle.std.specs.Prelude.{◌≡◌, ◌++◌, ◌∷◌, [], OnOk, true};
ghost use Rattle.device_script.specs.Event.{follows};
ghost use Rattle.device_script.specs.Draft.{counted_follows, kept_of};

use crate::event::Event;
use crate::script::Script;
use item_list::Items;
use std::alloc::{AllocError, Global};
use std::marker::Model;

/// How many events may have one tick.
const MOST_AT_ONCE: u32 = 16;

/// The events so far, with the last tick and how many have it, so that the rules of a script are tested at once for the next one.
/// Contracts see the list.
#[derive(Drop)]
pub struct Draft {
    events: Items<(u32, Event)>,
    // the tick of the last event, and how many events have it
    last: u32,
    same: u32,
}

impl Model for Draft {
    ghost use Rattle.std.specs.Prelude.{List, ℕ};
    ghost use Rattle.device_script.specs.declared.event.Event.{Event};
    ghost use Rattle.device_script.specs.Draft.{IsCounted};

    ghost Value = { List (ℕ × Event) };

    ghost view = { λ s. s.events };

    ghost invariant = { λ s. IsCounted s.events s.last s.same };
}

impl Draft {
    /// No events.
    pub fn new(alloc: Global) -> Draft
        ensures { result ≡ [] }
    {
        Draft {
            events: Items::empty(alloc),
            last: 0,
            same: 0,
        }
    }

    /// Whether an event of this tick may come next.
    pub fn may_take(&self, tick: u32) -> bool
        ensures { result ≡ follows self.now tick }
    {
        may_follow(self.last, self.same, tick)
    }

    /// Adds an event behind the others, at a tick counted from 1. It fails only where memory is refused for the longer list; what
    /// the draft then holds isn't said, and a reader gives up.
    pub fn push(&mut self, tick: u32, event: Event) -> Result<(), AllocError>
        requires { follows self.old tick ≡ true }
        ensures { OnOk result (self.new ≡ self.old ++ (tick, event) ∷ []) }
    {
        self.events.push((tick, event))?;
        self.same = kept(self.last, self.same, tick) + 1;
        self.last = tick;
        Ok(())
    }

    /// The script of these events.
    pub fn finish(self) -> Script
        ensures { result.events ≡ self }
    {
        Script {
            events: self.events,
        }
    }
}

// How many of the events have the tick of the next one.
fn kept(last: u32, same: u32, tick: u32) -> u32
    ensures { result ≡ kept_of last same tick }
{
    if tick == last { same } else { 0 }
}

fn may_follow(last: u32, same: u32, tick: u32) -> bool
    ensures { result ≡ counted_follows last same tick }
{
    last < tick || (last == tick && same < MOST_AT_ONCE)
}
