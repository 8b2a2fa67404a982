// What a script holds, and why one isn't taken.

use crate::event::Event;
use item_list::Items;

/// The events of a script.
#[derive(Drop)]
pub struct Script {
    /// Each event with its tick, from 1 on. Ticks never fall, and at most 16 events have one tick.
    pub events: Items<(u32, Event)>,
}

/// Why a script isn't taken.
#[derive(Clone, Copy, Debug, PartialEq, Eq)]
pub enum ScriptRefusal {
    /// The number of the first bad line, counted from 1.
    BadLine(u32),
    /// Memory was refused.
    NoMemory,
}
