// The inits of modules that are still to start.
ghost use Rattle.std.specs.Prelude.{◌≡◌, ◌<◌, ◌≤◌, ◌≢◌, length, slice_index_or, [], zero};
ghost use Rattle.priority_schedule.specs.State.{numbered};
ghost use Rattle.priority_schedule.specs.Tick.{first_entry, without_first};
ghost use Rattle.machine_state.specs.Inits.{next_number as number_of};

use std::marker::Model;

/// How many modules a system has at most.
pub const MODULES_LIMIT: usize = 16;

/// The inits of modules that are still to start, in the order of their modules. Contracts see the list of these, each with its module's
/// number, from 0 on, and its entry, an address.
#[derive(Drop)]
pub struct Inits {
    entries: Vec<u32>,
    // the number of the module that is next
    next: usize,
}

impl Model for Inits {
    ghost use Rattle.std.specs.Prelude.{◌≤◌, List, length, drop};
    ghost use Rattle.priority_schedule.specs.State.{Module, numbered};

    ghost Value = { List Module };

    ghost view = { λ i. numbered i.next (drop i.next i.entries.items) };

    ghost invariant = { λ i. (length i.entries.items ≤ 16) × (i.next ≤ length i.entries.items) };
}

fn entry_at(entries: &[u32], place: usize) -> u32
    requires { place < length entries.now }
    ensures { result ≡ slice_index_or entries.now place 0 }
{
    entries[place]
}

impl Inits {
    /// The inits of modules with these entries, at most 16.
    pub fn new(entries: Vec<u32>) -> Inits
        requires { length entries.items ≤ 16 }
        ensures { result ≡ numbered zero entries.items }
    {
        Inits { entries, next: 0 }
    }

    /// The number of the module whose init is next; `None` where all have started.
    pub fn next_number(&self) -> Option<u8>
        ensures { result ≡ number_of self.now }
    {
        if self.next < self.entries.len() {
            Some(self.next as u8)
        } else {
            None
        }
    }

    /// Takes the next one, and gives its entry.
    pub fn take(&mut self) -> u32
        requires { self.old ≢ [] }
        ensures entry { result ≡ first_entry self.old }
        ensures rest { self.new ≡ without_first self.old }
    {
        let entry = entry_at(self.entries.as_slice(), self.next);
        self.next += 1;
        entry
    }
}
