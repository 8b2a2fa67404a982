// The ready list.
ghost use Rattle.std.specs.Prelude.{◌≡◌, length, ◌<◌, [], false, map, IfOk, IfSome, option_map};
ghost use Rattle.rt_constants.specs.declared.limits.TheConstants.{THREADS_LIMIT};
ghost use Rattle.rt_ready.specs.Order.{first_place, id_of, is_in, placed, rated, without_place};

use crate::renumber::next_number;
use outside_io::NoMemory;
use ready_queues::{Member, Queues};
use std::alloc::Global;
use std::marker::Model;

#[cfg(test)]
mod tests;

/// A ready thread's number, its priority, and since when it is ready: its due, where that released it, or else the tick of the gate
/// that made it so.
#[derive(Clone, Copy, Debug, PartialEq, Eq)]
pub struct Place {
    pub id: u8,
    pub priority: u8,
    pub since: u64,
}

/// The ready threads, seen as their list in order of arrival, with the version of the rule that picks. They stand in queues, one a
/// priority, each with its number of arrival, so that no call but a numbering anew goes through all of them. There is room for all
/// threads from the start, so that no call but `new` takes memory.
#[derive(Drop)]
pub struct Ready {
    queues: Queues,
    next: u64,
    count: u32,
}

impl Model for Ready {
    ghost use Rattle.rt_ready.specs.Order.{ReadyList};
    ghost use Rattle.rt_ready.specs.Numbered.{ready_list, IsReady};

    ghost Value = { ReadyList };

    ghost view = { ready_list };

    ghost invariant = { IsReady };
}

impl Ready {
    /// No thread, with room for 64. In version 2 of the rule the thread that has been ready longest goes first among those of equal
    /// priority, in every other one that which came first.
    pub fn new(alloc: Global, version: u8) -> Result<Ready, NoMemory>
        ensures { IfOk result (λ r. r ≡ record { version = version; places = [] }) }
    {
        Ready::counting_from(alloc, version, 0)
    }

    // No thread, where the next to come has the number `next`.
    fn counting_from(alloc: Global, version: u8, next: u64) -> Result<Ready, NoMemory>
        ensures { IfOk result (λ r. r ≡ record { version = version; places = [] }) }
    {
        match Queues::new(alloc, version) {
            Ok(queues) => Ok(Ready {
                queues,
                next,
                count: 0,
            }),
            Err(_) => Err(NoMemory),
        }
    }

    /// How many threads are ready.
    pub fn count(&self) -> u32
        ensures { result ≡ length self.now.places }
    {
        self.count
    }

    /// A thread comes last, ready since `since`, a tick.
    pub fn add(&mut self, id: u8, priority: u8, since: u64)
        requires number { id < THREADS_LIMIT }
        requires absent { is_in id self.old.places ≡ false }
        ensures { self.new ≡ placed id priority since self.old }
    {
        let number = next_number(&mut self.queues, self.next);
        self.queues.insert(
            id,
            Member {
                priority,
                since,
                number,
            },
        );
        self.next = number + 1;
        self.count += 1;
    }

    /// Takes a thread out; false exactly where it isn't in it.
    pub fn take(&mut self, id: u8) -> bool
        ensures found { result ≡ is_in id self.old.places }
        ensures rest { self.new ≡ record self.old { places = without_place id self.old.places } }
    {
        match self.queues.member(id) {
            Some(member) => {
                self.queues.remove(id, member);
                self.count -= 1;
                true
            }
            None => false,
        }
    }

    /// A thread has another priority, and keeps its place; nothing changes where it isn't in the list.
    pub fn set_priority(&mut self, id: u8, priority: u8)
        ensures { self.new ≡ record self.old { places = map (rated id priority) self.old.places } }
    {
        if let Some(member) = self.queues.member(id) {
            self.queues.remove(id, member);
            self.queues.insert(id, Member { priority, ..member });
        }
    }

    /// The thread that goes first; `None` exactly where there is none.
    pub fn first(&self) -> Option<u8>
        ensures first { result ≡ option_map id_of (first_place self.now.version self.now.places) }
        ensures below { IfSome result (λ id. id < THREADS_LIMIT) }
    {
        self.queues.first()
    }
}
