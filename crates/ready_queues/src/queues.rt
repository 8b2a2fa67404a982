// The queues.
ghost use Rattle.std.specs.Prelude.{◌≡◌, ◌<◌, IfOk, IfSome, replicate, slice_set, get_or, Some, None};
ghost use Rattle.ready_queues.specs.Members.{IsFresh, IsFirst, key};

use crate::priority_set::PrioritySet;
use crate::walk::last_before;
use std::alloc::{AllocError, Global};
use std::marker::Model;

/// A ready thread's priority, the tick since which it is ready, and its number in the order of arrival.
#[derive(Clone, Copy, Debug, PartialEq, Eq)]
pub struct Member {
    pub priority: u8,
    pub since: u64,
    pub number: u64,
}

/// No thread, where a head or a link leads to none.
pub const NONE: u8 = 64;

/// The ready threads in queues, one a priority, in each by its version's order: by arrival, and in version 2 by since when they are
/// ready before that. Contracts see the threads by number. Every call but `new` takes no memory.
#[derive(Drop)]
pub struct Queues {
    version: u8,
    members: Vec<Option<Member>>,
    heads: Vec<u8>,
    links: Vec<u8>,
    filled: PrioritySet,
}

impl Model for Queues {
    ghost use Rattle.ready_queues.specs.Members.{Members};
    ghost use Rattle.ready_queues.specs.Linked.{IsQueues};

    ghost Value = { Members };

    ghost view = { λ s. record { version = s.version; members = s.members.items } };

    ghost invariant = { IsQueues };
}

impl Queues {
    /// No thread, with the memory of 64.
    pub fn new(alloc: Global, version: u8) -> Result<Queues, AllocError>
        ensures { IfOk result (λ s. s ≡ record { version = version; members = replicate 64 None }) }
    {
        Ok(Queues {
            version,
            members: Vec::from_slice(alloc, &[None; 64])?,
            heads: Vec::from_slice(alloc, &[NONE; 256])?,
            links: Vec::from_slice(alloc, &[NONE; 64])?,
            filled: PrioritySet::new(),
        })
    }

    /// The thread of highest priority that goes first; `None` exactly where there is none.
    pub fn first(&self) -> Option<u8>
        ensures { IsFirst self.now result }
    {
        match self.filled.highest() {
            Some(priority) => Some(self.heads[priority as usize]),
            None => None,
        }
    }

    /// What is known of a thread; `None` exactly where it stands in no queue.
    pub fn member(&self, id: u8) -> Option<Member>
        ensures member { result ≡ get_or self.now.members id None }
        ensures within { IfSome result (λ _. id < 64) }
    {
        if id < NONE {
            self.members[id as usize]
        } else {
            None
        }
    }

    /// Puts a thread into its queue, where its version's order has it.
    pub fn insert(&mut self, id: u8, member: Member)
        requires within { id < 64 }
        requires absent { get_or self.old.members id None ≡ None }
        requires fresh { IsFresh self.old (key self.old.version member) }
        ensures { self.new ≡ record self.old { members = slice_set self.old.members id (Some member) } }
    {
        let queue = member.priority as usize;
        let last = last_before(
            self.version,
            &self.members,
            &self.links,
            self.heads[queue],
            member,
        );
        self.members[id as usize] = Some(member);
        if last < NONE {
            self.links[id as usize] = self.links[last as usize];
            self.links[last as usize] = id;
            return;
        }
        self.links[id as usize] = self.heads[queue];
        self.heads[queue] = id;
        self.filled.put(member.priority);
    }

    /// Takes a thread out of its queue.
    pub fn remove(&mut self, id: u8, member: Member)
        requires within { id < 64 }
        requires present { get_or self.old.members id None ≡ Some member }
        ensures { self.new ≡ record self.old { members = slice_set self.old.members id None } }
    {
        let queue = member.priority as usize;
        let last = last_before(
            self.version,
            &self.members,
            &self.links,
            self.heads[queue],
            member,
        );
        let next = self.links[id as usize];
        self.members[id as usize] = None;
        if last < NONE {
            self.links[last as usize] = next;
            return;
        }
        self.heads[queue] = next;
        let is_empty = next >= NONE;
        if is_empty {
            self.filled.remove(member.priority);
        }
    }
}
