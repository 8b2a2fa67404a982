// The timeline.
ghost use Rattle.std.specs.Prelude.{◌≡◌, ◌<◌, IfOk, IfSome, None, Some, replicate, option_map};
ghost use Rattle.rt_constants.specs.declared.limits.TheConstants.{THREADS_LIMIT};
ghost use Rattle.rt_timeline.specs.Dues.{nearest_from, nearest_due, first_due, come_by, with_due, taken_from, IsOwner, count_until};
ghost use Rattle.rt_timeline.specs.Index.{due_at, owner_at, place_named, place_of, second, with_place};

use crate::order::{place_in, position_of};
use arrayvec::ArrayVec;
use outside_io::NoMemory;
use rt_constants::limits::{SHOT_LIMIT, THREADS_LIMIT};
use std::alloc::Global;
use std::marker::Model;

/// Who has a due.
#[derive(Clone, Copy, Debug, PartialEq, Eq)]
pub enum Due {
    Thread(u8),
    Guest,
}

/// A thread's due.
#[derive(Clone, Copy, Debug)]
pub struct ThreadDue {
    pub id: u8,
    pub due: u64,
}

/// The dues. Contracts see the 64 places of the threads and the guest's.
#[derive(Drop)]
pub struct Timeline {
    // the threads' by their numbers, and the guest's behind them
    dues: Vec<Option<u64>>,
    // the places that have a due, by due and then by place: the nearest due is that of the first entry, and what has come is a prefix
    order: ArrayVec<u8, 65>,
}

impl Model for Timeline {
    ghost use Rattle.rt_timeline.specs.Dues.{Dues};
    ghost use Rattle.rt_timeline.specs.Index.{dues_of, IsTimeline};

    ghost Value = { Dues };

    ghost view = { λ t. dues_of t.dues.items };

    ghost invariant = { IsTimeline };
}

// The place behind those of the threads.
const GUEST: u8 = THREADS_LIMIT as u8;

fn place_of(owner: Due) -> u8
    requires { IsOwner owner }
    ensures place { result ≡ place_of owner }
    ensures within { result < 65 }
{
    match owner {
        Due::Thread(id) => id,
        Due::Guest => GUEST,
    }
}

fn owner_at(place: u8) -> Due
    requires { place < 65 }
    ensures { result ≡ owner_at place }
{
    if place < GUEST {
        Due::Thread(place)
    } else {
        Due::Guest
    }
}

// The count of the one-shot timer, set in tick `now` for a due: it rises with the pulse behind its count, and a tick has two.
fn count_until(now: u64, due: u64) -> u16
    ensures { result ≡ count_until now due }
{
    let ticks = due.saturating_sub(now).min(u64::from(SHOT_LIMIT)).max(1);
    (2 * ticks - 1) as u16
}

impl Timeline {
    // The first entry, with its due.
    fn first(&self) -> Option<(u8, u64)>
        ensures first { option_map place_named result ≡ first_due (nearest_from 0 self.now.threads) self.now.guest }
        ensures nearest { option_map second result ≡ nearest_due self.now }
        ensures within { IfSome result (λ x. x.0 < 65) }
    {
        if self.order.is_empty() {
            return None;
        }
        let place = self.order[0];
        match self.dues[place as usize] {
            Some(due) => Some((place, due)),
            None => None,
        }
    }

    // A place has no due any more.
    fn clear_place(&mut self, place: u8)
        requires { place < 65 }
        ensures { self.new ≡ with_place place None self.old }
    {
        match position_of(&self.dues, &self.order, place) {
            Some(at) => {
                self.order.remove(at);
                self.dues[place as usize] = None;
            }
            None => {}
        }
    }

    // Sets the due of a place that has none.
    fn set_place(&mut self, place: u8, at: u64)
        requires within { place < 65 }
        requires absent { due_at self.old place ≡ None }
        ensures { self.new ≡ with_place place (Some at) self.old }
    {
        let i = place_in(&self.dues, &self.order, at, place);
        self.order.insert(i, place);
        self.dues[place as usize] = Some(at);
    }

    /// The nearest due; `None` exactly where there is none.
    pub fn nearest(&self) -> Option<u64>
        ensures { result ≡ nearest_due self.now }
    {
        match self.first() {
            Some((_, due)) => Some(due),
            None => None,
        }
    }

    /// The count of the one-shot timer for the nearest due, set in tick `now`; `None` exactly where there is no due (8254 data sheet,
    /// mode 0: the output rises with the pulse behind the count; two pulses a tick).
    pub fn count(&self, now: u64) -> Option<u16>
        ensures { result ≡ option_map (count_until now) (nearest_due self.now) }
    {
        match self.nearest() {
            Some(due) => Some(count_until(now, due)),
            None => None,
        }
    }

    /// Takes the first due that is at most `now`, by due, threads by number before the guest.
    pub fn take_due(&mut self, now: u64) -> Option<(Due, u64)>
        ensures first { result ≡ come_by now (first_due (nearest_from 0 self.old.threads) self.old.guest) }
        ensures rest { self.new ≡ taken_from result self.old }
    {
        match self.first() {
            Some((first, due)) => {
                if due > now {
                    return None;
                }
                self.clear_place(first);
                Some((owner_at(first), due))
            }
            None => None,
        }
    }

    /// No due.
    pub fn new(alloc: Global) -> Result<Timeline, NoMemory>
        ensures { IfOk result (λ t. t ≡ record { threads = replicate THREADS_LIMIT None; guest = None }) }
    {
        match Vec::from_slice(alloc, &[None; 65]) {
            Ok(dues) => Ok(Timeline {
                dues,
                order: ArrayVec::new(),
            }),
            Err(_) => Err(NoMemory),
        }
    }

    /// Sets an owner's due.
    pub fn set(&mut self, owner: Due, at: u64)
        requires { IsOwner owner }
        ensures { self.new ≡ with_due owner (Some at) self.old }
    {
        let place = place_of(owner);
        self.clear_place(place);
        self.set_place(place, at);
    }

    /// An owner has no due any more. A number from 64 on has none.
    pub fn clear(&mut self, owner: Due)
        ensures { self.new ≡ with_due owner None self.old }
    {
        match owner {
            Due::Thread(id) => {
                // Looked at so that the proof knows how many places there are.
                let _dues = &self.dues;
                if id < GUEST {
                    self.clear_place(id);
                }
            }
            Due::Guest => self.clear_place(GUEST),
        }
    }
}
