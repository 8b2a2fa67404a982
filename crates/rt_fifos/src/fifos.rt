// The FIFOs.
ghost use Rattle.std.specs.Prelude.{◌≡◌, ◌<◌, ◌≤◌, length, true, IfOk, IfSome, None, replicate};
ghost use Rattle.rt_constants.specs.declared.limits.TheConstants.{BYTES_LIMIT, FIFOS_LIMIT};
ghost use Rattle.rt_fifos.specs.Fifos.{count_reply, create_reply, destroy_reply, fifo_at, flush_reply, get_reply, handler_in, is_creatable, is_marked, next_marked, put_reply, set_handler_reply, with_mark, without_mark};
ghost use Rattle.rt_fifos.specs.Room.{in_front, HasHandler, IsAtMost};

use crate::room::Room;
use outside_io::NoMemory;
use rt_constants::limits::{FIFO_LIMIT, FIFOS_LIMIT};
use rt_constants::{EINVAL, ENODEV, failed};
use std::alloc::{AllocError, Global};
use std::marker::Model;

/// The FIFOs. Contracts see the list of 64 places, FIFO n at place n, and bytes from the front to the back. A FIFO that is marked to
/// start its handler has one.
#[derive(Drop)]
pub struct Fifos {
    rooms: Vec<Room>,
    // the marked FIFO of lowest number: looked up in each tick, and found anew only by the calls that may change a mark
    next: Option<u8>,
}

impl Model for Fifos {
    ghost use Rattle.std.specs.Prelude.{◌≡◌, List, Option, length};
    ghost use Rattle.rt_constants.specs.declared.limits.TheConstants.{FIFOS_LIMIT};
    ghost use Rattle.rt_fifos.specs.Fifos.{Fifo, next_marked};

    ghost Value = { List (Option Fifo) };

    ghost view = { λ f. f.rooms.items };

    ghost invariant = { λ f. (length f.rooms.items ≡ FIFOS_LIMIT) × (f.next ≡ next_marked f.rooms.items) };
}

fn is_creatable(fifo: u32, size: u32) -> bool
    ensures { result ≡ is_creatable fifo size }
{
    fifo < FIFOS_LIMIT && 1 <= size && size <= FIFO_LIMIT
}

// Empty places, with all the memory that they ever want.
fn empty_rooms(alloc: Global) -> Result<Vec<Room>, AllocError>
    ensures { IfOk result (λ r. r.items ≡ replicate FIFOS_LIMIT None) }
{
    let mut rooms = Vec::with_capacity(alloc, FIFOS_LIMIT as usize)?;
    for _n in 0..FIFOS_LIMIT {
        rooms.push(Room::new(alloc)?)?;
    }
    Ok(rooms)
}

// The place of the first marked FIFO.
fn marked_place(rooms: &[Room]) -> Option<usize>
    ensures place { result ≡ next_marked rooms.now }
    ensures below { IfSome result (λ f. f < length rooms.now) }
{
    rooms.iter().position(|room| room.is_marked())
}

// Its number.
fn first_marked(rooms: &[Room]) -> Option<u8>
    requires { length rooms.now ≡ FIFOS_LIMIT }
    ensures { result ≡ next_marked rooms.now }
{
    match marked_place(rooms) {
        Some(fifo) => Some(fifo as u8),
        None => None,
    }
}

impl Fifos {
    /// No FIFO. All memory is taken here, for 64 FIFOs of up to 16,384 bytes.
    pub fn new(alloc: Global) -> Result<Fifos, NoMemory>
        ensures { IfOk result (λ f. f ≡ replicate FIFOS_LIMIT None) }
    {
        match empty_rooms(alloc) {
            Ok(rooms) => Ok(Fifos { rooms, next: None }),
            Err(_) => Err(NoMemory),
        }
    }

    /// Makes a FIFO of a size in bytes, without handler: -22 exactly where the number is above 63 or the size isn't 1 to 16,384, else
    /// -16 exactly where there is one, and then nothing changes (RTLinux 3, rtf_create; the limits are this project's own).
    pub fn create(&mut self, fifo: u32, size: u32) -> i32
        ensures result { result ≡ (create_reply fifo size self.old).result }
        ensures fifos { self.new ≡ (create_reply fifo size self.old).fifos }
    {
        if !is_creatable(fifo, size) {
            return failed(EINVAL);
        }
        self.rooms[fifo as usize].create(size)
    }

    /// The FIFO is gone, with its bytes, its handler and its mark; -19 exactly where there is none (RTLinux 3, rtf_destroy).
    pub fn destroy(&mut self, fifo: u32) -> i32
        ensures result { result ≡ (destroy_reply fifo self.old).result }
        ensures fifos { self.new ≡ (destroy_reply fifo self.old).fifos }
    {
        if fifo as usize >= self.rooms.len() {
            return failed(ENODEV);
        }
        let result = self.rooms[fifo as usize].destroy();
        self.next = first_marked(self.rooms.as_slice());
        result
    }

    /// Appends the bytes, and says how many: -19 exactly where there is no such FIFO, else -28 exactly where they don't all fit, and then
    /// nothing changes (RTLinux 3, rtf_put).
    #[tactic(auto, unfolding(crate::specs::Fifos::put_reply))]
    pub fn put(&mut self, fifo: u32, bytes: &[u8]) -> i32
        requires { length bytes.now ≤ BYTES_LIMIT }
        ensures result { result ≡ (put_reply fifo bytes.now self.old).result }
        ensures few { IsAtMost (length bytes.now) result }
        ensures fifos { self.new ≡ (put_reply fifo bytes.now self.old).fifos }
    {
        if fifo as usize >= self.rooms.len() {
            return failed(ENODEV);
        }
        self.rooms[fifo as usize].put(bytes)
    }

    /// Moves the first bytes to the front of `into`, and says how many; the rest of `into` stays. -19 exactly where there is no such
    /// FIFO (RTLinux 3, rtf_get).
    #[tactic(auto, unfolding(crate::specs::Fifos::get_reply))]
    pub fn get(&mut self, fifo: u32, into: &mut [u8]) -> i32
        requires { length into.old ≤ BYTES_LIMIT }
        ensures result { result ≡ (get_reply fifo (length into.old) self.old).result }
        ensures few { IsAtMost (length into.old) result }
        ensures into { into.new ≡ in_front (get_reply fifo (length into.old) self.old).bytes into.old }
        ensures fifos { self.new ≡ (get_reply fifo (length into.old) self.old).fifos }
    {
        if fifo as usize >= self.rooms.len() {
            return failed(ENODEV);
        }
        self.rooms[fifo as usize].get(into)
    }

    /// The FIFO's bytes are gone; -19 exactly where there is none (RTLinux 3, rtf_flush).
    pub fn flush(&mut self, fifo: u32) -> i32
        ensures result { result ≡ (flush_reply fifo self.old).result }
        ensures fifos { self.new ≡ (flush_reply fifo self.old).fifos }
    {
        if fifo as usize >= self.rooms.len() {
            return failed(ENODEV);
        }
        self.rooms[fifo as usize].flush()
    }

    /// How many bytes wait in a FIFO; -19 exactly where there is none.
    pub fn count(&self, fifo: u32) -> i32
        ensures { result ≡ (count_reply fifo self.now).result }
    {
        if fifo as usize >= self.rooms.len() {
            return failed(ENODEV);
        }
        self.rooms[fifo as usize].count()
    }

    /// The FIFO's handler is at an entry, an address, and a mark stays; entry 0 takes the handler away, with its mark. -19 exactly where
    /// there is no such FIFO (RTLinux 3, rtf_create_handler).
    pub fn set_handler(&mut self, fifo: u32, entry: u32) -> i32
        ensures result { result ≡ (set_handler_reply fifo entry self.old).result }
        ensures fifos { self.new ≡ (set_handler_reply fifo entry self.old).fifos }
    {
        if fifo as usize >= self.rooms.len() {
            return failed(ENODEV);
        }
        let result = self.rooms[fifo as usize].set_handler(entry);
        self.next = first_marked(self.rooms.as_slice());
        result
    }

    /// Marks a FIFO's handler to start, if there are such.
    #[tactic(auto, unfolding(crate::specs::Fifos::with_mark))]
    pub fn mark(&mut self, fifo: u32)
        ensures { self.new ≡ with_mark fifo self.old }
    {
        if (fifo as usize) < self.rooms.len() {
            self.rooms[fifo as usize].mark();
            self.next = first_marked(self.rooms.as_slice());
        }
    }

    /// The marked FIFO of lowest number, whose handler is next; `None` exactly where none is marked.
    pub fn next_marked(&self) -> Option<u8>
        ensures fifo { result ≡ next_marked self.now }
        ensures marked { IfSome result (λ f. is_marked (fifo_at self.now f) ≡ true) }
        ensures below { IfSome result (λ f. f < FIFOS_LIMIT) }
    {
        self.next
    }

    /// Clears the mark of a marked FIFO, and gives its handler's entry, an address.
    #[tactic(auto, unfolding(crate::specs::Fifos::without_mark))]
    pub fn start(&mut self, fifo: u8) -> u32
        requires { is_marked (fifo_at self.old fifo) ≡ true }
        ensures entry { result ≡ handler_in (fifo_at self.old fifo) }
        ensures handler { HasHandler (fifo_at self.old fifo) result }
        ensures fifos { self.new ≡ without_mark fifo self.old }
    {
        let entry = self.rooms[fifo as usize].start();
        self.next = first_marked(self.rooms.as_slice());
        entry
    }
}
