// The place of one FIFO.
ghost use Rattle.std.specs.Prelude.{◌≡◌, ◌≤◌, ◌++◌, length, drop, true, IfOk, None, option_map};
ghost use Rattle.rt_constants.specs.declared.limits.TheConstants.{BYTES_LIMIT, FIFO_LIMIT};
ghost use Rattle.rt_fifos.specs.Fifos.{flushed, handler_in, is_marked, marked_in, unmarked_in, with_handler};
ghost use Rattle.rt_fifos.specs.Room.{count_result, create_result, created_in, get_result, got_in, in_front, moved, put_in, put_result, there_result, HasHandler, IsAtMost};

use circular_buffer::HeapCircularBuffer;
use rt_constants::limits::FIFO_LIMIT;
use rt_constants::{EBUSY, ENODEV, ENOSPC, failed};
use std::alloc::{AllocError, Global};
use std::marker::Model;

/// How many bytes a FIFO holds at most, its handler's entry, an address, and whether that is marked to start.
#[derive(Clone, Copy)]
pub struct Terms {
    pub size: u32,
    pub handler: Option<u32>,
    pub mark: bool,
}

/// A ring with room for the most bytes, and the FIFO's terms beside it, while there is one. Contracts see the FIFO.
#[derive(Drop)]
pub struct Room {
    ring: HeapCircularBuffer<u8>,
    terms: Option<Terms>,
}

impl Model for Room {
    ghost use Rattle.std.specs.Prelude.{Option};
    ghost use Rattle.rt_fifos.specs.Fifos.{Fifo};
    ghost use Rattle.rt_fifos.specs.Room.{view_of, IsRoom};

    ghost Value = { Option Fifo };

    ghost view = { view_of };

    ghost invariant = { IsRoom };
}

impl Room {
    /// No FIFO. All its memory is taken here.
    pub fn new(alloc: Global) -> Result<Room, AllocError>
        ensures { IfOk result (λ r. r ≡ None) }
    {
        Ok(Room {
            ring: HeapCircularBuffer::with_capacity(alloc, FIFO_LIMIT as usize)?,
            terms: None,
        })
    }

    /// Makes a FIFO of a size in bytes; -16 exactly where there is one.
    pub fn create(&mut self, size: u32) -> i32
        requires { size ≤ FIFO_LIMIT }
        ensures result { result ≡ create_result self.old }
        ensures room { self.new ≡ created_in size self.old }
    {
        if self.terms.is_some() {
            return failed(EBUSY);
        }
        self.ring.clear();
        self.terms = Some(Terms {
            size,
            handler: None,
            mark: false,
        });
        0
    }

    /// The FIFO is gone; -19 exactly where there is none.
    pub fn destroy(&mut self) -> i32
        ensures result { result ≡ there_result self.old }
        ensures room { self.new ≡ None }
    {
        if self.terms.is_none() {
            return failed(ENODEV);
        }
        self.terms = None;
        0
    }

    /// Appends the bytes, and says how many: -19 exactly where there is no FIFO, else -28 exactly where they don't all fit.
    pub fn put(&mut self, bytes: &[u8]) -> i32
        requires { length bytes.now ≤ BYTES_LIMIT }
        ensures result { result ≡ put_result bytes.now self.old }
        ensures room { self.new ≡ put_in bytes.now self.old }
    {
        match self.terms {
            Some(terms) => {
                if bytes.len() > terms.size as usize - self.ring.len() {
                    return failed(ENOSPC);
                }
                self.ring.fill_from_slice(bytes);
                bytes.len() as i32
            }
            None => failed(ENODEV),
        }
    }

    /// Moves the first bytes to the front of `into`, and says how many; -19 exactly where there is no FIFO.
    pub fn get(&mut self, into: &mut [u8]) -> i32
        requires { length into.old ≤ BYTES_LIMIT }
        ensures result { result ≡ get_result (length into.old) self.old }
        ensures room { self.new ≡ got_in (length into.old) self.old }
        ensures into { into.new ≡ in_front (moved (length into.old) self.old) into.old }
    {
        if self.terms.is_none() {
            return failed(ENODEV);
        }
        self.ring.read_into(into) as i32
    }

    /// The FIFO's bytes are gone; -19 exactly where there is none.
    pub fn flush(&mut self) -> i32
        ensures result { result ≡ there_result self.old }
        ensures room { self.new ≡ option_map flushed self.old }
    {
        if self.terms.is_none() {
            return failed(ENODEV);
        }
        self.ring.clear();
        0
    }

    /// How many bytes wait in the FIFO; -19 exactly where there is none.
    pub fn count(&self) -> i32
        ensures { result ≡ count_result self.now }
    {
        if self.terms.is_none() {
            return failed(ENODEV);
        }
        self.ring.len() as i32
    }

    /// The FIFO's handler is at an entry, an address; 0 takes it away, with its mark. -19 exactly where there is no FIFO.
    pub fn set_handler(&mut self, entry: u32) -> i32
        ensures result { result ≡ there_result self.old }
        ensures room { self.new ≡ option_map (with_handler entry) self.old }
    {
        match &mut self.terms {
            None => failed(ENODEV),
            Some(terms) => {
                if entry == 0 {
                    terms.handler = None;
                    terms.mark = false;
                } else {
                    terms.handler = Some(entry);
                }
                0
            }
        }
    }

    /// Whether the handler is marked.
    pub fn is_marked(&self) -> bool
        ensures { result ≡ is_marked self.now }
    {
        match &self.terms {
            None => false,
            Some(terms) => terms.mark,
        }
    }

    /// Marks the handler, if there is one.
    pub fn mark(&mut self)
        ensures { self.new ≡ marked_in self.old }
    {
        if let Some(terms) = &mut self.terms {
            terms.mark = terms.mark || terms.handler.is_some();
        }
    }

    /// Clears the mark, and gives the handler's entry.
    pub fn start(&mut self) -> u32
        requires { is_marked self.old ≡ true }
        ensures entry { result ≡ handler_in self.old }
        ensures handler { HasHandler self.old result }
        ensures room { self.new ≡ unmarked_in self.old }
    {
        match &mut self.terms {
            None => 0,
            Some(terms) => {
                terms.mark = false;
                match terms.handler {
                    Some(entry) => entry,
                    None => 0,
                }
            }
        }
    }
}
