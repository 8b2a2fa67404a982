// The buses of the two owners.
ghost use Rattle.std.specs.Prelude.{◌≡◌};
ghost use Rattle.port_map.specs.declared.owner.Owner.{Owner};
ghost use Rattle.port_map.specs.declared.owner.Owner.TheVariants as owner;

use crate::access::{load, store};
use cpu_state::{Bus, Width};
use port_board::Board;
use port_map::Owner;
use std::marker::PhantomData;

/// Whose ports a bus reaches, said by a type.
pub trait PortOwner {
    /// The owner.
    ghost who: { Owner };

    /// The owner.
    fn owner() -> Owner
        ensures { result ≡ who };
}

/// The guest as the owner of ports.
#[derive(Drop)]
pub struct GuestPorts;

impl PortOwner for GuestPorts {
    ghost who = { owner.Guest };

    fn owner() -> Owner {
        Owner::Guest
    }
}

/// The real-time side as the owner of ports.
#[derive(Drop)]
pub struct RealTimePorts;

impl PortOwner for RealTimePorts {
    ghost who = { owner.RealTime };

    fn owner() -> Owner {
        Owner::RealTime
    }
}

/// A side of memory and the board, lent, as an owner of ports reaches them.
#[derive(Drop)]
pub struct OwnerBus<'a, O: PortOwner> {
    pub first: u32,
    pub bytes: &'a mut [u8],
    pub board: &'a mut Board,
    reaches: PhantomData<O>,
}

/// The guest's bus.
pub type GuestBus<'a> = OwnerBus<'a, GuestPorts>;

/// The real-time side's bus.
pub type RealTimeBus<'a> = OwnerBus<'a, RealTimePorts>;

impl<'a, O: PortOwner> OwnerBus<'a, O> {
    /// A bus over these bytes, of which the first stands at the address `first`, and the owner's ports. What is done through
    /// it is done to them.
    pub fn new(first: u32, bytes: &'a mut [u8], board: &'a mut Board) -> OwnerBus<'a, O>
        ensures first { result.first ≡ first }
        ensures bytes { result.bytes.now ≡ bytes.old }
        ensures board { result.board.now ≡ board.old }
        ensures same_bytes { result.bytes.ghost_name ≡ bytes.entry.ghost_name }
        ensures same_board { result.board.ghost_name ≡ board.entry.ghost_name }
    {
        OwnerBus {
            first,
            bytes,
            board,
            reaches: PhantomData,
        }
    }
}

impl<'a, O: PortOwner> Bus for OwnerBus<'a, O> {
    ghost use Rattle.std.specs.Prelude.{[], ◌∷◌};
    ghost use Rattle.port_board.specs.Board.{ports_of};
    ghost use Rattle.breach_monitor.specs.Bus.{bus_state};

    type Devices = Board;

    ghost state = { λ bus. bus_state bus.first bus.bytes.now bus.board.now };

    ghost lenders = { λ bus. bus.bytes.ghost_name ∷ bus.board.ghost_name ∷ [] };

    ghost ports = { ports_of O.who };

    fn fits(&self, at: u32, count: u32) -> bool {
        flat_memory::fits(self.first, &*self.bytes, at, count)
    }

    fn fetch(&self, at: u32) -> &[u8] {
        flat_memory::fetch(self.first, &*self.bytes, at)
    }

    fn load(&self, at: u32, width: Width) -> Option<u32> {
        load(self.first, &*self.bytes, at, width)
    }

    fn store(&mut self, at: u32, width: Width, value: u32) -> bool {
        store(self.first, &mut *self.bytes, at, width, value)
    }

    fn port_in(&mut self, port: u16, width: Width) -> Option<u32> {
        match self.board.read(O::owner(), port, width) {
            Ok(value) => Some(value),
            Err(_) => None,
        }
    }

    fn port_out(&mut self, port: u16, width: Width, value: u32) -> bool {
        self.board.write(O::owner(), port, width, value).is_ok()
    }
}
