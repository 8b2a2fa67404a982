// The machine.
ghost use Rattle.std.specs.Prelude.{◌≡◌, ◌≤◌, ◌<◌, ◌+◌, length, IfOk, zero};
ghost use Rattle.device_script.specs.Event.{IsScript};
ghost use Rattle.bare_machine.specs.State.{first_state as first_bare};
ghost use Rattle.bare_machine.specs.Run.{bare_end};
ghost use Rattle.priority_schedule.specs.Run.{real_end};
ghost use Rattle.priority_schedule.specs.State.{first_state as first_real};
ghost use Rattle.hardware_lines.specs.Hardware.{first_hardware};
ghost use Rattle.machine_state.specs.Running.{HasSizes};
ghost use Rattle.machine_state.specs.Standing.{IsStanding};
ghost use Rattle.machine_state.specs.States.{bare_of, hardware_at, real_of};
ghost use Rattle.rt_core.specs.Coming.{above};
ghost use Rattle.rt_core.specs.Start.{start_of, real_start_of};
ghost use Rattle.rt_core.specs.Ticked.{TickStep};

use crate::coming::{MOST_EVENTS, take_events};
use crate::end::{EndLines, guest_end, guest_ends, real_time_ends};
use crate::first::{booted_board, first_guest, first_processor, guest_registers};
use crate::steps::{drain_where, drains, set_timer, unit};
use device_script::{Event, Script};
use device_step::devices;
use executive::Executive;
use flat_memory::FlatMemory;
use machine_state::{Guest, Inits, Processor};
use outside_io::NoMemory;
use pick_step::pick_next;
use port_board::Board;
use std::alloc::Global;
use std::marker::Model;
use trace_lines::Lines;

/// What a machine is made of: its memory, with the guest's image, the stub and the modules placed, the address of the guest's first
/// instruction, the entries of the modules' inits, at most 16, the version of the rule that picks among threads of equal priority, and the
/// script.
#[derive(Drop)]
pub struct Parts {
    pub memory: FlatMemory,
    pub entry: u32,
    pub inits: Vec<u32>,
    pub version: u8,
    pub script: Script,
}

/// The machine. It is seen as its parts, and stands between two ticks for a state of the bare machine, one of the real-time side and one of
/// the hardware.
#[derive(Drop)]
pub struct Machine {
    memory: FlatMemory,
    processor: Processor,
    board: Board,
    all: Executive,
    guest: Guest,
    // the last tick in which line 0 was acknowledged
    last: u32,
    modules: Inits,
    script: Script,
    // the place of the first event to come
    next: usize,
    // where the events of a tick are copied, so that no tick makes room for them
    room: [Event; MOST_EVENTS],
    ticks: u32,
}

impl Model for Machine {
    ghost use Rattle.machine_state.specs.Parts.{MachineParts};
    ghost use Rattle.rt_core.specs.View.{IsMachine, seen};

    ghost Value = { MachineParts };

    ghost view = { seen };

    ghost invariant = { IsMachine };
}

impl Machine {
    /// The machine before its first tick, with nothing on the processor. It takes all memory that a run needs, and programs the pair of
    /// controllers: the vectors from 20h and 28h on, and no line masked.
    pub fn boot(alloc: Global, parts: Parts) -> Result<Machine, NoMemory>
        requires sizes { HasSizes parts.memory }
        requires modules { length parts.inits.items ≤ 16 }
        requires script { IsScript parts.script.events }
        ensures guest { IfOk result (λ m. bare_of m ≡ first_bare (start_of parts.memory parts.entry)) }
        ensures real_time { IfOk result (λ m. real_of m ≡ first_real (real_start_of parts.memory parts.version parts.inits.items)) }
        ensures hardware { IfOk result (λ m. hardware_at m ≡ first_hardware) }
        ensures stands { IfOk result (λ m. IsStanding m) }
        ensures coming { IfOk result (λ m. m.coming ≡ parts.script.events) }
        ensures ticks { IfOk result (λ m. m.ticks ≡ zero) }
    {
        let Parts {
            memory,
            entry,
            inits,
            version,
            script,
        } = parts;
        let size = memory.guest_bytes().len() as u32;
        let all = Executive::new(alloc, version)?;
        Ok(Machine {
            memory,
            processor: first_processor(entry, size),
            board: booted_board(),
            all,
            guest: first_guest(),
            last: 0,
            modules: Inits::new(inits),
            script,
            next: 0,
            room: [Event::Line(1); MOST_EVENTS],
            ticks: 0,
        })
    }

    /// One tick, in five steps: the devices, the drain, the pick, the unit and the timer. Afterwards `lines` holds just its lines. It takes no
    /// memory.
    pub fn tick(&mut self, lines: &mut Lines)
        requires { self.old.ticks < 1000000000 }
        ensures ticked { TickStep (self.old.ticks + 1) self.old self.new lines.new }
        ensures stands { IsStanding self.new }
        ensures coming { self.new.coming ≡ above (self.old.ticks + 1) self.old.coming }
        ensures ticks { self.new.ticks ≡ self.old.ticks + 1 }
    {
        lines.clear();
        self.ticks += 1;
        let count = take_events(
            self.script.events.as_slice(),
            &mut self.next,
            self.ticks,
            &mut self.room,
        );
        devices(self.ticks, &self.room[..count], &mut self.board, lines);
        let draining = drains(&self.processor);
        drain_where(
            draining,
            self.ticks,
            &mut self.board,
            &mut self.all,
            &mut self.guest,
            &mut self.last,
            lines,
        );
        let who = pick_next(
            draining,
            &mut self.processor,
            &mut self.all,
            &mut self.memory,
            &mut self.modules,
            lines,
        );
        let change = unit(
            self.ticks,
            who,
            &mut self.memory,
            &mut self.processor,
            &mut self.board,
            &mut self.all,
            &mut self.guest,
            lines,
        );
        set_timer(self.ticks, change, &mut self.board, &self.all, lines);
    }

    /// The end lines of both halves.
    pub fn end(&self) -> EndLines
        ensures guest { result.g ≡ bare_end (bare_of self.now) }
        ensures real_time { result.r ≡ real_end (real_of self.now) }
    {
        let registers = guest_registers(&self.processor);
        let first = guest_end(&registers, self.guest.soft.flag, self.guest.mode);
        EndLines {
            r: real_time_ends(&self.all, self.memory.real_time_bytes()),
            g: guest_ends(first, self.memory.guest_bytes()),
        }
    }
}
