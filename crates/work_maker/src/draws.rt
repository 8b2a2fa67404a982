// The draws.

ghost use Rattle.std.specs.Prelude.{◌≡◌, ◌<◌, ◌≤◌};
ghost use Rattle.work_maker.specs.Draws.{next, draw, after, thread_of, guest_period_from};
ghost use Rattle.work_maker.specs.Script.{met, behind_met, event_of, behind_event};

use device_script::Event;

/// The multiplier and the increment of the generator, those of Numerical Recipes (Press and others, section 7.1).
const MULTIPLIER: u64 = 1_664_525;

const INCREMENT: u64 = 1_013_904_223;

/// The interrupt line that a script raises.
const SCRIPT_LINE: u8 = 5;

/// What is drawn for a thread.
#[derive(Clone, Copy, Debug, PartialEq, Eq)]
pub struct Thread {
    /// From 1 to 200.
    pub priority: u32,
    /// From 200 to 2,199 ticks.
    pub period: u32,
    /// How often it counts down in a period, from 1 to 50.
    pub work: u32,
}

#[derive(Drop)]
/// A linear congruential generator modulo 2^32. A draw gives the upper half of its state, modulo a number.
pub struct Draws {
    pub state: u32,
}

impl Draws {
    /// The draws of a number, from the first one on.
    pub fn new(number: u32) -> Draws
        ensures { result.state ≡ number }
    {
        Draws { state: number }
    }

    /// The next draw: a number below `count`.
    #[tactic(auto, unfolding(crate::specs::Draws::next, crate::specs::Draws::draw))]
    pub fn draw(&mut self, count: u32) -> u32
        requires { 0 < count }
        ensures drawn { result ≡ draw count self.old.state }
        ensures below { result < count }
        ensures next { self.new.state ≡ next self.old.state }
    {
        let raised = u64::from(self.state) * MULTIPLIER + INCREMENT;
        self.state = (raised % (1 << 32)) as u32;
        self.state / 65_536 % count
    }

    /// The next three draws: a thread.
    pub fn thread(&mut self) -> Thread
        ensures drawn { result ≡ thread_of self.old.state }
        ensures next { self.new.state ≡ after 3 self.old.state }
    {
        Thread {
            priority: 1 + self.draw(200),
            period: 200 + self.draw(2_000),
            work: 1 + self.draw(50),
        }
    }

    /// The next draw: the period of the guest's timer, from 500 to 1,499 ticks.
    pub fn guest_period(&mut self) -> u32
        ensures drawn { result ≡ guest_period_from self.old.state }
        ensures next { self.new.state ≡ next self.old.state }
    {
        500 + self.draw(1_000)
    }

    /// The next draws: the event with this number, counted from 1, and its tick.
    pub fn event(&mut self, number: u32) -> (u32, Event)
        requires { number ≤ 100000 }
        ensures drawn { result ≡ event_of number self.old.state }
        ensures next { self.new.state ≡ behind_event self.old.state }
    {
        let kind = self.draw(2);
        let tick = 1_000 * number + self.draw(900);
        (tick, self.met(kind))
    }

    // What a device meets: an interrupt line for kind 0, else a byte for COM1, which is drawn.
    fn met(&mut self, kind: u32) -> Event
        ensures drawn { result ≡ met kind self.old.state }
        ensures next { self.new.state ≡ behind_met kind self.old.state }
    {
        if kind == 0 {
            Event::Line(SCRIPT_LINE)
        } else {
            Event::Com1(self.draw(256) as u8)
        }
    }
}
