// A run that is accepted.

use crate::sides::Sides;
use device_script::Script;
use item_list::Items;

/// Which lines a run shows.
#[derive(Clone, Copy, Debug, PartialEq, Eq)]
pub enum Shown {
    /// The guest's lines, and its first end line.
    Guest,
    /// The lines of both halves, and all end lines.
    Both,
    /// The lines of both halves with the hardware's between them, and all end lines.
    WithHardware,
}

/// What is written of the lines of a run.
#[derive(Clone, Copy, Debug, PartialEq, Eq)]
pub enum Report {
    /// Each of them.
    Lines,
    /// Three lines that sum them up, with the number of which the system was made.
    Summary(u32),
}

/// All that a run starts from.
#[derive(Drop)]
pub struct AcceptedRun {
    /// Both sides of memory, with the image and the modules, and the guest's entry.
    pub sides: Sides,
    /// The entries of the modules' inits, in the order of the system file.
    pub inits: Items<u32>,
    /// The version of the rule that picks among ready threads of equal priority, 1 or 2.
    pub version: u8,
    /// The events from outside.
    pub script: Script,
    /// How many ticks are run.
    pub ticks: u32,
    /// Which lines a run shows.
    pub shown: Shown,
    /// What is written of the lines that it shows.
    pub report: Report,
}
