// What holds of the board over device steps and accesses.

ghost use Rattle.port_board.specs.Laws.{LatchesRises, SamplesPortAlone};
ghost use Rattle.port_board.specs.Left.{CountsDown, ReadsOneShot, SetsTicksLeft};
ghost use Rattle.port_board.specs.OneShot.{TicksOneShot, SetsOneShot};
ghost use Rattle.port_board.specs.Steps.{DeviceSteps};

/// A tick takes one from the ticks until the one-shot rises, and line 0 rises just in the last one.
pub fn ticks_one_shot()
    ensures { TicksOneShot }
{}

/// A setting for k ticks rises in the k-th tick.
pub fn sets_one_shot()
    ensures { SetsOneShot }
{}

/// After a device step a line is latched exactly where it was or rose in it.
pub fn latches_rises()
    ensures { LatchesRises }
{}

/// After an access it makes no difference whether both serial ports are sampled, or the one that was accessed alone.
pub fn samples_port_alone()
    ensures { SamplesPortAlone }
{}

/// What counter 0 says is in how many ticks the one-shot rises.
pub fn reads_one_shot()
    ensures { ReadsOneShot }
{}

/// A tick takes one from the ticks that are left, and line 0 is latched in the last one.
pub fn counts_down()
    ensures { CountsDown }
{}

/// A setting for k ticks leaves k.
pub fn sets_ticks_left()
    ensures { SetsTicksLeft }
{}

/// What a device step comes to, part by part.
pub fn device_steps()
    ensures { DeviceSteps }
{}
