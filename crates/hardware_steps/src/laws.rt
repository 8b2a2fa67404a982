// The steps are those of the hardware's definition.
ghost use Rattle.hardware_steps.specs.Laws.{AccessKeepsBoard, IsDeviceStep, IsDrainStep, IsTimerStep, IsUnitStep, NothingRises};

/// The device step, for machines with the board's serial ports.
pub fn is_device_step()
    ensures { IsDeviceStep }
{}

/// The drain, with the one-shot set behind it where line 0 stood.
pub fn is_drain_step()
    ensures { IsDrainStep }
{}

/// The unit: its edges, then the line that it took.
pub fn is_unit_step()
    ensures { IsUnitStep }
{}

/// A unit after which both serial ports are as before it has no edge.
pub fn nothing_rises()
    ensures { NothingRises }
{}

/// The timer, by the nearest dues of the machines before the unit and after it.
pub fn is_timer_step()
    ensures { IsTimerStep }
{}

/// An access leaves the board as each step here needs it.
pub fn access_keeps_board()
    ensures { AccessKeepsBoard }
{}
