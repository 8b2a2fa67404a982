// What holds of the guest's timer.
ghost use Rattle.device_step.specs.Periods.{AsksWhenDue};

/// The due of the guest's timer has come just where it had, or in a tick in which the timer asks.
pub fn asks_when_due()
    ensures { AsksWhenDue }
{}
