// What the units of who has one serial port alone reach of the board.
ghost use Rattle.breach_monitor.specs.Laws.{IsUnitOfSerial, KeepsOthers, IsRealTimeOfSerial, RealTimeKeepsOthers, AccessLeavesOthers, IsFromSerial, IsRealTimeFromSerial};

use port_map::ComPort;

/// A unit of the serial port's owner over the board is, seen at that serial port, one over it alone.
pub fn unit_of_serial(which: ComPort)
    ensures { IsUnitOfSerial which }
{}

/// The board after a unit of the serial port's owner is known from what the unit over the serial port leaves.
pub fn unit_keeps_others(which: ComPort)
    ensures board { KeepsOthers which }
    ensures whole { IsFromSerial which }
{}

/// A unit of a real-time activity over the board is, seen at the serial port, one over it alone.
pub fn real_time_of_serial(which: ComPort)
    ensures { IsRealTimeOfSerial which }
{}

/// The board after a unit of a real-time activity is known from what the unit over the serial port leaves.
pub fn real_time_keeps_others(which: ComPort)
    ensures board { RealTimeKeepsOthers which }
    ensures whole { IsRealTimeFromSerial which }
{}

/// An access to a serial port leaves everything else on the board as it was, but for a rise of the serial port's line.
pub fn access_leaves_others(which: ComPort)
    ensures { AccessLeavesOthers which }
{}
