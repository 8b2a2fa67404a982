// What holds of a serial port over several steps.

ghost use Rattle.uart_16550.specs.Laws.{KeepsOrder, SendsIn33Ticks};

/// Where each byte finds room and each read finds a byte, bytes leave in the order in which they were written, and are read in the
/// order in which they came in.
pub fn keeps_order()
    ensures { KeepsOrder }
{}

/// A byte that is written to a port that sends nothing leaves in the 33rd tick, and in no earlier one.
pub fn sends_in_33_ticks()
    ensures { SendsIn33Ticks }
{}
