// The real-time side beside guests.

ghost use Rattle.schedule_rows.specs.CallRows.{Calls, OwnerModule, Replies};
ghost use Rattle.schedule_rows.specs.FaultRows.{DivideFault, IntFault, MemoryFault, OpcodeFault, PortFault, PrivilegedFault};
ghost use Rattle.schedule_rows.specs.SerialRows.{Printed, PrintedEnd, ReceivedByte, ReceivedEdges, UnitEdge};
ghost use Rattle.schedule_rows.specs.ThreadRows.{BesideBreach, BesideIdle, BesideTimer, BreachLine, EqualPriorities, Periodic};
ghost use Rattle.schedule_rows.specs.VersionRows.{ByArrival, EarliestDue};
ghost use Rattle.schedule_rows.specs.WaitRows.{Sleeping, SleepingEnd, SleepingShots, Suspended, SuspendedEnd, SuspendedShots};

/// Threads beside guests, row by row.
pub fn thread_rows()
    ensures periodic { Periodic }
    ensures beside_idle { BesideIdle }
    ensures beside_timer { BesideTimer }
    ensures equal_priorities { EqualPriorities }
    ensures beside_breach { BesideBreach }
    ensures breach_line { BreachLine }
{}

/// Which of two threads of equal priority goes first, by version.
pub fn version_rows()
    ensures by_arrival { ByArrival }
    ensures earliest_due { EarliestDue }
{}

/// Handlers of lines and of FIFOs, and the calls of a guest, row by row.
pub fn call_rows()
    ensures owner { OwnerModule }
    ensures replies { Replies }
    ensures calls { Calls }
{}

/// Faults of an init, row by row.
pub fn fault_rows()
    ensures divide_fault { DivideFault }
    ensures privileged_fault { PrivilegedFault }
    ensures memory_fault { MemoryFault }
    ensures int_fault { IntFault }
    ensures opcode_fault { OpcodeFault }
    ensures port_fault { PortFault }
{}

/// Threads that don't run, with the one-shot and their end lines, row by row.
pub fn wait_rows()
    ensures suspended { Suspended }
    ensures suspended_shots { SuspendedShots }
    ensures suspended_end { SuspendedEnd }
    ensures sleeping { Sleeping }
    ensures sleeping_shots { SleepingShots }
    ensures sleeping_end { SleepingEnd }
{}

/// Lines of the serial ports, and what a module prints, row by row.
pub fn serial_rows()
    ensures unit_edge { UnitEdge }
    ensures received_byte { ReceivedByte }
    ensures received_edges { ReceivedEdges }
    ensures printed { Printed }
    ensures printed_end { PrintedEnd }
{}
