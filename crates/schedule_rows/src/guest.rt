// Guests beside no module.

ghost use Rattle.schedule_rows.specs.BreachRows.{Clears, FetchesPast, Interrupts, OtherPort, PushStraddles, PushesFlags, StoreAtTheEnd};
ghost use Rattle.schedule_rows.specs.GuestRows.{Divides, Halting, NoInstruction, Pending, Sends};

/// Guests beside no module that end in a breach, row by row.
pub fn breach_rows()
    ensures store_at_the_end { StoreAtTheEnd }
    ensures push_straddles { PushStraddles }
    ensures clears { Clears }
    ensures pushes_flags { PushesFlags }
    ensures fetches_past { FetchesPast }
    ensures interrupts { Interrupts }
    ensures other_port { OtherPort }
{}

/// Guests beside no module that go on or are shut down, row by row.
pub fn guest_rows()
    ensures divides { Divides }
    ensures no_instruction { NoInstruction }
    ensures sends { Sends }
    ensures pending { Pending }
    ensures halting { Halting }
{}
