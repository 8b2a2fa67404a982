// What holds of the pair over several calls.
ghost use Rattle.pic_8259.specs.Laws.{RequestsInOrder, KeepsLatches, LatchesRises};

/// A pair as after the boot requests the first of its latched lines in the order 0, 1, 8 to 15, 3 to 7.
pub fn requests_in_order()
    ensures { RequestsInOrder }
{}

/// A latched line stays latched until it is acknowledged or ICW1 is written to its chip.
pub fn keeps_latches()
    ensures { KeepsLatches }
{}

/// A rise of a line other than the cascade's latches that line alone.
pub fn latches_rises()
    ensures { LatchesRises }
{}
