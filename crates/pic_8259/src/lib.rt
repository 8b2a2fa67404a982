//! A pair of 8259A programmable interrupt controllers, after Intel's data sheet of the 8259A.
//!
//! The slave stands at line 2 of the master, as in the IBM PC/AT. Lines 0 to 7 are the master's and 8 to 15 the slave's.
//! Rotation, polling, the special mask mode, automatic end of interrupt and spurious interrupts are left out.
#![tactic(auto)]

mod chip;
mod laws;
mod pair;

pub use chip::{CASCADE, Chip, OCW1_NO_MASK, OCW2_SPECIFIC_EOI, ReadChoice, Step};
pub use laws::{keeps_latches, latches_rises, requests_in_order};
pub use pair::{
    CHIP_LINES, FIRST_VECTOR, MASTER_COMMAND, MASTER_DATA, Pair, SLAVE_COMMAND, SLAVE_DATA,
};
