// Calls whose answers follow from the rules of the 8259A's data sheet: "Priority Resolver" and "Fully Nested Mode" for what is
// requested, "The Cascade Buffer/Comparator" for the slave's lines behind the master's line 2, "Interrupt Sequence" for an
// acknowledge, "Initialization Command Words" and "Operation Control Words" for the writes, and "Reading the 8259A Status".

use pic_8259::{MASTER_COMMAND, MASTER_DATA, Pair, SLAVE_COMMAND, SLAVE_DATA};

/// OCW2: the non-specific end of interrupt.
const NONSPECIFIC_EOI: u8 = 0x20;
/// OCW3: the next reads of the even port give IRR.
const READ_IRR: u8 = 0x0A;
/// OCW3: the next reads of the even port give ISR.
const READ_ISR: u8 = 0x0B;

// Line 1 comes before the slave's line 9, and that before the master's line 3; none comes while a higher one is in service.
#[test]
fn vectors_come_in_the_order_of_the_cascade(rt: HostRuntime) {
    let mut pair = Pair::new();
    pair.initialize();
    pair.edge(9);
    pair.edge(3);
    pair.edge(1);
    assert_eq!(rt; pair.acknowledge(), Some(0x21));
    assert_eq!(rt; pair.acknowledge(), None);
    pair.write(MASTER_COMMAND, NONSPECIFIC_EOI);
    assert_eq!(rt; pair.acknowledge(), Some(0x29));
    pair.write(SLAVE_COMMAND, NONSPECIFIC_EOI);
    pair.write(MASTER_COMMAND, NONSPECIFIC_EOI);
    assert_eq!(rt; pair.acknowledge(), Some(0x23));
}

// Writes and reads of the registers: a port, a value to write, and what a read of that port then gives.
#[test]
fn registers_are_read_as_chosen(rt: HostRuntime) {
    let mut pair = Pair::new();
    pair.initialize();
    pair.edge(1);
    pair.edge(12);
    for (port, value, read) in [
        // The slave requests, so the master shows its line 2.
        (MASTER_COMMAND, READ_IRR, 0x06),
        (SLAVE_COMMAND, READ_IRR, 0x10),
        // Nothing is in service.
        (MASTER_COMMAND, READ_ISR, 0x00),
        // The mask of the slave's line 4 hides its request from the master.
        (SLAVE_DATA, 0x10, 0x10),
        (MASTER_COMMAND, READ_IRR, 0x02),
        // ICW1 drops the latches and the mask.
        (SLAVE_COMMAND, 0x13, 0x00),
        // ICW2 and ICW4 are awaited, and then the mask again.
        (SLAVE_DATA, 0x77, 0x00),
        (SLAVE_DATA, 0x01, 0x00),
        (SLAVE_DATA, 0x5A, 0x5A),
    ] {
        // Each row meets the condition of `write` and `read`, which the proof knows from this.
        assert!(rt;
            port == MASTER_COMMAND
                || port == MASTER_DATA
                || port == SLAVE_COMMAND
                || port == SLAVE_DATA
        );
        pair.write(port, value);
        assert_eq!(rt; pair.read(port), read, "after {value} at {port}");
    }
}
