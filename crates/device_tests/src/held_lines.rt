// The values are worked out by hand from these rules. A module may hold the lines 1, 3 and 5 to 15: 0 is the timer's, 2 the
// cascade's and 4 the guest's serial port's. Handlers start in the order in which a pair of 8259As acknowledges (8259A data sheet,
// "Fully Nested Mode" and "Cascade Mode"). A refusal is the negative of Linux's EBUSY, 16, where a line is held or none is free, and
// of its EINVAL, 22, where the line can't be held, isn't held or isn't taken. Soft lines are 16 to 31, the lowest free one first.

use rt_irqs::Irqs;

#[test]
fn handlers_start_in_the_controllers_order(rt: HostRuntime) {
    let mut irqs = Irqs::new();
    for line in 0..16u32 {
        let held = irqs.request(line, 0x1000 + line) == 0;
        assert_eq!(rt; held, line == 1 || line == 3 || line >= 5, "line {line}");
        if irqs.held(line as u8) {
            irqs.mark(line as u8);
        }
    }
    for line in [1, 8, 9, 10, 11, 12, 13, 14, 15, 3, 5, 6, 7] {
        assert_eq!(rt; irqs.next(), Some(line));
        if let Some(line) = irqs.next() {
            assert_eq!(rt; irqs.start(line), 0x1000 + line as u32);
        }
    }
    assert_eq!(rt; irqs.next(), None);
}

#[test]
fn refusals_have_linux_numbers(rt: HostRuntime) {
    let mut irqs = Irqs::new();
    assert_eq!(rt; irqs.request(4, 0x1000), -22);
    assert_eq!(rt; irqs.request(16, 0x1000), -22);
    assert_eq!(rt; irqs.request(9, 0x1000), 0);
    assert_eq!(rt; irqs.request(9, 0x2000), -16);
    assert_eq!(rt; irqs.free(8), -22);
    assert_eq!(rt; irqs.free(9), 0);
    assert_eq!(rt; irqs.free(9), -22);
    for line in 16..32 {
        assert_eq!(rt; irqs.get_soft(), line);
    }
    assert_eq!(rt; irqs.get_soft(), -16);
    assert_eq!(rt; irqs.free_soft(20), 0);
    assert_eq!(rt; irqs.free_soft(20), -22);
    assert_eq!(rt; irqs.has_soft(20), false);
    assert_eq!(rt; irqs.get_soft(), 20);
}
