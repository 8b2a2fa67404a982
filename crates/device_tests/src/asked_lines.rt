// The lines that are marked for the guest: line 0 comes first, and a set bit of the mask holds its line back.

use pending_irqs::Pending;

#[test]
fn the_lowest_enabled_line_comes_first(rt: HostRuntime) {
    let mut pending = Pending::new();
    pending.mark(31);
    pending.mark(4);
    pending.mark(0);
    assert_eq!(rt; pending.lowest(0), Some(0));
    assert_eq!(rt; pending.lowest(0x0000_0011), Some(31));
    assert_eq!(rt; pending.lowest(0xFFFF_FFFF), None);
    pending.clear(0);
    pending.mark_all(0x8002);
    assert_eq!(rt; pending.lowest(0), Some(1));
    assert_eq!(rt; pending.lowest(0x0000_0012), Some(15));
}
