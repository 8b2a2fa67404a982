// The values are worked out by hand from these rules. A rise of any line but 2, the cascade's, is latched until it is acknowledged
// (8259A data sheet, "Interrupt Request Register" and "Cascade Mode"), and a drain takes each latched line. Line 0 is the timer's, a
// line that a module holds is marked for it, line 3 is dropped where no module holds it, and each other line is the guest's. A
// module may hold the lines 1, 3 and 5 to 15.

use hard_dispatch::{drain, take_first, take_line};
use pic_8259::Pair;
use rt_irqs::Irqs;

#[test]
fn a_held_line_is_marked_and_line_3_is_dropped(rt: HostRuntime) {
    let mut pair = Pair::new();
    pair.initialize();
    let mut irqs = Irqs::new();
    assert_eq!(rt; irqs.request(9, 0x1000), 0);
    pair.edge(9);
    pair.edge(3);
    pair.edge(1);
    pair.edge(0);
    let drained = drain(&mut pair, &mut irqs);
    assert!(rt; drained.taken.as_slice() == [0, 1, 9, 3].as_slice());
    assert_eq!(rt; drained.acknowledged, 0x020B);
    assert_eq!(rt; drained.guest, 0x0002);
    assert!(rt; drained.timer);
    assert_eq!(rt; irqs.next(), Some(9));
    assert_eq!(rt; pair.request(), None);
}

#[test]
fn one_line_is_taken_alone_and_the_others_in_the_controllers_order(rt: HostRuntime) {
    let mut pair = Pair::new();
    pair.initialize();
    pair.edge(3);
    pair.edge(14);
    pair.edge(9);
    pair.edge(2);
    assert!(rt; !take_line(&mut pair, 1));
    assert!(rt; take_line(&mut pair, 9));
    assert_eq!(rt; take_first(&mut pair), Some(14));
    assert_eq!(rt; pair.request(), Some(3));
}
