// The values are worked out by hand from these rules. The nearest due comes first, of equal ones the thread of lowest number, and the
// guest's last. The one-shot timer gets two pulses a tick and rises with the one behind its count, from one tick to 32,768 on (8254 data
// sheet, mode 0).

use rt_timeline::{Due, Timeline};
use std::test::Fail;

#[test]
fn dues_come_in_order(rt: HostRuntime) -> Result<(), Fail> {
    let mut timeline = Timeline::new(rt.alloc()).ok().ok_or("no memory")?;
    assert_eq!(rt; timeline.count(5), None);
    timeline.set(Due::Guest, 90);
    timeline.set(Due::Thread(63), 90);
    timeline.set(Due::Thread(4), 90);
    timeline.set(Due::Thread(0), 91);
    assert_eq!(rt; timeline.nearest(), Some(90));
    assert_eq!(rt; timeline.take_due(89), None);
    assert_eq!(rt; timeline.take_due(90), Some((Due::Thread(4), 90)));
    assert_eq!(rt; timeline.take_due(90), Some((Due::Thread(63), 90)));
    assert_eq!(rt; timeline.take_due(91), Some((Due::Guest, 90)));
    Ok(())
}

#[test]
fn the_one_shot_counts_to_the_nearest_due(rt: HostRuntime) -> Result<(), Fail> {
    let mut timeline = Timeline::new(rt.alloc()).ok().ok_or("no memory")?;
    timeline.set(Due::Guest, 100_000);
    assert_eq!(rt; timeline.count(0), Some(65_535));
    assert_eq!(rt; timeline.count(99_990), Some(19));
    assert_eq!(rt; timeline.count(99_999), Some(1));
    assert_eq!(rt; timeline.count(200_000), Some(1));
    Ok(())
}
