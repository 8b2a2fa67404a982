// The values are worked out by hand from these rules. The thread of the greatest priority goes first. Among equal ones it is the first
// in order of arrival, and in version 2 before that the one that has been ready longest. A change of priority keeps the place.

use rt_ready::Ready;
use std::test::Fail;

#[test]
fn the_first_of_the_greatest_priority(rt: HostRuntime) -> Result<(), Fail> {
    let mut ready = Ready::new(rt.alloc(), 1).ok().ok_or("no memory")?;
    assert_eq!(rt; ready.first(), None);
    ready.add(7, 10, 30);
    ready.add(2, 10, 20);
    ready.add(5, 9, 10);
    assert_eq!(rt; ready.first(), Some(7));
    ready.set_priority(5, 11);
    assert_eq!(rt; ready.first(), Some(5));
    ready.set_priority(5, 10);
    assert_eq!(rt; ready.take(7), true);
    assert_eq!(rt; ready.first(), Some(2));
    assert_eq!(rt; ready.take(7), false);
    Ok(())
}

#[test]
fn the_longest_ready_in_version_2(rt: HostRuntime) -> Result<(), Fail> {
    let mut ready = Ready::new(rt.alloc(), 2).ok().ok_or("no memory")?;
    ready.add(7, 10, 30);
    ready.add(2, 10, 20);
    ready.add(5, 9, 10);
    assert_eq!(rt; ready.first(), Some(2));
    Ok(())
}
