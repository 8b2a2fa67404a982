// The values are worked out by hand from these rules. A new thread has the lowest free number, is ready, and has no period; there are 64.
// A period starts with a wait until its first due, and each wait of a periodic thread is until its last due and a period. A refusal is
// the negative of Linux's EAGAIN, 11, where no thread is free, and of its EINVAL, 22, where the number isn't live or the argument isn't
// one.

use cpu_state::Context;
use rt_threads::{State, Threads};
use std::test::Fail;

#[test]
fn a_periodic_thread_waits_from_due_to_due(rt: HostRuntime) -> Result<(), Fail> {
    let mut threads = Threads::new(rt.alloc()).ok().ok_or("no memory")?;
    assert_eq!(rt; threads.create(5, Context::new(0x1000, 0x2000)), 0);
    assert_eq!(rt; threads.wait(0), -22);
    assert_eq!(rt; threads.periodic(0, 100, 40), 0);
    assert_eq!(rt; threads.state(0), Some(State::Waiting(100)));
    assert_eq!(rt; threads.sleep(0, 7, 3), 0);
    assert_eq!(rt; threads.state(0), Some(State::Waiting(10)));
    assert_eq!(rt; threads.wait(0), 0);
    assert_eq!(rt; threads.state(0), Some(State::Waiting(140)));
    Ok(())
}

#[test]
fn the_lowest_free_number_is_taken(rt: HostRuntime) -> Result<(), Fail> {
    let mut threads = Threads::new(rt.alloc()).ok().ok_or("no memory")?;
    for number in 0..64u32 {
        assert_eq!(rt;
            threads.create(number, Context::new(0x1000, 0x2000)),
            number as i32
        );
    }
    assert_eq!(rt; threads.create(256, Context::new(0, 0)), -22);
    assert_eq!(rt; threads.create(255, Context::new(0, 0)), -11);
    assert_eq!(rt; threads.delete(9), 0);
    assert_eq!(rt; threads.priority(9), -22);
    assert_eq!(rt; threads.create(255, Context::new(0x3000, 0)), 9);
    assert_eq!(rt; threads.priority(9), 255);
    Ok(())
}
