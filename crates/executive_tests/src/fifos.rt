// The values are worked out by hand from these rules. A put is whole or refused, and a get takes what is there. A handler is marked where
// there is one, and entry 0 takes it away with its mark. A refusal is the negative of Linux's EBUSY, 16, where there is such a FIFO, of
// its ENODEV, 19, where there is none, of its EINVAL, 22, where there can be none, and of its ENOSPC, 28, where the bytes don't fit.

use rt_fifos::Fifos;
use std::test::Fail;

#[test]
fn bytes_leave_in_order(rt: HostRuntime) -> Result<(), Fail> {
    let mut fifos = Fifos::new(rt.alloc()).ok().ok_or("no memory")?;
    let mut into = [9; 4];
    assert_eq!(rt; fifos.put(63, b"ab"), -19);
    assert_eq!(rt; fifos.create(64, 3), -22);
    assert_eq!(rt; fifos.create(63, 3), 0);
    assert_eq!(rt; fifos.create(63, 3), -16);
    assert_eq!(rt; fifos.put(63, b"ab"), 2);
    assert_eq!(rt; fifos.put(63, b"cd"), -28);
    assert_eq!(rt; fifos.put(63, b"c"), 1);
    assert_eq!(rt; fifos.get(63, &mut into), 3);
    assert_eq!(rt; into, [0x61, 0x62, 0x63, 9]);
    assert_eq!(rt; fifos.count(63), 0);
    Ok(())
}

#[test]
fn a_marked_handler_starts_once(rt: HostRuntime) -> Result<(), Fail> {
    let mut fifos = Fifos::new(rt.alloc()).ok().ok_or("no memory")?;
    assert_eq!(rt; fifos.create(8, 16_384), 0);
    fifos.mark(8);
    assert_eq!(rt; fifos.next_marked(), None);
    assert_eq!(rt; fifos.set_handler(8, 0x1234), 0);
    fifos.mark(8);
    assert_eq!(rt; fifos.next_marked(), Some(8));
    if let Some(fifo) = fifos.next_marked() {
        assert_eq!(rt; fifos.start(fifo), 0x1234);
    }
    fifos.mark(8);
    assert_eq!(rt; fifos.set_handler(8, 0), 0);
    assert_eq!(rt; fifos.next_marked(), None);
    Ok(())
}
