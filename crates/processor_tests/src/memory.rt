// Words at the ends of a side, and two parts of one memory.
use flat_memory::{FlatMemory, Side};
use std::test::Fail;

#[test]
fn words_are_little_endian(rt: HostRuntime) {
    let mut bytes = [0u8; 8];
    let mut side = Side::new(0x1000, &mut bytes);
    let stored = side.store32(0x1002, 0x1234_5678)
        && side.store16(0x1006, 0xffff_0001)
        && side.store8(0x1007, 0xffff_ff90)
        && !side.store16(0x1007, 1)
        && !side.store8(0x1008, 1);
    let loaded = side.load8(0x1002) == Some(0x78)
        && side.load16(0x1003) == Some(0x3456)
        && side.load32(0x1004) == Some(0x9001_1234)
        && side.load32(0x1005).is_none()
        && side.load8(0xfff).is_none();
    let placed = side.first() == 0x1000 && side.size() == 8 && side.bytes()[7] == 0x90;
    assert!(rt; stored && loaded && placed);
}

#[test]
fn two_parts_are_made(rt: HostRuntime) -> Result<(), Fail> {
    let mut memory = FlatMemory::new(rt.alloc(), 65_536, 131_072)
        .ok()
        .ok_or("no memory")?;
    let read = memory.guest_bytes().len() == 65_536 && memory.real_time_bytes().len() == 131_072;
    let lent = memory.guest().len() == 65_536 && memory.real_time().len() == 131_072;
    assert!(rt; read && lent);
    Ok(())
}
