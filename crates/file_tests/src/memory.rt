// Small images on a guest's side of 65,536 bytes, beside a real-time side.
use crate::parts::image_of;
use elf_loader::PlaceRefusal;
use elf_loader::PlaceRefusal::{Outside, Overlap};
use run_files::{make_sides, reserved_spans};
use std::alloc::Global;
use std::test::Fail;

#[test]
fn image_and_stub_stand_on_their_sides(rt: HostRuntime) -> Result<(), Fail> {
    let alloc = rt.alloc();
    let image = image_of(alloc, (0xFFFC, 4), (0x1000, 3)).ok_or("no image")?;
    let sides = make_sides(alloc, 65_536, 69_632, &image)
        .ok()
        .ok_or("no memory")?;
    assert_eq!(rt; sides.entry, 0x1234);
    let guest = sides.memory.guest_bytes();
    assert_eq!(rt; guest.len(), 65_536);
    assert_eq!(rt; &guest[0xFFF..0x1004], b"\x00\xEB\xFE\x00\x00".as_slice());
    assert_eq!(rt; &guest[0xFFFC..], b"\xEB\xFE\x00\x00".as_slice());
    let real_time = sides.memory.real_time_bytes();
    assert_eq!(rt; real_time.len(), 69_632);
    assert_eq!(rt; &real_time[..3], b"\xCD\xF9\x00".as_slice());
    Ok(())
}

fn refusal(
    alloc: Global,
    first: (u32, u32),
    second: (u32, u32),
) -> Result<Option<PlaceRefusal>, Fail> {
    let image = image_of(alloc, first, second).ok_or("no image")?;
    Ok(make_sides(alloc, 65_536, 65_536, &image).err())
}

#[test]
fn images_that_are_refused(rt: HostRuntime) -> Result<(), Fail> {
    let alloc = rt.alloc();
    let half = (0, 0x8000);
    assert_eq!(rt; refusal(alloc, half, (0x8000, 0x8000))?, None);
    assert_eq!(rt; refusal(alloc, half, (0xFFFE, 3))?, Some(Outside));
    assert_eq!(rt; refusal(alloc, half, (0x7FFF, 2))?, Some(Overlap));
    Ok(())
}

#[test]
fn ample_memory_has_the_reserved_ranges(rt: HostRuntime) {
    assert!(rt; reserved_spans(rt.alloc(), 65_536, 65_536).is_ok());
}
