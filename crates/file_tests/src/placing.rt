// Images on a side of 16 bytes at 1000h, of which each byte was AAh.
use crate::greeting::GREETING;
use crate::parts::{image_in, image_of};
use elf_loader::PlaceRefusal::{Outside, Overlap};
use elf_loader::{PlaceRefusal, Spans, place};
use flat_memory::Side;
use std::test::Fail;

const FIRST: u32 = 0x1000;

/// Addresses and sizes of two parts, the refusal beside a reserved range from 1008h to 100Bh, and why.
static PAIRS: [((u32, u32), (u32, u32), Option<PlaceRefusal>, &str); 8] = [
    ((0x1000, 8), (0x100C, 4), None, "both ends, and the range's"),
    ((0x1002, 2), (0x1000, 2), None, "two that touch"),
    ((0x1000, 2), (0x100C, 5), Some(Outside), "one byte more"),
    (
        (0x0FFF, 2),
        (0x1004, 2),
        Some(Outside),
        "one before the first",
    ),
    (
        (0x1000, 2),
        (0xFFFF_FFFF, 0x1002),
        Some(Outside),
        "an end that wraps to the side",
    ),
    ((0x1000, 2), (0x1001, 2), Some(Overlap), "one byte of both"),
    (
        (0x1000, 9),
        (0x100C, 2),
        Some(Overlap),
        "the range's first byte",
    ),
    (
        (0x100A, 2),
        (0x1010, 2),
        Some(Outside),
        "outside comes first",
    ),
];

#[test]
fn parts_at_the_ends(rt: HostRuntime) -> Result<(), Fail> {
    for (first, second, wanted, why) in &PAIRS {
        let image = image_of(rt.alloc(), *first, *second).ok_or("no image")?;
        let mut taken = Spans::new(Vec::from_slice(rt.alloc(), &[(0x1008, 0x100C)])?);
        let mut bytes = [0xAA; 16];
        let answer = place(&image, &mut Side::new(FIRST, &mut bytes), &mut taken);
        match wanted {
            None => assert_eq!(rt; answer, Ok(0x1234), "{why}"),
            Some(refusal) => {
                assert_eq!(rt; answer, Err(*refusal), "{why}");
                assert_eq!(rt; bytes, [0xAA; 16], "{why}");
            }
        }
    }
    Ok(())
}

#[test]
fn bytes_and_zeros_are_stored(rt: HostRuntime) -> Result<(), Fail> {
    let image = image_of(rt.alloc(), (0x1004, 4), (0x100A, 2)).ok_or("no image")?;
    let mut taken = Spans::new(Vec::new(rt.alloc()));
    let mut bytes = [0xAA; 16];
    assert_eq!(rt;
        place(&image, &mut Side::new(FIRST, &mut bytes), &mut taken),
        Ok(0x1234)
    );
    assert_eq!(rt;
        bytes.as_slice(),
        b"\xAA\xAA\xAA\xAA\xEB\xFE\x00\x00\xAA\xAA\xEB\xFE\xAA\xAA\xAA\xAA".as_slice()
    );
    Ok(())
}

#[test]
fn a_linked_file_stands_in_memory(rt: HostRuntime) -> Result<(), Fail> {
    let image = image_in(rt.alloc(), &GREETING).ok_or("no image")?;
    let mut taken = Spans::new(Vec::new(rt.alloc()));
    let mut bytes = vec![in rt.alloc(); 0xAA; 0x1200]?;
    let answer = place(
        &image,
        &mut Side::new(0x1_0000, bytes.as_mut_slice()),
        &mut taken,
    );
    assert_eq!(rt; answer, Ok(0x1_00D8));
    for (byte, wanted) in bytes.iter().zip(&GREETING[..0x115]) {
        assert_eq!(rt; *byte, *wanted);
    }
    // the last byte between the parts, four bytes of the file, four zeros, and the byte behind
    let second = [0xAA, 12, 0, 0, 0, 0, 0, 0, 0, 0xAA];
    for (byte, wanted) in bytes.iter().skip(0x1117).zip(&second) {
        assert_eq!(rt; *byte, *wanted);
    }
    Ok(())
}
