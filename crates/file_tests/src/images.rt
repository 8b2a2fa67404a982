// A file that a linker wrote. Which files are refused, and by which rule, stands in the rows of `run_tests`.
use crate::greeting::GREETING;
use elf_loader::read_image;

// What `readelf` says of the file: the entry, and the address, the size and the place in the file of each PT_LOAD part.
#[test]
fn a_file_that_a_linker_wrote(rt: HostRuntime) {
    match read_image(rt.alloc(), &GREETING) {
        Ok(image) => {
            assert_eq!(rt; image.entry, 0x1_00D8);
            let parts: [(u32, u32, &[u8]); 2] = [
                (0x1_0000, 0x115, &GREETING[..0x115]),
                (0x1_1118, 8, &GREETING[0x118..0x11C]),
            ];
            assert_eq!(rt; image.segments.len(), parts.len());
            for (segment, (place, size, bytes)) in image.segments.as_slice().iter().zip(&parts) {
                assert_eq!(rt; segment.place, *place);
                assert_eq!(rt; segment.size, *size);
                assert_eq!(rt; segment.bytes.as_slice(), *bytes);
            }
        }
        Err(refusal) => assert!(rt; false, "{refusal:?}"),
    }
}
