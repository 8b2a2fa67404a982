// What is made of the number 3 for 2,000 ticks, by bytes and events that a program of another language made from the same rules.

use crate::{GUEST_SIZE, make};
use device_script::Event;

/// The bytes that make the first thread, of priority 148 and work 7, and make it periodic, with the period 289.
const FIRST_THREAD: [u8; 46] = [
    0xB8, 0x02, 0x00, 0x00, 0x00, 0xBB, 0x71, 0x11, 0x10, 0x00, 0xB9, 0x94, 0x00, 0x00, 0x00, 0xBA,
    0x00, 0x10, 0x12, 0x00, 0xBE, 0x07, 0x00, 0x00, 0x00, 0xCD, 0xF8, 0x89, 0xC3, 0xB8, 0x06, 0x00,
    0x00, 0x00, 0xB9, 0xE8, 0x03, 0x00, 0x00, 0xBA, 0x21, 0x01, 0x00, 0x00, 0xCD, 0xF8,
];

#[test]
fn makes_a_system(rt: HostRuntime) {
    match make(rt.alloc(), 3, 2_000) {
        Ok(made) => {
            assert_eq!(rt; made.guest.entry, 0x1000);
            assert_eq!(rt; made.guest.segments.len(), 3);
            assert_eq!(rt; made.module.entry, GUEST_SIZE + 0x1000);
            for segment in made.module.segments.as_slice() {
                assert_eq!(rt; segment.size, 385);
                assert!(rt; segment.bytes.as_slice().starts_with(&FIRST_THREAD));
            }
            let events = [(1_819, Event::Com1(216)), (2_687, Event::Com1(28))];
            assert_eq!(rt; made.script.events.as_slice(), events.as_slice());
        }
        Err(refusal) => assert!(rt; false, "{refusal:?}"),
    }
}
