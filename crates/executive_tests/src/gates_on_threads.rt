// The values are worked out by hand from the table of gates in docs/SCHEDULE.md. A side of 64 bytes begins at 1000h, where the stub is.

use executive::Executive;
use flat_memory::Side;
use gate_table::Request;
use std::test::Fail;
use thread_gates::{create, make_periodic};

fn request(ebx: u32, ecx: u32, edx: u32) -> Request {
    Request {
        function: 0,
        ebx,
        ecx,
        edx,
        esi: 0,
    }
}

#[test]
fn a_thread_by_its_gates(rt: HostRuntime) -> Result<(), Fail> {
    let Ok(mut all) = Executive::new(rt.alloc(), 1) else {
        return Err(Fail::new("no memory"));
    };
    let mut bytes = [0; 64];
    let mut side = Side::new(0x1000, &mut bytes);
    assert_eq!(rt;
        create(1, request(0x1010, 7, 0x1040), &mut all, &mut side),
        0
    );
    assert_eq!(rt; side.load32(0x103c), Some(0x1000));
    assert_eq!(rt; make_periodic(request(0, 100, 10), &mut all), 0);
    assert_eq!(rt; all.timeline.nearest(), Some(100));
    Ok(())
}
