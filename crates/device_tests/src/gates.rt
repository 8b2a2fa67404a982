// Calls of the executive by the guest, INT F6h, and replies, by the table of its functions.

use cpu_state::{Access, Registers};
use flat_memory::Side;
use soft_flags::SoftFlags;
use soft_gates::{Call, GateUnit, GetCall, gate, reply};
use std::test::Fail;

const EINVAL: u32 = 0xffff_ffea;

// A guest of 16 bytes, 0 to 15, calls a function with EBX 6, ECX and EDX as given, and goes on at address 2.
fn called(function: u32, ebx: u32, ecx: u32, edx: u32) -> (GateUnit, Registers) {
    let mut bytes = [0, 1, 2, 3, 4, 5, 6, 7, 8, 9, 10, 11, 12, 13, 14, 15];
    let mut regs = Registers::new(0, 16);
    regs.general[0] = function;
    regs.general[1] = ecx;
    regs.general[2] = edx;
    regs.general[3] = ebx;
    let mut flags = SoftFlags::new();
    flags.sti();
    let mut side = Side::new(0, &mut bytes);
    let unit = gate(0xf6, 2, 9, &mut regs, &mut flags, &mut side);
    (unit, regs)
}

// What a gate comes to, in a few numbers: its kind, and what it says.
fn shown(unit: GateUnit) -> (u32, u32, u32, u32) {
    match unit {
        GateUnit::Finished => (0, 0, 0, 0),
        GateUnit::Halted => (1, 0, 0, 0),
        GateUnit::Timer(period) => (2, period, 0, 0),
        GateUnit::Calls(Call::Put(put)) => (
            3,
            put.fifo,
            u32::from(put.length),
            u32::from(put.bytes[0]) + u32::from(put.bytes[1]) * 0x100,
        ),
        GateUnit::Calls(Call::Get(get)) => (4, get.fifo, u32::from(get.count), get.place),
        GateUnit::Outside(Access::Load, at) => (5, at, 0, 0),
        GateUnit::Outside(Access::Store, at) => (6, at, 0, 0),
        GateUnit::Outside(Access::Fetch, at) => (7, at, 0, 0),
    }
}

#[test]
fn a_period_up_to_a_billion_ticks_is_taken(rt: HostRuntime) -> Result<(), Fail> {
    let (unit, regs) = called(3, 1_000_000_000, 0, 0);
    assert_eq!(rt; shown(unit), (2, 1_000_000_000, 0, 0));
    assert_eq!(rt; (regs.general[0], regs.eip), (0, 2));
    let (unit, regs) = called(3, 1_000_000_001, 0, 0);
    assert_eq!(rt; shown(unit), (0, 0, 0, 0));
    assert_eq!(rt; (regs.general[0], regs.eip), (EINVAL, 2));
    Ok(())
}

#[test]
fn a_put_holds_its_bytes_and_leaves_eax(rt: HostRuntime) -> Result<(), Fail> {
    let (unit, regs) = called(4, 6, 14, 2);
    assert_eq!(rt; shown(unit), (3, 6, 2, 0x0f0e));
    assert_eq!(rt; (regs.general[0], regs.eip), (4, 2));
    // The first byte outside is the seventeenth, or the first of a range that begins outside.
    let (unit, regs) = called(4, 6, 14, 3);
    assert_eq!(rt; shown(unit), (5, 16, 0, 0));
    assert_eq!(rt; (regs.general[0], regs.eip), (4, 0));
    let (unit, _) = called(4, 6, 20, 3);
    assert_eq!(rt; shown(unit), (5, 20, 0, 0));
    Ok(())
}

#[test]
fn a_get_has_its_range_and_a_count_of_none_has_no_access(rt: HostRuntime) -> Result<(), Fail> {
    let (unit, _) = called(5, 6, 8, 8);
    assert_eq!(rt; shown(unit), (4, 6, 8, 8));
    let (unit, _) = called(5, 6, 9, 8);
    assert_eq!(rt; shown(unit), (6, 16, 0, 0));
    let (unit, _) = called(5, 6, 0xffff_fff0, 0);
    assert_eq!(rt; shown(unit), (4, 6, 0, 0xffff_fff0));
    // A count above 256 is refused before any access.
    let (unit, regs) = called(5, 6, 0xffff_fff0, 257);
    assert_eq!(rt; shown(unit), (0, 0, 0, 0));
    assert_eq!(rt; regs.general[0], EINVAL);
    Ok(())
}

#[test]
fn a_function_that_is_not_defined_is_refused(rt: HostRuntime) -> Result<(), Fail> {
    for function in [0, 7, 0xffff_ffff] {
        let (unit, regs) = called(function, 6, 0, 0);
        assert_eq!(rt; shown(unit), (0, 0, 0, 0));
        assert_eq!(rt; (regs.general[0], regs.eip), (EINVAL, 2));
    }
    let (_, regs) = called(6, 0, 0, 0);
    assert_eq!(rt; regs.general[0], 9);
    Ok(())
}

#[test]
fn a_reply_leaves_its_result_and_the_bytes_of_a_get(rt: HostRuntime) -> Result<(), Fail> {
    let mut bytes = [0; 8];
    let mut regs = Registers::new(0, 8);
    let call = Call::Get(GetCall {
        fifo: 6,
        count: 4,
        place: 3,
    });
    let mut side = Side::new(0, &mut bytes);
    reply(&call, 2, &[0x61, 0x62], &mut regs, &mut side);
    assert_eq!(rt; regs.general[0], 2);
    assert_eq!(rt; &bytes[..], [0, 0, 0, 0x61, 0x62, 0, 0, 0].as_slice());
    Ok(())
}
