// Entries through a table of one descriptor, by the layout of gates in the Intel 80386 manual.

use cpu_state::Registers;
use flat_memory::Side;
use soft_entry::{Entry, enter};
use soft_flags::SoftFlags;
use std::test::Fail;

const TABLE: u32 = 0x20;

// A side of 64 bytes with a table at 20h, whose first entry has the offset 00040030h and this attribute byte, and
// the guest's registers and flags over it.
fn entered(attribute: u8, esp: u32, flag: bool) -> (Entry, Registers, bool, [u8; 64]) {
    let mut bytes = [0u8; 64];
    bytes[0x20] = 0x30;
    bytes[0x22] = 0x08;
    bytes[0x25] = attribute;
    bytes[0x26] = 0x04;
    let mut regs = Registers::new(0x11, esp);
    let mut flags = SoftFlags {
        flag,
        shadow: false,
        mask: 0,
        idt: TABLE,
        entries: 1,
    };
    let mut side = Side::new(0, &mut bytes);
    let entry = enter(0, 0x77, &mut regs, &mut flags, &mut side);
    (entry, regs, flags.flag, bytes)
}

#[test]
fn an_interrupt_gate_pushes_a_frame_and_clears_the_flag(rt: HostRuntime) -> Result<(), Fail> {
    let (entry, regs, flag, bytes) = entered(0x8e, 0x10, true);
    assert_eq!(rt; entry, Entry::Entered);
    assert_eq!(rt; regs.eip, 0x0004_0030);
    assert_eq!(rt; regs.general[4], 4);
    assert!(rt; !flag);
    // EIP, the code segment, and EFLAGS with bit 9.
    assert_eq!(rt;
        &bytes[4..16],
        [0x77, 0, 0, 0, 8, 0, 0, 0, 2, 2, 0, 0].as_slice()
    );
    Ok(())
}

#[test]
fn a_trap_gate_leaves_the_flag_and_others_shut_down(rt: HostRuntime) -> Result<(), Fail> {
    let (entry, _, flag, _) = entered(0x8f, 0x10, true);
    assert_eq!(rt; entry, Entry::Entered);
    assert!(rt; flag);
    for attribute in [0x0e, 0x9e, 0x85] {
        let (refused, regs, _, _) = entered(attribute, 0x10, true);
        assert_eq!(rt; refused, Entry::Shutdown);
        assert_eq!(rt; regs, Registers::new(0x11, 0x10));
    }
    let (outside, regs, flag, _) = entered(0x8e, 8, true);
    assert_eq!(rt; outside, Entry::Outside(0xffff_fffc));
    assert_eq!(rt; regs, Registers::new(0x11, 8));
    assert!(rt; flag);
    Ok(())
}
