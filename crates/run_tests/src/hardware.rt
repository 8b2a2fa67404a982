// The lines of the hardware, and the guest's timer. The outputs were worked out from the rules of the controllers, the one-shot and the
// guest's unit, apart from this program.
use crate::calls::{NOTHING, answers, bytes_of, hex_of};
use crate::systems::{HALTS, PLAIN, WAITS, scripted_answers};
use std::alloc::Global;
use std::test::Fail;

/// A guest that sets its timer to 3 ticks, and then jumps to itself.
static TICKS: &str =
    "7f454c46010101000000000000000000020003000100000000000000340000000000000000000000340020000100000000000000010000005400000000000000000000000e0000000e0000000700000001000000b803000000bb03000000cdf6ebfe";

/// What 10 ticks of it write with the lines of the hardware.
static TICKED: &str =
    "R 1 on guest;H 3 set 5;H 6 edge 0;H 6 ack 0;H 6 set 5;H 9 edge 0;H 9 ack 0;H 9 set 5;R 10 end 0 0;R 10 memory 0bfc2037b0c50f23c9e203d7c3da708f80cc5096f34972316976735de0dcdbdd;G 10 end runs 0000000c 00000002 00000000 00000000 00000000 00000003 00010000 00000000 00000000 00000000;G 10 memory f23c376fabc1454245ed0245d4e5cb9be43e2cd669f7a548ea6ee19e58165ba2;";

/// What they write without these.
static TICKED_UNSHOWN: &str =
    "R 1 on guest;R 10 end 0 0;R 10 memory 0bfc2037b0c50f23c9e203d7c3da708f80cc5096f34972316976735de0dcdbdd;G 10 end runs 0000000c 00000002 00000000 00000000 00000000 00000003 00010000 00000000 00000000 00000000;G 10 memory f23c376fabc1454245ed0245d4e5cb9be43e2cd669f7a548ea6ee19e58165ba2;";

/// What 13 ticks of the guest that waits write with them.
static WAITED_SHOWN: &str =
    "R 1 on guest;H 3 edge 5;H 3 ack 5;H 4 edge 5;H 4 ack 5;G 10 enter 37;R 13 end 0 0;R 13 memory 0bfc2037b0c50f23c9e203d7c3da708f80cc5096f34972316976735de0dcdbdd;G 13 end runs 0000001e 00000206 00000000 00000028 00000001 00000000 00010000 00000000 00000000 00000000;G 13 memory 69d58f58f011e819b02f457ffada37b7cb23bcec2d4bb7df6464e70ef9b5b31d;";

/// What 13 ticks of the guest that halts write with them.
static HALTED_SHOWN: &str =
    "R 1 on guest;H 3 edge 5;H 3 ack 5;H 4 edge 5;H 4 ack 5;G 9 halt;G 10 enter 37;R 13 end 0 0;R 13 memory 0bfc2037b0c50f23c9e203d7c3da708f80cc5096f34972316976735de0dcdbdd;G 13 end runs 0000001f 00000206 00000000 00000027 00000001 00000000 00010000 00000000 00000000 00000000;G 13 memory f0136f7d1285072f6275bf31512cda47277818559f3cb9dc6695ea89b8518e7f;";

/// A guest whose timer has 3 ticks, and which sets its flag 7 ticks later and halts, with a handler that counts.
pub static COUNTS: &str =
    "7f454c46010101000000000000000000020003000100000000000000340000000000000000000000340020000300000000000000010000009400000000000000000000003300000033000000070000000100000001000000c700000040000000400000000300000003000000070000000100000001000000ca000000000200000002000008000000080000000700000001000000b801000000bb00010000b921000000cdf6b80200000031dbcdf6b803000000bb03000000cdf6414141414141cdf1cdf541ebfd42cdf240000800008e0000";

/// What 24 ticks of it write: three dues are one entry, and the next is another.
static COUNTED: &str =
    "R 1 on guest;H 10 set 5;H 13 edge 0;H 13 ack 0;H 13 set 5;H 16 edge 0;H 16 ack 0;H 16 set 5;G 18 halt;H 19 edge 0;H 19 ack 0;H 19 set 5;G 19 enter 32;H 22 edge 0;H 22 ack 0;H 22 set 5;G 22 enter 32;R 24 end 0 0;R 24 memory 0bfc2037b0c50f23c9e203d7c3da708f80cc5096f34972316976735de0dcdbdd;G 24 end runs 00000030 00000206 00000000 00000027 00000002 00000003 00010000 00000000 00000000 00000000;G 24 memory 833655b9fe96487d85ca934277d3f95e4081682ed5b54738995f4c9058e2795f;";

/// A guest that sets its timer to 3 ticks, and turns it off when it comes.
static TURNS_OFF: &str =
    "7f454c460101010000000000000000000200030001000000000000003400000000000000000000003400200001000000000000000100000054000000000000000000000017000000170000000700000001000000b803000000bb03000000cdf631dbb803000000cdf6ebfe";

/// What 12 ticks of it write: the one-shot that was set before still rises.
static TURNED_OFF: &str =
    "R 1 on guest;H 3 set 5;H 6 edge 0;H 6 ack 0;H 6 set 5;H 9 edge 0;H 9 ack 0;R 12 end 0 0;R 12 memory 0bfc2037b0c50f23c9e203d7c3da708f80cc5096f34972316976735de0dcdbdd;G 12 end runs 00000015 00000046 00000000 00000000 00000000 00000000 00010000 00000000 00000000 00000000;G 12 memory ede93c8c643e6651df5d6f14a7a27226266d53a3aecc81c80756f734070ce85a;";

/// A guest that sets its timer to a tick more than a one-shot reaches.
static FAR: &str =
    "7f454c46010101000000000000000000020003000100000000000000340000000000000000000000340020000100000000000000010000005400000000000000000000000e0000000e0000000700000001000000b803000000bb01800000cdf6ebfe";

/// What 32,775 ticks of it write.
static REACHED: &str =
    "R 1 on guest;H 3 set 65535;H 32771 edge 0;H 32771 ack 0;H 32771 set 1;H 32772 edge 0;H 32772 ack 0;H 32772 set 65535;R 32775 end 0 0;R 32775 memory 0bfc2037b0c50f23c9e203d7c3da708f80cc5096f34972316976735de0dcdbdd;G 32775 end runs 0000000c 00000002 00000000 00000000 00000000 00008001 00010000 00000000 00000000 00000000;G 32775 memory a77e3a5aed4c18246c9656e17878cf3304604110f7e258e4a8f7e3f4f9552d24;";

/// A guest that sets its timer to 1,000,000,001 ticks.
static TOO_FAR: &str =
    "7f454c46010101000000000000000000020003000100000000000000340000000000000000000000340020000100000000000000010000005400000000000000000000000e0000000e0000000700000001000000b803000000bb01ca9a3bcdf6ebfe";

/// What 5 ticks of it write: -22 in EAX, and no setting.
static REFUSED: &str =
    "R 1 on guest;R 5 end 0 0;R 5 memory 0bfc2037b0c50f23c9e203d7c3da708f80cc5096f34972316976735de0dcdbdd;G 5 end runs 0000000c 00000002 ffffffea 00000000 00000000 3b9aca01 00010000 00000000 00000000 00000000;G 5 memory f69792c0531433ce822910d0dda018c5ef5ecbcc1fbe30fa7492fc8e3b3ed7e6;";

/// A guest that lets the interrupt of its transmitter through.
static TRANSMITS: &str =
    "7f454c460101010000000000000000000200030001000000000000003400000000000000000000003400200001000000000000000100000054000000000000000000000010000000100000000700000001000000b00866bafc03eeb00266baf903eeebfe";

/// What 10 ticks of it write: the rise of an access is acknowledged in the next tick.
static TRANSMITTED: &str =
    "R 1 on guest;H 6 edge 4;H 7 ack 4;R 10 end 0 0;R 10 memory 0bfc2037b0c50f23c9e203d7c3da708f80cc5096f34972316976735de0dcdbdd;G 10 end runs 0000000e 00000002 00000002 00000000 000003f9 00000000 00010000 00000000 00000000 00000000;G 10 memory cbd4a4ef805dc48282772db7a5ba00a6817ab9b0b0a52aee9948e0215f7a00bd;";

// Do these words over s.toml without a script and this guest end well, with this output?
fn plain_answers(alloc: Global, words: &str, guest: &str, output: &str) -> Result<bool, Fail> {
    let system = bytes_of(alloc, PLAIN)?;
    let image = hex_of(alloc, guest)?;
    let files = [("s.toml", system.as_slice()), ("k.bin", image.as_slice())];
    answers(alloc, words, &files, "done", output)
}

#[test]
fn a_timer_sets_the_one_shot_for_each_due(rt: HostRuntime) -> Result<(), Fail> {
    assert!(rt;
        plain_answers(
            rt.alloc(),
            "run s.toml --ticks 10 --hardware",
            TICKS,
            TICKED
        )?
    );
    Ok(())
}

#[test]
fn the_hardware_is_shown_where_it_is_asked_for_alone(rt: HostRuntime) -> Result<(), Fail> {
    assert!(rt; plain_answers(rt.alloc(), "run s.toml --ticks 10", TICKS, TICKED_UNSHOWN)?);
    Ok(())
}

#[test]
fn a_line_of_the_script_is_acknowledged_in_its_tick(rt: HostRuntime) -> Result<(), Fail> {
    assert!(rt;
        scripted_answers(
            rt.alloc(),
            &NOTHING,
            "run s.toml --ticks 13 --hardware",
            WAITS,
            "done",
            WAITED_SHOWN
        )?
    );
    Ok(())
}

#[test]
fn a_halted_guest_leaves_the_hardware_as_it_is(rt: HostRuntime) -> Result<(), Fail> {
    assert!(rt;
        scripted_answers(
            rt.alloc(),
            &NOTHING,
            "run s.toml --ticks 13 --hardware",
            HALTS,
            "done",
            HALTED_SHOWN
        )?
    );
    Ok(())
}

#[test]
fn dues_with_the_flag_clear_are_one_entry(rt: HostRuntime) -> Result<(), Fail> {
    assert!(rt;
        plain_answers(
            rt.alloc(),
            "run s.toml --ticks 24 --hardware",
            COUNTS,
            COUNTED
        )?
    );
    Ok(())
}

#[test]
fn a_timer_that_is_off_sets_nothing(rt: HostRuntime) -> Result<(), Fail> {
    assert!(rt;
        plain_answers(
            rt.alloc(),
            "run s.toml --ticks 12 --hardware",
            TURNS_OFF,
            TURNED_OFF
        )?
    );
    Ok(())
}

#[test]
fn a_far_due_takes_two_one_shots(rt: HostRuntime) -> Result<(), Fail> {
    assert!(rt;
        plain_answers(
            rt.alloc(),
            "run s.toml --ticks 32775 --hardware",
            FAR,
            REACHED
        )?
    );
    Ok(())
}

#[test]
fn a_period_above_the_greatest_is_refused(rt: HostRuntime) -> Result<(), Fail> {
    assert!(rt;
        plain_answers(
            rt.alloc(),
            "run s.toml --ticks 5 --hardware",
            TOO_FAR,
            REFUSED
        )?
    );
    Ok(())
}

#[test]
fn a_rise_of_an_access_waits_for_the_next_drain(rt: HostRuntime) -> Result<(), Fail> {
    assert!(rt;
        plain_answers(
            rt.alloc(),
            "run s.toml --ticks 10 --hardware",
            TRANSMITS,
            TRANSMITTED
        )?
    );
    Ok(())
}
