// Flat images. Their outputs were worked out from the definitions of the machine and the Intel 80386 manual, apart from this program.
use crate::calls::{answers, field, hex_of};
use std::alloc::Global;
use std::test::Fail;

/// What the image is, the ticks of `flat`, the image, the status and the output.
static ROWS: &str = "\
two INCs and a jump back to them | 5 | 4040ebfc | done | G 5 end runs 00000002 00000002 00000004 00000000 00000000 00000000 00010000 00000000 00000000 00000000;
one tick | 1 | 4040ebfc | done | G 1 end runs 00000001 00000002 00000001 00000000 00000000 00000000 00010000 00000000 00000000 00000000;
a store over the end | 5 | a3fcff0000a3fdff0000 | breach | G 2 breach store 0000fffd;G 5 end stopped 00000005 00000002 00000000 00000000 00000000 00000000 00010000 00000000 00000000 00000000;
PUSHA under address 0 | 3 | bc1000000060 | breach | G 2 breach store fffffffc;G 3 end stopped 00000005 00000002 00000000 00000000 00000000 00000000 00000010 00000000 00000000 00000000;
CLI | 2 | fa | breach | G 1 breach cli;G 2 end stopped 00000000 00000002 00000000 00000000 00000000 00000000 00010000 00000000 00000000 00000000;
PUSHF behind the gate that pushes the flags | 4 | cdf3589c | breach | G 3 breach pushf;G 4 end stopped 00000003 00000002 00000002 00000000 00000000 00000000 00010000 00000000 00000000 00000000;
flags that a gate pushes, with the soft flag set | 3 | cdf1cdf358 | done | G 3 end runs 00000005 00000202 00000202 00000000 00000000 00000000 00010000 00000000 00000000 00000000;
DIV by zero without a table | 2 | f7f0 | done | G 1 shutdown 0;G 2 end stopped 00000000 00000002 00000000 00000000 00000000 00000000 00010000 00000000 00000000 00000000;
DIV by zero into a gate of the table | 6 | b801000000bb20000000b901000000cdf6f7f20000000000000000000000000030000800008e0000000000000000000058 | done | G 5 int 0;G 6 end runs 00000031 00000002 00000011 00000001 00000000 00000020 0000fff8 00000000 00000000 00000000;
REP MOVS, an element a tick | 3 | b103f3a440 | done | G 3 end runs 00000002 00000002 00000000 00000001 00000000 00000000 00010000 00000000 00000002 00000002;
REP MOVS of no element | 2 | f3a440 | done | G 2 end runs 00000003 00000002 00000001 00000000 00000000 00000000 00010000 00000000 00000000 00000000;
ADD that overflows | 2 | b07f0401 | done | G 2 end runs 00000004 00000892 00000080 00000000 00000000 00000000 00010000 00000000 00000000 00000000;
SHL that carries | 2 | b081d0e0 | done | G 2 end runs 00000004 00000803 00000002 00000000 00000000 00000000 00010000 00000000 00000000 00000000;
an empty image | 1 | - | done | G 1 end runs 00000002 00000046 00000000 00000000 00000000 00000000 00010000 00000000 00000000 00000000;
a jump to the last byte | 2 | e9faff0000 | breach | G 2 breach fetch 00010000;G 2 end stopped 0000ffff 00000002 00000000 00000000 00000000 00000000 00010000 00000000 00000000 00000000;
INT of the vector behind the gates | 1 | cdf7 | breach | G 1 breach int 247;G 1 end stopped 00000000 00000002 00000000 00000000 00000000 00000000 00010000 00000000 00000000 00000000;
UD2 | 1 | 0f0b | done | G 1 shutdown 6;G 1 end stopped 00000000 00000002 00000000 00000000 00000000 00000000 00010000 00000000 00000000 00000000;
a byte over COM1 | 36 | b04166baf803eeebfe | done | G 36 com1 41;G 36 end runs 00000007 00000002 00000041 00000000 000003f8 00000000 00010000 00000000 00000000 00000000;
the gate that sets the soft flag | 2 | cdf140 | done | G 2 end runs 00000003 00000202 00000001 00000000 00000000 00000000 00010000 00000000 00000000 00000000;
a port of COM2 | 2 | 66baf802ec | breach | G 2 breach port 02f8;G 2 end stopped 00000004 00000002 00000000 00000000 000002f8 00000000 00010000 00000000 00000000 00000000;
a port that nobody owns | 2 | 66baffffed | done | G 2 end runs 00000005 00000002 ffffffff 00000000 0000ffff 00000000 00010000 00000000 00000000 00000000;
200,001 ticks | 200001 | 4040ebfc | done | G 200001 end runs 00000000 00000002 000208d6 00000000 00000000 00000000 00010000 00000000 00000000 00000000;
a push of a gate over the end | 3 | bc02000100cdf3 | breach | G 2 breach store 0000fffe;G 3 end stopped 00000005 00000002 00000000 00000000 00000000 00000000 00010002 00000000 00000000 00000000;
";

// Are these the status and the output of `flat` for an image?
fn flat_answers(
    alloc: Global,
    ticks: &str,
    image: &[u8],
    status: &str,
    output: &str,
) -> Result<bool, Fail> {
    let words = format!(in alloc; "flat k.bin {ticks}")?;
    answers(alloc, words.as_str(), &[("k.bin", image)], status, output)
}

fn row_holds(alloc: Global, row: &str) -> Result<bool, Fail> {
    let image = hex_of(alloc, field(row, 2)?)?;
    flat_answers(
        alloc,
        field(row, 1)?,
        image.as_slice(),
        field(row, 3)?,
        field(row, 4)?,
    )
}

#[test]
fn flat_images_run_to_their_end_line(rt: HostRuntime) -> Result<(), Fail> {
    for row in ROWS.lines() {
        assert!(rt; row_holds(rt.alloc(), row)?, "{row}");
    }
    Ok(())
}

#[test]
fn the_edge_of_the_guest_is_a_breach(rt: HostRuntime) -> Result<(), Fail> {
    let alloc = rt.alloc();
    // A jump to the last byte, which begins an instruction.
    let mut image = [0xe9, 0xfa, 0xff].to_vec(alloc)?;
    image.extend_from_slice(vec![in alloc; 0u8; 65_532]?.as_slice())?;
    image.push(0xb8)?;
    assert!(rt;
        flat_answers(
            alloc,
            "2",
            image.as_slice(),
            "breach",
            "G 2 breach fetch 00010000;G 2 end stopped 0000ffff 00000002 00000000 00000000 00000000 00000000 00010000 00000000 00000000 00000000;"
        )?
    );
    // A jump back over address 0.
    assert!(rt;
        flat_answers(
            alloc,
            "2",
            &[0xeb, 0x80],
            "breach",
            "G 2 breach fetch ffffff82;G 2 end stopped ffffff82 00000002 00000000 00000000 00000000 00000000 00010000 00000000 00000000 00000000;"
        )?
    );
    // The last byte begins a jump, of which the displacement is outside. INC of FFFEh leaves an even number of ones.
    let mut edge = vec![in alloc; 0x40u8; 65_535]?;
    edge.push(0xeb)?;
    assert!(rt;
        flat_answers(
            alloc,
            "65537",
            edge.as_slice(),
            "breach",
            "G 65536 breach fetch 00010000;G 65537 end stopped 0000ffff 00000006 0000ffff 00000000 00000000 00000000 00010000 00000000 00000000 00000000;"
        )?
    );
    Ok(())
}

#[test]
fn flat_files_are_refused(rt: HostRuntime) -> Result<(), Fail> {
    let alloc = rt.alloc();
    // No file, a byte more than the guest's side, a byte more than a file may have, and just as many.
    assert!(rt; answers(alloc, "flat k.bin 5", &[], "read", "E read k.bin;")?);
    let sizes = [
        (65_537, "21", "E 21 k.bin;"),
        (33_554_433, "12", "E 12 k.bin;"),
        (33_554_432, "21", "E 21 k.bin;"),
    ];
    for (size, status, output) in sizes {
        let image = vec![in alloc; 0u8; size]?;
        assert!(rt;
            flat_answers(alloc, "5", image.as_slice(), status, output)?,
            "{size}"
        );
    }
    Ok(())
}
