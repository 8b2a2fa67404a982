// The guest's calls beside modules: calls on FIFOs, with their replies and the handlers that they start, and its timer. The rows are those of
// tests/guest_call_rows.py, whose ticks were counted by hand.
//
// A row has what it shows, the modules, the guest's image, the ticks with their flag, the status and the output.
use crate::calls::{answer_of, bytes_of, field, has_come, hex_of};
use crate::module_files::store_of;
use rtlinux_top::{Device, Status};
use std::alloc::Global;
use std::test::Fail;

static CALLS: &str = "\
a FIFO that is filled, full and emptied | m.elf=11000=b80b000000bb01000000b904000000cdf8b810000000b91e100100cdf8c3c3 | 7f454c46010101000000000000000000020003000100000000000000340000000000000000000000340020000200000000000000010000007400000000000000000000002e0000002e000000070000000100000001000000a2000000000200000002000004000000040000000700000001000000b804000000bb01000000b900020000ba04000000cdf6b804000000ba01000000cdf6b805000000ba08000000cdf661626364 | 24 | done | R 1 on init 0;R 4 gate 11 00000001 00000004 00000000 00000000 0;R 7 gate 16 00000001 0001101e 00000000 00000000 0;R 9 ret;R 10 on guest;R 14 reply 4 -;G 14 put 1 61626364;R 15 on fifo 1;R 16 ret;R 17 on guest;R 19 reply -28 -;G 19 put 1 61;R 22 reply 4 61626364;G 22 get 1 8;R 23 on fifo 1;R 24 ret;R 24 end 0 0;R 24 memory 6d4406ebf0f7f46bac869678e28dd64402430f5012fbb5d0634ceaa471346689;G 24 end runs 0000002e 00000002 00000004 00000200 00000008 00000001 00010000 00000000 00000000 00000000;G 24 memory 6c2eda06a8a58737904e6c6a40175ee736f40904de8a2ffed9fc8ce4e7756e47;\n\
calls that find nothing, are refused, move nothing, get what is there, and pass the side's end | m.elf=11000=b80b000000bb01000000b904000000cdf8b80d000000b937100100ba03000000cdf8b810000000b93a100100cdf8c30000000000000000616263c3 | 7f454c46010101000000000000000000020003000100000000000000340000000000000000000000340020000200000000000000010000007400000000000000000000005c0000005c000000070000000100000001000000d0000000000200000002000002000000020000000700000001000000b804000000bb05000000b900020000ba02000000cdf6b805000000cdf6b804000000ba01010000cdf6b804000000bb01000000ba00000000cdf6b805000000b908020000ba08000000cdf6b804000000b9ffff0000ba02000000cdf67879 | 38 | breach | R 1 on init 0;R 4 gate 11 00000001 00000004 00000000 00000000 0;R 8 gate 13 00000001 00011037 00000003 00000000 3;R 11 gate 16 00000001 0001103a 00000003 00000000 0;R 13 ret;R 14 on guest;R 18 reply -19 -;G 18 put 5 7879;R 20 reply -19 -;G 20 get 5 2;R 27 reply 0 -;G 27 put 1 -;R 31 reply 3 616263;G 31 get 1 8;R 32 on fifo 1;R 33 ret;R 34 on guest;G 37 breach load 00010000;R 38 end 0 0;R 38 memory 37c23d139c0b4736319219a761c770030a8374cdb8de65f36dcef68f9e2f23dc;G 38 end stopped 0000005a 00000002 00000004 0000ffff 00000002 00000001 00010000 00000000 00000000 00000000;G 38 memory 36b56458a02ecf10169beb6a87b146748a754579f87b7fa355f72a1d0fb8320c;\n\
a get past the side's end |  | 7f454c460101010000000000000000000200030001000000000000003400000000000000000000003400200001000000000000000100000054000000000000000000000016000000160000000700000001000000b805000000bb01000000b9fdff0000ba04000000cdf6 | 6 | breach | R 1 on guest;G 5 breach store 00010000;R 6 end 0 0;R 6 memory 0bfc2037b0c50f23c9e203d7c3da708f80cc5096f34972316976735de0dcdbdd;G 6 end stopped 00000014 00000002 00000005 0000fffd 00000004 00000001 00010000 00000000 00000000 00000000;G 6 memory 1bfc3e99dc46ac1215adaadc037263347e74fb8ff5341233fa52a0294c89d8a7;\n\
a timer of the guest beside the due of a thread | m.elf=11000=b802000000bb2f100100b90a000000ba00300100be07000000cdf8b80600000031dbb914000000ba01800000cdf8c3cdf8ebfe | 7f454c46010101000000000000000000020003000100000000000000340000000000000000000000340020000100000000000000010000005400000000000000000000000e0000000e0000000700000001000000b803000000bb03000000cdf6ebfe | 24 --hardware | done | R 1 on init 0;R 6 gate 2 0001102f 0000000a 00013000 00000007 0;R 11 gate 6 00000000 00000014 00008001 00000007 0;H 11 set 17;R 13 ret;R 14 on guest;H 16 set 5;H 19 edge 0;H 19 ack 0;H 19 set 1;R 20 release 0;R 20 on thread 0;R 20 gate 7 00000000 00000000 00000000 00000000 0;H 20 edge 0;H 20 ack 0;H 20 set 3;R 21 on guest;H 22 edge 0;H 22 ack 0;H 22 set 5;R 24 end 1 0;R 24 memory 9bf181f2d6a84483ed5e4183b0b6a35c253bca447a67cf350775011079db8179;G 24 end runs 0000000c 00000002 00000000 00000000 00000000 00000003 00010000 00000000 00000000 00000000;G 24 memory f23c376fabc1454245ed0245d4e5cb9be43e2cd669f7a548ea6ee19e58165ba2;\n\
";

// Does the program answer as a row says?
fn row_holds(alloc: Global, row: &str) -> Result<bool, Fail> {
    let guest = hex_of(alloc, field(row, 2)?)?;
    let store = store_of(alloc, "1", field(row, 1)?, guest.as_slice(), &[])?;
    let words = format!(in alloc; "run s.toml --ticks {}", field(row, 3)?)?;
    let answer = answer_of(alloc, words.as_str(), store, 4000, &[])?;
    has_come(alloc, &answer, field(row, 4)?, field(row, 5)?)
}

#[test]
fn calls_of_the_guest_are_answered_in_their_tick(rt: HostRuntime) -> Result<(), Fail> {
    for row in CALLS.lines() {
        assert!(rt; row_holds(rt.alloc(), row)?, "{row}");
    }
    Ok(())
}

// The put that fails, counted from 1, where so many of its bytes are taken: is all before it written, and that much of it, and is the answer
// the put's fault?
fn ends_at(alloc: Global, row: &str, put: u32, taken: usize, before: usize) -> Result<bool, Fail> {
    let guest = hex_of(alloc, field(row, 2)?)?;
    let store = store_of(alloc, "1", field(row, 1)?, guest.as_slice(), &[])?;
    let words = format!(in alloc; "run s.toml --ticks {}", field(row, 3)?)?;
    let answer = answer_of(
        alloc,
        words.as_str(),
        store,
        4000,
        &[(put, taken.try_into().unwrap_or(0))],
    )?;
    let output = bytes_of(alloc, field(row, 5)?)?;
    let wanted = output
        .as_slice()
        .get(..before.saturating_add(taken))
        .ok_or("no such part")?;
    Ok(
        answer.status == Status::Outside(Device::Write)
            && answer.sink.written() == wanted
            && !answer.kept,
    )
}

#[test]
fn a_run_ends_at_each_put_that_fails(rt: HostRuntime) -> Result<(), Fail> {
    let alloc = rt.alloc();
    let row = CALLS.lines().next().ok_or("no row")?;
    let mut before: usize = 0;
    let mut put = 0u32;
    for line in field(row, 5)?.split(';') {
        if line.is_empty() {
            continue;
        }
        put = put.saturating_add(1);
        for taken in [0, 1, 5] {
            assert!(rt; ends_at(alloc, row, put, taken, before)?, "{put} {taken}");
        }
        before = before.saturating_add(line.len()).saturating_add(1);
    }
    assert_eq!(rt; put, 20);
    Ok(())
}
