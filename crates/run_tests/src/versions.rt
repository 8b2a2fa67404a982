// Both versions of the rule that picks among ready threads of equal priority. The output of each row was worked out from the rules
// of the schedule, apart from this program.
//
// A row has what it shows, the version, the ticks with their flag and the output.
use crate::calls::{answer_of, field, has_come, hex_of};
use crate::module_files::store_of;
use crate::systems::SMALL;
use std::alloc::Global;
use std::test::Fail;

/// An init that makes thread 0, due in tick 12, and then thread 1 in tick 15, of the same priority. It returns in 17, so thread 0 is
/// released in 18, behind thread 1, which is ready since 15. Each thread adds 1 to EAX and returns.
const MODULE: &str =
    "m.elf=11000=b802000000bb43100100b90a000000ba00300100cdf8b806000000bb00000000b90c000000bae8030000cdf8b802000000bb43100100b90a000000ba00400100cdf8c340c3";

/// Who of the two goes first.
static FIRST: &str = "\
the one that came first | 1 | 24 | R 1 on init 0;R 5 gate 2 00011043 0000000a 00013000 00000000 0;R 10 gate 6 00000000 0000000c 000003e8 00000000 0;R 15 gate 2 00011043 0000000a 00014000 00000000 1;R 17 ret;R 18 release 0;R 18 on thread 1;R 20 ret;R 21 on thread 0;R 23 ret;R 24 on guest;R 24 end 0 0;R 24 memory 229c033c03bb0d00eb77cddf96fdf1d6e85c2dfc6d500b8b34ebfbf253969c7c;G 24 end runs 00000000 00000002 00000000 00000000 00000000 00000000 00010000 00000000 00000000 00000000;G 24 memory cb1b331b69eb73f470e06f876e8c99acd9de6d2fd3aa60e0ee9bab65faa6fcf6;
the one that came first, with the lines of the hardware | 1 | 24 --hardware | R 1 on init 0;R 5 gate 2 00011043 0000000a 00013000 00000000 0;R 10 gate 6 00000000 0000000c 000003e8 00000000 0;H 10 set 3;H 12 edge 0;R 15 gate 2 00011043 0000000a 00014000 00000000 1;R 17 ret;R 18 release 0;R 18 on thread 1;H 18 ack 0;R 20 ret;R 21 on thread 0;R 23 ret;R 24 on guest;R 24 end 0 0;R 24 memory 229c033c03bb0d00eb77cddf96fdf1d6e85c2dfc6d500b8b34ebfbf253969c7c;G 24 end runs 00000000 00000002 00000000 00000000 00000000 00000000 00010000 00000000 00000000 00000000;G 24 memory cb1b331b69eb73f470e06f876e8c99acd9de6d2fd3aa60e0ee9bab65faa6fcf6;
the one that was due first | 2 | 24 | R 1 on init 0;R 5 gate 2 00011043 0000000a 00013000 00000000 0;R 10 gate 6 00000000 0000000c 000003e8 00000000 0;R 15 gate 2 00011043 0000000a 00014000 00000000 1;R 17 ret;R 18 release 0;R 18 on thread 0;R 20 ret;R 21 on thread 1;R 23 ret;R 24 on guest;R 24 end 0 0;R 24 memory 229c033c03bb0d00eb77cddf96fdf1d6e85c2dfc6d500b8b34ebfbf253969c7c;G 24 end runs 00000000 00000002 00000000 00000000 00000000 00000000 00010000 00000000 00000000 00000000;G 24 memory cb1b331b69eb73f470e06f876e8c99acd9de6d2fd3aa60e0ee9bab65faa6fcf6;
the one that was due first, with the lines of the hardware | 2 | 24 --hardware | R 1 on init 0;R 5 gate 2 00011043 0000000a 00013000 00000000 0;R 10 gate 6 00000000 0000000c 000003e8 00000000 0;H 10 set 3;H 12 edge 0;R 15 gate 2 00011043 0000000a 00014000 00000000 1;R 17 ret;R 18 release 0;R 18 on thread 0;H 18 ack 0;R 20 ret;R 21 on thread 1;R 23 ret;R 24 on guest;R 24 end 0 0;R 24 memory 229c033c03bb0d00eb77cddf96fdf1d6e85c2dfc6d500b8b34ebfbf253969c7c;G 24 end runs 00000000 00000002 00000000 00000000 00000000 00000000 00010000 00000000 00000000 00000000;G 24 memory cb1b331b69eb73f470e06f876e8c99acd9de6d2fd3aa60e0ee9bab65faa6fcf6;
";

// Does the program answer as a row says?
fn row_holds(alloc: Global, row: &str) -> Result<bool, Fail> {
    let guest = hex_of(alloc, SMALL)?;
    let store = store_of(alloc, field(row, 1)?, MODULE, guest.as_slice(), &[])?;
    let words = format!(in alloc; "run s.toml --ticks {}", field(row, 2)?)?;
    let answer = answer_of(alloc, words.as_str(), store, 4000, &[])?;
    has_come(alloc, &answer, "done", field(row, 3)?)
}

#[test]
fn equal_priorities_go_by_arrival_or_by_due(rt: HostRuntime) -> Result<(), Fail> {
    for row in FIRST.lines() {
        assert!(rt; row_holds(rt.alloc(), row)?, "{row}");
    }
    Ok(())
}
