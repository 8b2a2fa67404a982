// Systems that are made of a number. The digests were computed from the defined contents of both sides by a program apart from this one.
use crate::calls::{Failing, NOTHING, answers_failing, field};
use std::test::Fail;

/// Words, the status, and what is written.
static ROWS: &str = "\
make 3 --ticks 90 | done | M 3 90;M lines 20 2;M digest 08115da45b0c2da087183612d3a8b606f45f902fbadf7e5324aa346d6f008082;
make 0003 --ticks=0090 | done | M 3 90;M lines 20 2;M digest 08115da45b0c2da087183612d3a8b606f45f902fbadf7e5324aa346d6f008082;
make --ticks 1 1 | done | M 1 1;M lines 3 2;M digest a9471b45c272a311f7c005181c57f11c1242b1494682339aa3b741fd1a6556ce;
make 4294967296 --ticks 1 | usage | E usage;
make 1 --ticks x | usage | E usage;
make 1 --ticks 0 | 40 | E 40 0;
make 4294967295 --ticks 1000000001 | 40 | E 40 1000000001;
";

/// A put that fails, the bytes that it takes, and what is written before it and of it.
static PUTS: &str = "\
1 | 0 | -
1 | 5 | M 1 1
2 | 4 | M 1 1;M li
3 | 9 | M 1 1;M lines 3 2;M digest 
";

#[test]
fn a_system_is_made_of_a_number(rt: HostRuntime) -> Result<(), Fail> {
    for row in ROWS.lines() {
        assert!(rt;
            answers_failing(
                rt.alloc(),
                &NOTHING,
                field(row, 0)?,
                &[],
                field(row, 1)?,
                field(row, 2)?
            )?,
            "{row}"
        );
    }
    Ok(())
}

#[test]
fn a_failing_put_ends_the_three_lines(rt: HostRuntime) -> Result<(), Fail> {
    for row in PUTS.lines() {
        let put = field(row, 0)?.parse::<u32>().ok().ok_or("no put")?;
        let taken = field(row, 1)?.parse::<u32>().ok().ok_or("no bytes")?;
        let failing = Failing {
            fetches: &[],
            puts: &[(put, taken)],
        };
        assert!(rt;
            answers_failing(
                rt.alloc(),
                &failing,
                "make 1 --ticks 1",
                &[],
                "write",
                field(row, 2)?
            )?,
            "{row}"
        );
    }
    Ok(())
}
