// Fetches and puts that fail: a put fails after four of its bytes.
use crate::calls::{Failing, answers_failing};
use crate::systems::{WAITS, scripted_answers};
use rtlinux_top::{Device, Status};
use std::test::Fail;

#[test]
fn a_failing_put_ends_the_run(rt: HostRuntime) -> Result<(), Fail> {
    let alloc = rt.alloc();
    assert!(rt;
        answers_failing(
            alloc,
            &Failing {
                fetches: &[],
                puts: &[(2, 4)],
            },
            "flat k.bin 3",
            &[("k.bin", &[0x0f, 0x0b])],
            "write",
            "G 1 shutdown 6;G 3 "
        )?
    );
    assert!(rt;
        scripted_answers(
            alloc,
            &Failing {
                fetches: &[],
                puts: &[(3, 4)],
            },
            "run s.toml --ticks 13",
            WAITS,
            "write",
            "R 1 on guest;G 10 enter 37;R 13"
        )?
    );
    Ok(())
}

#[test]
fn a_failing_fetch_is_told(rt: HostRuntime) -> Result<(), Fail> {
    let alloc = rt.alloc();
    assert!(rt;
        answers_failing(
            alloc,
            &Failing {
                fetches: &[1],
                puts: &[],
            },
            "flat k.bin 3",
            &[("k.bin", &[0x40, 0x40, 0xeb, 0xfc])],
            "read",
            "E read k.bin;"
        )?
    );
    let fetches = [
        (1, "E read s.toml;"),
        (2, "E read k.bin;"),
        (3, "E read d.txt;"),
    ];
    for (fetch, output) in fetches {
        let failing = Failing {
            fetches: &[fetch],
            puts: &[],
        };
        assert!(rt;
            scripted_answers(
                alloc,
                &failing,
                "run s.toml --ticks 13",
                WAITS,
                "read",
                output
            )?,
            "{output}"
        );
    }
    assert_eq!(rt; Status::Outside(Device::Read).number(), 2);
    Ok(())
}
