// The words. Their answers were worked out from the rules of the commands, apart from this program.
use crate::calls::{NOTHING, field};
use crate::systems::{HALTED, HALTS, WAITED, WAITS, scripted_answers};
use std::alloc::Global;
use std::test::Fail;

/// Words that are no command.
static USAGE: &str = "\
-
fly
flat k.bin
flat k.bin five
run s.toml
flat k.bin 5 6
flat '' 5
flat k.bin ''
flat k.bin 000000000000000000005
flat k.bin +5
run s.toml --ticks
run --ticks 5
run s.toml --ticks 5 --ticks 5
run s.toml --tick 5
run s.toml t.toml --ticks 5
run s.toml --ticks -5
run s.toml --ticks x
run s.toml --ticks 5 --help
run --help
run -h
run --version
run -V
run ''
run s.toml --ticks 5 --hardware --hardware
run s.toml --ticks 5 --hardware=1
run -s.toml --ticks 5
make 1 --ticks 1 --hardware
make 1
RUN s.toml --ticks 5
help
--help
bare
bare k.bin
bare k.bin 5 d.txt x
bare k.bin 5 ''
check s.toml --ticks 5
check s.toml o.txt
check s.toml o.txt x --ticks 5
bare k.bin 5
check s.toml o.txt --ticks 13
";

/// Commands of which the ticks are refused, with the line that is written.
static TICKS: &str = "\
flat k.bin 0 | E 40 0;
flat k.bin 1000000001 | E 40 1000000001;
flat k.bin 99999999999999999999 | E 40 99999999999999999999;
run s.toml --ticks=000 | E 40 000;
";

/// Words that all ask for 13 ticks of s.toml.
static RUNS: &str = "\
run s.toml --ticks 13
run s.toml --ticks 13
run --ticks 13 s.toml
run s.toml --ticks=13
run --ticks 13 -- s.toml
run s.toml --ticks 00000000000000000013
";

// Are these the answers to words over a guest that waits?
fn waiting_answers(alloc: Global, words: &str, status: &str, output: &str) -> Result<bool, Fail> {
    scripted_answers(alloc, &NOTHING, words, WAITS, status, output)
}

#[test]
fn words_are_a_command_or_usage(rt: HostRuntime) -> Result<(), Fail> {
    let alloc = rt.alloc();
    for row in USAGE.lines() {
        assert!(rt; waiting_answers(alloc, row, "usage", "E usage;")?, "{row}");
    }
    for row in TICKS.lines() {
        assert!(rt;
            waiting_answers(alloc, field(row, 0)?, "40", field(row, 1)?)?,
            "{row}"
        );
    }
    for row in RUNS.lines() {
        assert!(rt; waiting_answers(alloc, row, "done", WAITED)?, "{row}");
    }
    Ok(())
}

#[test]
fn a_halted_guest_is_woken_by_the_script(rt: HostRuntime) -> Result<(), Fail> {
    assert!(rt;
        scripted_answers(
            rt.alloc(),
            &NOTHING,
            "run s.toml --ticks 13",
            HALTS,
            "done",
            HALTED
        )?
    );
    Ok(())
}
