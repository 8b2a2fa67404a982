// Many threads, and threads for long: runs whose real-time lines come from the arithmetic of their plan.
use crate::calls::{Answer, answer_of, hex_of};
use crate::module_files::store_with;
use crate::planned::{Planned, lines_of, module_of};
use crate::real_time_lines::real_time_lines;
use crate::systems::SMALL;
use rtlinux_top::Status;
use std::alloc::Global;
use std::test::Fail;

// The answer for so many ticks of a plan, beside a guest that jumps to itself.
fn answer_to(alloc: Global, plan: &[Planned], ticks: u32) -> Result<Answer, Fail> {
    let mut files = Vec::new(alloc);
    files.push((String::from_str(alloc, "m.elf")?, module_of(alloc, plan)?))?;
    let image = hex_of(alloc, SMALL)?;
    let store = store_with(alloc, "1", "\"m.elf\"", image.as_slice(), &[], files)?;
    let words = format!(in alloc; "run s.toml --ticks {ticks}")?;
    answer_of(alloc, words.as_str(), store, 1_000_000, &[])
}

// As many threads as there may be, two of each priority, all released within 64 ticks the first time.
fn crowd(alloc: Global) -> Result<Vec<Planned>, Fail> {
    let mut plan = Vec::new(alloc);
    for number in 0u32..64 {
        plan.push(Planned {
            priority: number.wrapping_mul(37) % 32,
            turns: 1u32.wrapping_add(number % 5),
            start: 800u32.wrapping_add(number.wrapping_mul(11) % 64),
            period: 1100u32.wrapping_add(number.wrapping_mul(29) % 400),
        })?;
    }
    Ok(plan)
}

/// The last of the real-time lines of 5000 ticks of them: the digest of the module, the stub, and a return address on each stack.
static CROWD_DIGEST: &str =
    "R 5000 memory 452f2c2c57d79237a13bec6a0aa3c0b5b7345d5f75bd7cb853be844154003653\n";

#[test]
fn sixty_four_threads_keep_to_their_plan(rt: HostRuntime) -> Result<(), Fail> {
    let alloc = rt.alloc();
    let plan = crowd(alloc)?;
    let answer = answer_to(alloc, plan.as_slice(), 5000)?;
    assert_eq!(rt; answer.status, Status::Done);
    let mut expected = lines_of(alloc, plan.as_slice(), 5000)?;
    expected.text.push_str(CROWD_DIGEST)?;
    let found = real_time_lines(alloc, answer.sink.written())?;
    assert!(rt; found.as_str() == expected.text.as_str(), "{found}");
    Ok(())
}

/// Five threads of which the one with the shortest period is the most urgent.
static FIVE: [Planned; 5] = [
    Planned {
        priority: 50,
        turns: 2,
        start: 100,
        period: 700,
    },
    Planned {
        priority: 40,
        turns: 9,
        start: 101,
        period: 1100,
    },
    Planned {
        priority: 30,
        turns: 30,
        start: 102,
        period: 1300,
    },
    Planned {
        priority: 20,
        turns: 80,
        start: 103,
        period: 1700,
    },
    Planned {
        priority: 10,
        turns: 200,
        start: 104,
        period: 2300,
    },
];

// How many lines end with these words.
fn count_of(lines: &str, words: &str) -> u32 {
    let mut count = 0u32;
    for line in lines.lines() {
        if line.ends_with(words) {
            count = count.wrapping_add(1);
        }
    }
    count
}

#[test]
fn five_threads_are_released_at_each_due_of_a_long_run(rt: HostRuntime) -> Result<(), Fail> {
    let alloc = rt.alloc();
    let answer = answer_to(alloc, &FIVE, 100_000)?;
    assert_eq!(rt; answer.status, Status::Done);
    let found = real_time_lines(alloc, answer.sink.written())?;
    for (number, thread) in FIVE.iter().enumerate() {
        let words = format!(in alloc; " release {number}")?;
        let dues = 100_000u32
            .wrapping_sub(thread.start)
            .checked_div(thread.period)
            .ok_or("no period")?
            .wrapping_add(1);
        assert_eq!(rt; count_of(found.as_str(), words.as_str()), dues, "{number}");
    }
    Ok(())
}
