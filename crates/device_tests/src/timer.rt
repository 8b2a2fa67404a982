// Scripts of calls of the 8254. The values are worked out by hand from the data sheet: "Programming the 8254", "Counter Latch
// Command" and "Mode Definitions".
ghost use Rattle.std.specs.Prelude.{◌<◌};

use pit_8254::{CONTROL_WORD, COUNTER_0, Pit};

// Does one thing of a script on a counter, and says whether the timer answered as the script says: C a control word, B a byte
// of a count, R a read that gives this byte, L and H so many pulses, after each of which OUT is low or high.
fn answers(pit: &mut Pit, counter: u8, what: u8, number: u32) -> bool
    requires { counter < 3 }
{
    let port = COUNTER_0 + counter as u16;
    let byte = (number % 0x100) as u8;
    match what {
        b'C' => {
            pit.write(CONTROL_WORD, byte);
            true
        }
        b'B' => {
            pit.write(port, byte);
            true
        }
        b'R' => pit.read(port) == byte,
        _ => stays(pit, counter, what == b'H', number),
    }
}

fn stays(pit: &mut Pit, counter: u8, level: bool, pulses: u32) -> bool
    requires { counter < 3 }
{
    for _ in 0..pulses {
        let [first, second, third] = pit.pulse();
        let out = match counter {
            0 => first,
            1 => second,
            _ => third,
        };
        if out != level {
            return false;
        }
    }
    true
}

// Does a whole script, whose things are apart by a space and end with one. Numbers are hex.
fn follows(script: &str, counter: u8) -> bool
    requires { counter < 3 }
{
    let mut pit = Pit::new();
    let mut what = 0;
    let mut number: u32 = 0;
    for byte in script.bytes() {
        match byte {
            b' ' => {
                if !answers(&mut pit, counter, what, number) {
                    return false;
                }
                number = 0;
            }
            b'0'..=b'9' => number = number % 0x1000 * 0x10 + (byte - b'0') as u32,
            b'a'..=b'f' => number = number % 0x1000 * 0x10 + (byte - b'a') as u32 + 10,
            _ => what = byte,
        }
    }
    true
}

// Each script with the rule that it shows.
static OF_COUNTER_0: [(&str, &str); 7] = [
    (
        "C30 B3 B0 L3 H5 ",
        "mode 0 with N rises after N + 1 pulses, and stays",
    ),
    (
        "C30 B5 B0 L1 C0 L2 R5 R0 R3 R0 ",
        "a latched count stands until it is read",
    ),
    (
        "C34 B3 B0 H2 L1 H2 L1 ",
        "mode 2 with N is low one pulse in N",
    ),
    ("C34 B0 B0 Hffff L1 H1 ", "a count of 0 is 65,536"),
    (
        "C14 B4 H1 B2 H2 L1 H1 L1 ",
        "mode 2 takes a new count at the end of its cycle",
    ),
    ("C36 B4 B0 H2 L2 H2 L2 ", "mode 3 with an even count"),
    (
        "C36 B5 B0 H3 L2 H3 L2 ",
        "mode 3 with an odd one is high for the larger half",
    ),
];

#[test]
fn counters_follow_the_data_sheet(rt: HostRuntime) {
    for (script, rule) in &OF_COUNTER_0 {
        assert!(rt; follows(script, 0), "{rule}: {script}");
    }
    assert!(rt; follows("Cb6 B4 B0 H2 L2 ", 2), "SC 2 is counter 2");
}

#[test]
fn the_control_word_reads_all_ones(rt: HostRuntime) {
    let mut pit = Pit::new();
    pit.write(CONTROL_WORD, 0x30);
    assert_eq!(rt; pit.read(CONTROL_WORD), 0xFF);
}
