// Words behind `run` and `make`, and the names and numbers among them.
use command_words::{
    MakeWords, RunWords, WordsRefusal, is_name, is_number, read_make_words, read_run_words,
    read_ticks,
};
use std::alloc::Global;
use std::test::Fail;

/// The flag in each place among the words.
static FLAGGED: &str = "\
--hardware s.toml --ticks 13
s.toml --hardware --ticks 13
s.toml --ticks 13 --hardware
--hardware --ticks=13 s.toml
--ticks=13 --hardware s.toml
";

/// Words that are refused.
static REFUSED: &str = "\
s.toml --ticks 123456789012345678901
s.toml --ticks 13 --hardware --hardware
s.toml --ticks 13 --hardware=true
s.toml --ticks 13 --hard
";

// The words of a line.
fn words_in(alloc: Global, line: &str) -> Result<Vec<String>, Fail> {
    let mut list = Vec::new(alloc);
    for word in line.split(' ') {
        list.push(String::from_str(alloc, word)?)?;
    }
    Ok(list)
}

// Whether the words of a line are taken for the system s.toml and 13 ticks, with or without the hardware's lines, or why they
// aren't taken.
fn reading(alloc: Global, line: &str, hardware: bool) -> Result<Result<bool, WordsRefusal>, Fail> {
    let list = words_in(alloc, line)?;
    let usual = RunWords {
        system: "s.toml",
        ticks: "13",
        hardware,
    };
    Ok(read_run_words(alloc, &list).map(|said| said == usual))
}

// Are the words of each line answered so?
fn all_read(
    alloc: Global,
    lines: &str,
    hardware: bool,
    wanted: Result<bool, WordsRefusal>,
) -> Result<bool, Fail> {
    for line in lines.lines() {
        if reading(alloc, line, hardware)? != wanted {
            return Ok(false);
        }
    }
    Ok(true)
}

// Which words are taken is a law of `command_words` (`reads_usual_words`, `refuses_other_words`): here each answer is given
// once, the flag stands in each place, and what no row of these laws has.
#[test]
fn a_system_and_ticks_are_taken(rt: HostRuntime) -> Result<(), Fail> {
    assert_eq!(rt; reading(rt.alloc(), "s.toml --ticks 13", false)?, Ok(true));
    Ok(())
}

#[test]
fn the_flag_is_taken_in_each_place(rt: HostRuntime) -> Result<(), Fail> {
    assert!(rt; all_read(rt.alloc(), FLAGGED, true, Ok(true))?);
    Ok(())
}

#[test]
fn other_words_are_usage(rt: HostRuntime) -> Result<(), Fail> {
    assert!(rt; all_read(rt.alloc(), REFUSED, false, Err(WordsRefusal::Usage))?);
    Ok(())
}

#[test]
fn names_have_1_to_255_bytes(rt: HostRuntime) {
    assert!(rt; !is_name(b""));
    assert!(rt; is_name(b"-"));
    assert!(rt; is_name(&[b'n'; 255]));
    assert!(rt; !is_name(&[b'n'; 256]));
}

#[test]
fn ticks_are_1_to_the_limit(rt: HostRuntime) {
    assert!(rt; is_number(b"00000000000000000013"));
    assert!(rt; !is_number(b"000000000000000000013"));
    assert_eq!(rt; read_ticks(b"1000000000"), Some(1_000_000_000));
}

// The rows of `make` are laws too (`reads_usual_make_words`, `refuses_other_make_words`): here each answer is given once.
#[test]
fn a_number_of_32_bits_is_taken_with_its_ticks(rt: HostRuntime) -> Result<(), Fail> {
    let greatest = MakeWords {
        number: 4_294_967_295,
        ticks: "13",
    };
    let words = words_in(rt.alloc(), "4294967295 --ticks 13")?;
    assert_eq!(rt; read_make_words(rt.alloc(), &words), Ok(greatest));
    let words = words_in(rt.alloc(), "4294967296 --ticks 1")?;
    assert_eq!(rt;
        read_make_words(rt.alloc(), &words),
        Err(WordsRefusal::Usage)
    );
    Ok(())
}
