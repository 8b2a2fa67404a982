// A request over the store in memory. Which words and files are refused, and which first, stands in the rows of `run_tests`.
use crate::parts::SMALL;
use outside_io::MemoryStore;
use run_files::{AcceptedRun, Shown};
use run_request::request_run;
use std::alloc::Global;
use std::test::Fail;

const SYSTEM: &str =
    "version = 2\nimage = 'k.bin'\nguest_memory = 65536\nreal_time_memory = 65536\nscript = 'd.txt'\n";

// The run that the words of a line ask for, over the files of one system.
fn requested(alloc: Global, line: &str) -> Result<AcceptedRun, Fail> {
    let held: [(&str, &[u8]); 3] = [
        ("s.toml", SYSTEM.as_bytes()),
        ("k.bin", &SMALL),
        ("d.txt", b"3 line 5\n"),
    ];
    let mut files = Vec::new(alloc);
    for (name, content) in held {
        files.push((String::from_str(alloc, name)?, content.to_vec(alloc)?))?;
    }
    let mut words = Vec::new(alloc);
    for word in line.split(' ') {
        words.push(String::from_str(alloc, word)?)?;
    }
    let mut store = MemoryStore::new(files, Vec::new(alloc));
    Ok(
        request_run(alloc, words.as_slice(), &mut store)
            .ok()
            .ok_or("no run")?,
    )
}

#[test]
fn ample_memory_has_the_run(rt: HostRuntime) -> Result<(), Fail> {
    let run = requested(rt.alloc(), "--ticks 13 s.toml")?;
    assert_eq!(rt; run.ticks, 13);
    assert_eq!(rt; run.shown, Shown::Both);
    assert_eq!(rt; run.sides.entry, 0x1234);
    assert_eq!(rt; run.version, 2);
    assert_eq!(rt; run.script.events.len(), 1);
    Ok(())
}

#[test]
fn the_hardware_is_shown_where_it_is_asked_for(rt: HostRuntime) -> Result<(), Fail> {
    let run = requested(rt.alloc(), "--ticks 13 --hardware s.toml")?;
    assert_eq!(rt; run.shown, Shown::WithHardware);
    Ok(())
}
