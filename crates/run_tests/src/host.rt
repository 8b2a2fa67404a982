// The store and the sink of the host: over a file of the system, and over an output that takes two bytes at a time and then fails.
use host_files::{FileStore, OutSink};
use outside_io::{Fetched, Sink, Store, StoreFault};
use std::cell::Cell;
use std::fmt::Display;
use std::test::Fail;
use std::{fs, io};

#[test]
fn files_are_fetched_up_to_a_limit(rt: HostRuntime) -> Result<(), Fail> {
    let alloc = rt.alloc();
    let bytes = vec![in alloc; 7u8; 10_000]?;
    fs::write(&rt, "a.bin", bytes.as_slice())?;
    let mut store = FileStore::new(&rt);
    match store.fetch(alloc, "a.bin", 10_000) {
        Ok(Fetched::Bytes(content)) => {
            assert_eq!(rt; content.as_slice(), bytes.as_slice());
        }
        _ => return Err(Fail::from("not read")),
    }
    assert!(rt; matches!(store.fetch(alloc, "a.bin", 9_999), Ok(Fetched::Larger)));
    assert_eq!(rt;
        store.fetch(alloc, "b.bin", 10_000).err(),
        Some(StoreFault::Failed)
    );
    Ok(())
}

#[derive(Drop)]
struct Halting {
    left: Cell<usize>,
}

impl Print for Halting {
    fn print<D: Display + Drop>(&self, _value: D) -> io::Result<()> {
        Ok(())
    }

    fn println<D: Display + Drop>(&self, _value: D) -> io::Result<()> {
        Ok(())
    }

    fn write_all(&self, _bytes: &[u8]) -> io::Result<()> {
        Ok(())
    }

    fn write_some(&self, bytes: &[u8]) -> io::Result<usize> {
        let left = self.left.get();
        let count = left.min(2).min(bytes.len());
        self.left.set(left - count);
        Ok(count)
    }
}

#[test]
fn a_piece_is_written_whole_or_a_fault(rt: HostRuntime) -> Result<(), Fail> {
    let output = Halting { left: Cell::new(9) };
    let mut sink = OutSink::new(&output);
    assert!(rt; sink.put(b"12345").is_ok());
    assert!(rt; sink.put(b"6789").is_ok());
    assert!(rt; sink.put(b"0").is_err());
    assert_eq!(rt; output.left.get(), 0);
    Ok(())
}
