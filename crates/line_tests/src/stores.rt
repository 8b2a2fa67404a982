// The store and the sink in memory.
use outside_io::{Fetched, LastName, MemorySink, MemoryStore, Sink, Store, StoreFault};
use std::alloc::Global;
use std::test::Fail;

// The bytes that were fetched.
fn bytes_of(fetched: Result<Fetched, StoreFault>) -> Option<Vec<u8>> {
    match fetched {
        Ok(Fetched::Bytes(content)) => Some(content.into_vec()),
        _ => None,
    }
}

#[test]
fn the_store_holds_files_and_fails_where_told(rt: HostRuntime) -> Result<(), Fail> {
    let alloc = rt.alloc();
    let mut files = Vec::new(alloc);
    files.push((String::from_str(alloc, "a")?, b"12345".to_vec(alloc)?))?;
    let mut store = MemoryStore::new(files, [2].to_vec(alloc)?);
    let first = bytes_of(store.fetch(alloc, "a", 5)).ok_or("not fetched")?;
    assert_eq!(rt; first.as_slice(), b"12345".as_slice());
    assert_eq!(rt; store.fetch(alloc, "a", 5).err(), Some(StoreFault::Failed));
    assert!(rt; matches!(store.fetch(alloc, "a", 4), Ok(Fetched::Larger)));
    assert_eq!(rt; store.fetch(alloc, "b", 5).err(), Some(StoreFault::Failed));
    Ok(())
}

#[test]
fn the_sink_keeps_what_fits_and_fails_where_told(rt: HostRuntime) -> Result<(), Fail> {
    let alloc = rt.alloc();
    let mut sink = MemorySink::new(alloc, 8, [(2, 1)].to_vec(alloc)?)
        .ok()
        .ok_or("no sink")?;
    assert!(rt; sink.put(b"abc").is_ok());
    assert!(rt; sink.put(b"def").is_err());
    assert!(rt; sink.put(b"ghij").is_ok());
    assert!(rt; sink.put(b"k").is_err());
    assert_eq!(rt; sink.written(), b"abcdghij".as_slice());
    Ok(())
}

#[test]
fn a_shorter_name_is_kept_in_place_of_a_longer_one(rt: HostRuntime) {
    let mut last = LastName::new();
    assert!(rt; last.as_slice().is_empty());
    last.keep(b"s.toml");
    last.keep(b"k");
    assert_eq!(rt; last.as_slice(), b"k".as_slice());
}
