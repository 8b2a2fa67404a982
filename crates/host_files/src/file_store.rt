// The store over the system's files.
ghost use Rattle.std.specs.Prelude.{◌≡◌, ◌≤◌, length};
ghost use Rattle.outside_io.specs.Causes.{Rose};

use item_list::Items;
use outside_io::{Fetched, LastName, Store, StoreFault};
use std::alloc::Global;
use std::fs;
use std::io::Read;
use std::rt::Files;

/// How many bytes are read at a time.
const CHUNK: usize = 4096;

/// The system's files, by their paths. It tells nothing of what they hold. A fetch fails where the file can't be opened
/// or read, and then the count of faults is raised.
#[derive(Drop)]
pub struct FileStore<'a, R: Files> {
    rt: &'a R,
    faults: u64,
    last: LastName,
}

impl<'a, R: Files> FileStore<'a, R> {
    /// The files that `rt` reaches, with no fault yet.
    pub fn new(rt: &'a R) -> FileStore<'a, R> {
        FileStore {
            rt,
            faults: 0,
            last: LastName::new(),
        }
    }

    // Counts a fault and keeps the name.
    fn fail(&mut self, name: &str) -> StoreFault
        requires { length name.now ≤ 255 }
        ensures answer { result ≡ StoreFault.Failed }
        ensures rose { Rose self.old.faults self.new.faults }
        ensures later { self.old.faults ≤ self.new.faults }
        ensures name { self.new.last ≡ name.now }
    {
        self.faults = self.faults.saturating_add(1);
        self.last.keep(name.as_bytes());
        StoreFault::Failed
    }
}

impl<R: Files> Store for FileStore<'_, R> {
    ghost use Rattle.std.specs.Prelude.{None};

    ghost held = { λ _. None };

    ghost faults = { λ store. store.faults };

    ghost failed_last = { λ store. store.last };

    fn fetch(&mut self, alloc: Global, name: &str, limit: u32) -> Result<Fetched, StoreFault> {
        match read_file(self.rt, alloc, name, limit as usize) {
            Ok(fetched) => Ok(fetched),
            Err(StoreFault::Failed) => Err(self.fail(name)),
            Err(StoreFault::NoMemory) => Err(StoreFault::NoMemory),
        }
    }
}

// The bytes of a file, where they are no more than the limit. Of a larger one no more than the limit is held.
fn read_file<R: Files>(
    rt: &R,
    alloc: Global,
    name: &str,
    limit: usize,
) -> Result<Fetched, StoreFault> {
    let mut file = match fs::open(rt, name) {
        Ok(file) => file,
        Err(_) => return Err(StoreFault::Failed),
    };
    let mut bytes = Vec::new(alloc);
    let mut chunk = [0u8; CHUNK];
    for _ in 0..u64::MAX {
        let count = match file.read(&mut chunk) {
            Ok(count) => count,
            Err(_) => return Err(StoreFault::Failed),
        };
        if count == 0 {
            return Ok(Fetched::Bytes(Items::new(bytes)));
        }
        if bytes.len() > limit || count > limit - bytes.len() {
            return Ok(Fetched::Larger);
        }
        if bytes.extend_from_slice(&chunk[..count]).is_err() {
            return Err(StoreFault::NoMemory);
        }
    }
    Err(StoreFault::Failed)
}
