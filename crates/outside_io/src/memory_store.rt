// The store in memory.
ghost use Rattle.std.specs.Prelude.{◌≡◌, ◌≤◌, ◌||◌, ◌↔◌, ◌+◌, [], length, Option, Some, None, IsTrue, IsErrOf, IfOk, IfErr, is_none, option_copied, min, ◌-◌, ◌^◌};
ghost use Rattle.outside_io.specs.Memory.{content_of, file_of, is_named, same_bytes};
ghost use Rattle.outside_io.specs.Causes.{Rose};
ghost use Rattle.outside_io.specs.Store.{Fetches};

use crate::{Fetched, LastName, Store, StoreFault};
use item_list::Items;
use std::alloc::Global;

/// A store over pairs of a name and bytes, for tests: it fails at the fetches that it was told, and at names that it
/// doesn't hold.
#[derive(Drop)]
pub struct MemoryStore {
    files: Vec<(String, Vec<u8>)>,
    failing: Vec<u32>,
    fetches: u32,
    faults: u64,
    last: LastName,
}

impl MemoryStore {
    ghost use Rattle.outside_io.specs.MemoryStore.{files_of, failing_numbers, fetch_count, store_faults, last_failed};

    /// A store of these pairs, of which the first of a name counts. It fails at the fetches of these numbers, counted
    /// from 1.
    pub fn new(files: Vec<(String, Vec<u8>)>, failing: Vec<u32>) -> MemoryStore
        ensures files { files_of result ≡ content_of files.items }
        ensures failing { failing_numbers result ≡ failing.items }
        ensures fetches { fetch_count result ≡ 0 }
        ensures faults { store_faults result ≡ 0 }
        ensures last { last_failed result ≡ [] }
    {
        MemoryStore {
            files,
            failing,
            fetches: 0,
            faults: 0,
            last: LastName::new(),
        }
    }

    // Counts a fault and keeps the name.
    fn fail(&mut self, name: &str) -> StoreFault
        requires { length name.now ≤ 255 }
        ensures answer { result ≡ StoreFault.Failed }
        ensures files { files_of self.new ≡ files_of self.old }
        ensures rose { Rose (store_faults self.old) (store_faults self.new) }
        ensures later { store_faults self.old ≤ store_faults self.new }
        ensures name { last_failed self.new ≡ name.now }
        ensures failing { failing_numbers self.new ≡ failing_numbers self.old }
        ensures fetches { fetch_count self.new ≡ fetch_count self.old }
    {
        self.faults = self.faults.saturating_add(1);
        self.last.keep(name.as_bytes());
        StoreFault::Failed
    }
}

// Whether this is the number of a call that is to fail.
fn is_failing(failing: &[u32], number: u32) -> bool
    ensures { result ≡ is_named failing.now number }
{
    failing.iter().any(|n| *n == number)
}

fn same(a: &[u8], b: &[u8]) -> bool
    ensures { result ≡ same_bytes a.now b.now }
{
    a == b
}

// The first pair of a name.
fn find_file<'a>(files: &'a [(String, Vec<u8>)], name: &str) -> Option<&'a (String, Vec<u8>)>
    ensures { option_copied result ≡ file_of files.now name.now }
{
    files
        .iter()
        .find(|file| same(file.0.as_bytes(), name.as_bytes()))
}

impl Store for MemoryStore {
    ghost use Rattle.std.specs.Prelude.{◌≡◌, ◌≤◌, ◌||◌, ◌↔◌, ◌+◌, ◌-◌, ◌^◌, min, length, IsTrue, IsErrOf, is_none};
    ghost use Rattle.outside_io.specs.Store.{TellsHeld, FetchCause};
    ghost use Rattle.outside_io.specs.MemoryStore.{files_of, failing_numbers, fetch_count, store_faults, last_failed, fetch_fails_next};
    ghost use Rattle.std.specs.Prelude.{Some};

    ghost held = { λ store. Some (files_of store) };

    ghost faults = { λ store. store_faults store };

    ghost failed_last = { λ store. last_failed store };

    fn fetch(&mut self, alloc: Global, name: &str, limit: u32) -> Result<Fetched, StoreFault>
        requires some { 1 ≤ length name.now }
        requires short { length name.now ≤ 255 }
        ensures told { TellsHeld (Some (files_of self.old)) name.now limit result }
        ensures stays { Some (files_of self.new) ≡ Some (files_of self.old) }
        ensures cause { FetchCause (store_faults self.old) (store_faults self.new) (last_failed self.old) (last_failed self.new) name.now result }
        ensures exact { IsErrOf result StoreFault.Failed ↔ IsTrue (fetch_fails_next self.old || is_none (files_of self.old name.now)) }
        ensures failing { failing_numbers self.new ≡ failing_numbers self.old }
        ensures counted { fetch_count self.new ≡ min (fetch_count self.old + 1) (2 ^ 32 - 1) }
    {
        let fails = self.fetches < u32::MAX
            && is_failing(self.failing.as_slice(), self.fetches + 1);
        self.fetches = self.fetches.saturating_add(1);
        if fails {
            return Err(self.fail(name));
        }
        match find_file(self.files.as_slice(), name) {
            None => Err(self.fail(name)),
            Some(file) => give(alloc, file.1.as_slice(), limit),
        }
    }
}

// The bytes, if they are no more than a limit.
fn give(alloc: Global, bytes: &[u8], limit: u32) -> Result<Fetched, StoreFault>
    ensures ok { IfOk result (λ got. Fetches (Some bytes.now) limit got) }
    ensures err { IfErr result (λ e. e ≡ StoreFault.NoMemory) }
{
    if bytes.len() > limit as usize {
        return Ok(Fetched::Larger);
    }
    match bytes.to_vec(alloc) {
        Ok(copy) => Ok(Fetched::Bytes(Items::new(copy))),
        Err(_) => Err(StoreFault::NoMemory),
    }
}
