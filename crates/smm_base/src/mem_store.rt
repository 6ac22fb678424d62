ghost use Rattle.std.specs.Prelude.{◌≡◌, ◌==◌, ◌≢◌, ℕ, ◌+◌, ◌-◌, ◌^◌, [], List, None, Option, IfOk, IsOk, OnErr, OnOk, option_copied};

use crate::{LoadError, NoMemory, SaveError, Store};
use std::alloc::Global;
use std::collections::BTreeMap;

/// A store in memory, which tells its files. Chosen calls of it fail.
#[derive(Drop)]
pub struct MemStore {
    alloc: Global,
    contents: BTreeMap<String, Vec<u8>>,
    failing: Vec<u64>,
    calls: u64,
    load_faults: u64,
    save_faults: u64,
}

impl MemStore {
    ghost use Rattle.smm_base.specs.MemStore.{file_of, failing_of, calls_of, next_call, fails_at_next, KeepsFiles, failed_loads_of, failed_saves_of, KeepsCounts};

    /// A store without files, whose calls don't fail.
    pub fn new(alloc: Global) -> Result<Self, NoMemory>
        ensures made { IsOk result }
        ensures empty { IfOk result (λ store. (name : List ℕ) → file_of store name ≡ None) }
        ensures no_calls { IfOk result (λ store. calls_of store ≡ 0) }
        ensures none_fails { IfOk result (λ store. failing_of store ≡ []) }
        ensures no_failed_loads { IfOk result (λ store. failed_loads_of store ≡ 0) }
        ensures no_failed_saves { IfOk result (λ store. failed_saves_of store ≡ 0) }
    {
        Ok(MemStore {
            alloc,
            contents: BTreeMap::new(alloc),
            failing: Vec::new(alloc),
            calls: 0,
            load_faults: 0,
            save_faults: 0,
        })
    }

    /// Puts a content under a name, in the place of what it held. This counts as no call.
    ///
    /// # Errors
    ///
    /// `NoMemory` for want of memory: then all files stay as they were.
    pub fn put(&mut self, name: &str, bytes: &[u8]) -> Result<(), NoMemory>
        ensures held { OnOk result (file_of self.new name.now ≡ Option.Some bytes.now) }
        ensures others_stay { (other : List ℕ) → other ≢ name.now → file_of self.new other ≡ file_of self.old other }
        ensures refused { OnErr result (file_of self.new ≡ file_of self.old) }
        ensures calls_stay { calls_of self.new ≡ calls_of self.old }
        ensures numbers_stay { failing_of self.new ≡ failing_of self.old }
        ensures counts_stay { KeepsCounts self.old self.new }
    {
        let key = String::from_str(self.alloc, name)?;
        let content = Vec::from_slice(self.alloc, bytes)?;
        self.contents.insert(key, content)?;
        Ok(())
    }

    /// Lets the calls with these numbers fail. Loads and saves are counted together, from 1 at the
    /// store's first call; numbers that were given before count no longer.
    pub fn fail_at(&mut self, calls: Vec<u64>)
        ensures numbers { failing_of self.new ≡ calls.items }
        ensures calls_stay { calls_of self.new ≡ calls_of self.old }
        ensures files_stay { file_of self.new ≡ file_of self.old }
        ensures counts_stay { KeepsCounts self.old self.new }
    {
        self.failing = calls;
    }

    /// What a name holds, and `None` where it isn't held.
    pub fn file(&self, name: &str) -> Option<&[u8]>
        ensures { option_copied result ≡ file_of self.now name.now }
    {
        let content = self.contents.get(name)?;
        Some(content.as_slice())
    }

    // Counts a call, and says whether it is to fail.
    fn next_call_fails(&mut self) -> bool
        ensures counted { calls_of self.new ≡ next_call self.old }
        ensures listed { result ≡ fails_at_next self.old }
        ensures numbers_stay { failing_of self.new ≡ failing_of self.old }
        ensures files_stay { KeepsFiles self.old self.new }
        ensures counts_stay { KeepsCounts self.old self.new }
    {
        self.calls = self.calls.saturating_add(1);
        self.failing.contains(&self.calls)
    }
}

impl Store for MemStore {
    ghost use Rattle.std.specs.Prelude.{Some};
    ghost use Rattle.smm_base.specs.MemStore.{file_of, failed_loads_of, failed_saves_of, fails_at_next, Moves};

    ghost files = { λ store. Some (file_of store) };

    ghost failed_loads = { failed_loads_of };

    ghost failed_saves = { failed_saves_of };

    ghost fails_next = { λ store. Some (fails_at_next store) };

    ghost moves = { Moves };

    fn load(&mut self, alloc: Global, name: &str, limit: u64) -> Result<Vec<u8>, LoadError> {
        if self.next_call_fails() {
            self.load_faults = self.load_faults.saturating_add(1);
            return Err(LoadError::Failed);
        }
        let Some(content) = self.file(name) else {
            return Err(LoadError::Missing);
        };
        if content.len() as u64 > limit {
            return Err(LoadError::TooLong);
        }
        Ok(Vec::from_slice(alloc, content)?)
    }

    fn save(&mut self, name: &str, bytes: &[u8]) -> Result<(), SaveError> {
        if self.next_call_fails() {
            self.save_faults = self.save_faults.saturating_add(1);
            return Err(SaveError::Failed);
        }
        self.put(name, bytes)?;
        Ok(())
    }

    ghost loads_never_fall = { λ before after moved. moved.loads };

    ghost saves_never_fall = { λ before after moved. moved.saves };
}
