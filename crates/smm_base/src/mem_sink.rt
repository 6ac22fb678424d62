ghost use Rattle.std.specs.Prelude.{◌≡◌, ◌==◌, ◌+◌, ◌-◌, ◌^◌, ◌≤◌, [], IfOk, IsOk, min};

use crate::{NoMemory, Sink, WriteError};
use std::alloc::Global;

/// A sink in memory, which tells its bytes. It takes a part of a long piece, and chosen calls fail.
#[derive(Drop)]
pub struct MemSink {
    taken: Vec<u8>,
    most: usize,
    failing: Vec<u64>,
    calls: u64,
    fault_count: u64,
    ghost takes_some: { 1 ≤ most },
}

impl MemSink {
    ghost use Rattle.smm_base.specs.MemSink.{bytes_of, failing_of, calls_of, next_call, fails_at_next, faults_of, most_of, KeepsAll};

    /// A sink without bytes, which takes at most `most` bytes a call. The calls with the numbers in
    /// `fails` fail, the first call being 1.
    pub fn new(alloc: Global, most: usize, fails: Vec<u64>) -> Result<Self, NoMemory>
        requires { 1 ≤ most }
        ensures made { IsOk result }
        ensures empty { IfOk result (λ sink. bytes_of sink ≡ []) }
        ensures most { IfOk result (λ sink. most_of sink ≡ most) }
        ensures numbers { IfOk result (λ sink. failing_of sink ≡ fails.items) }
        ensures no_calls { IfOk result (λ sink. calls_of sink ≡ 0) }
        ensures no_faults { IfOk result (λ sink. faults_of sink ≡ 0) }
    {
        Ok(MemSink {
            taken: Vec::new(alloc),
            most,
            failing: fails,
            calls: 0,
            fault_count: 0,
        })
    }

    /// The bytes that were taken so far.
    pub fn bytes(&self) -> &Vec<u8>
        ensures { result.now.items ≡ bytes_of self.now }
    {
        &self.taken
    }

    // Counts a call, and says whether it is to fail.
    fn next_call_fails(&mut self) -> bool
        ensures counted { calls_of self.new ≡ next_call self.old }
        ensures listed { result ≡ fails_at_next self.old }
        ensures rest_stays { KeepsAll self.old self.new }
    {
        self.calls = self.calls.saturating_add(1);
        self.failing.contains(&self.calls)
    }
}

impl Sink for MemSink {
    ghost use Rattle.std.specs.Prelude.{Some};
    ghost use Rattle.smm_base.specs.MemSink.{bytes_of, faults_of, fails_at_next, most_of, Moves};

    ghost written = { λ sink. Some (bytes_of sink) };

    ghost faults = { faults_of };

    ghost fails_next = { λ sink. Some (fails_at_next sink) };

    ghost most = { λ sink. Some (most_of sink) };

    ghost moves = { Moves };

    fn write(&mut self, piece: &[u8]) -> Result<usize, WriteError> {
        if self.next_call_fails() {
            self.fault_count = self.fault_count.saturating_add(1);
            return Err(WriteError::Failed);
        }
        let count = piece.len().min(self.most);
        self.taken.extend_from_slice(&piece[..count])?;
        Ok(count)
    }

    ghost never_falls = { λ before after moved. moved.count };
}
