ghost use Rattle.std.specs.Prelude.{◌≡◌};

use crate::{Sink, WriteError};

/// The standard output. It tells nothing of what was written.
#[derive(Drop)]
pub struct StdSink<R> {
    runtime: R,
    fault_count: u64,
}

impl<R: Print> StdSink<R> {
    ghost use Rattle.smm_base.specs.StdSink.{faults_of};

    /// The standard output of a runtime, with no faults yet.
    pub fn new(runtime: R) -> Self
        ensures { faults_of result ≡ 0 }
    {
        StdSink {
            runtime,
            fault_count: 0,
        }
    }
}

impl<R: Print> Sink for StdSink<R> {
    ghost use Rattle.std.specs.Prelude.{None};
    ghost use Rattle.smm_base.specs.StdSink.{faults_of, Moves};

    ghost written = { λ _. None };

    ghost faults = { faults_of };

    ghost fails_next = { λ _. None };

    ghost most = { λ _. None };

    ghost moves = { Moves };

    fn write(&mut self, piece: &[u8]) -> Result<usize, WriteError> {
        match self.runtime.write_some(piece) {
            Ok(0) if !piece.is_empty() => {
                self.fault_count = self.fault_count.saturating_add(1);
                Ok(0)
            }
            Ok(count) => Ok(count),
            Err(_) => {
                self.fault_count = self.fault_count.saturating_add(1);
                Err(WriteError::Failed)
            }
        }
    }

    ghost never_falls = { λ before after moved. moved };
}
