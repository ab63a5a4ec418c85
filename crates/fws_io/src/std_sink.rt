//! Standard output as a sink.

ghost use Rattle.std.specs.Prelude.{◌≡◌};

use crate::faults::FaultCount;
use crate::sink::{Failed, Sink};

/// Standard output. A put that the system refuses, and one of which it takes no byte, raises the
/// count of faults. The bytes written are not told.
#[derive(Drop)]
pub struct StdSink<'r, R> {
    runtime: &'r R,
    faults: FaultCount,
}

impl<'r, R: Print> StdSink<'r, R> {
    /// Standard output of this runtime.
    pub fn new(runtime: &'r R) -> StdSink<'r, R>
        ensures written { ⟦<StdSink<'r, R> as Sink>⟧.written result ≡ None }
        ensures faults { ⟦<StdSink<'r, R> as Sink>⟧.faults result ≡ 0 }
    {
        StdSink {
            runtime,
            faults: FaultCount::none(),
        }
    }
}

impl<'r, R: Print> Sink for StdSink<'r, R> {
    ghost use Rattle.std.specs.Prelude.{None};

    ghost written = { λ s. None };

    ghost faults = { λ s. s.faults.count };

    fn put(&mut self, piece: &[u8]) -> Result<usize, Failed> {
        if piece.is_empty() {
            return Ok(0);
        }
        match self.runtime.write_some(piece) {
            Ok(taken) if taken > 0 => Ok(taken),
            _ => {
                self.faults.raise();
                Err(Failed)
            }
        }
    }
}
