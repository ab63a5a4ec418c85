//! A sink that never fails.

ghost use Rattle.std.specs.Prelude.{◌≡◌, ◌<◌, ◌≤◌, [], length, take, IfOk, OnOk, OnErr};
ghost use Rattle.fws_io.specs.Outside.{Rose, with_more};

use crate::sink::{Failed, Sink};

/// Takes each piece whole, keeps no byte and tells no content. No call fails.
#[derive(Clone, Copy, Debug, Default)]
pub struct SureSink;

impl SureSink {
    /// A sink, to which nothing was written.
    pub fn new() -> SureSink
        ensures written { ⟦<SureSink as Sink>⟧.written result ≡ None }
        ensures faults { ⟦<SureSink as Sink>⟧.faults result ≡ 0 }
    {
        SureSink
    }
}

impl Sink for SureSink {
    ghost use Rattle.std.specs.Prelude.{None};

    ghost written = { λ s. None };

    ghost faults = { λ s. 0 };

    fn put(&mut self, piece: &[u8]) -> Result<usize, Failed>
        ensures most { IfOk result (λ taken. taken ≤ length piece.now) }
        ensures least { IfOk result (λ taken. 0 < length piece.now → 0 < taken) }
        ensures empty { piece.now ≡ [] → result ≡ Ok 0 }
        ensures appended { IfOk result (λ taken. ⟦<SureSink as Sink>⟧.written self.new ≡ with_more (⟦<SureSink as Sink>⟧.written self.old) (take taken piece.now)) }
        ensures same { OnErr result (⟦<SureSink as Sink>⟧.written self.new ≡ ⟦<SureSink as Sink>⟧.written self.old) }
        ensures failed { OnErr result (Rose (⟦<SureSink as Sink>⟧.faults self.old) (⟦<SureSink as Sink>⟧.faults self.new)) }
        ensures count { OnOk result (⟦<SureSink as Sink>⟧.faults self.new ≡ ⟦<SureSink as Sink>⟧.faults self.old) }
        ensures never_falls { ⟦<SureSink as Sink>⟧.faults self.old ≤ ⟦<SureSink as Sink>⟧.faults self.new }

        // Each piece is taken whole, and no call fails.
        ensures whole { result ≡ Ok (length piece.now) }
        ensures silent { ⟦<SureSink as Sink>⟧.written self.new ≡ None }
        ensures none { ⟦<SureSink as Sink>⟧.faults self.new ≡ 0 }
    {
        Ok(piece.len())
    }
}
