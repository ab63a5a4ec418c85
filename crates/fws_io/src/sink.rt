//! Where text goes.

ghost use Rattle.std.specs.Prelude.{◌≡◌, ℕ, ◌<◌, ◌≤◌, List, [], Option, length, take, IfOk, OnOk, OnErr};
ghost use Rattle.fws_io.specs.Outside.{Rose, with_more};

/// A fault of the outside: nothing of the piece was written.
#[derive(Clone, Copy, Debug, PartialEq, Eq)]
pub struct Failed;

/// A place that takes bytes, some at a time.
pub trait Sink {
    // The bytes written, where the sink tells them.
    ghost written: { Self → Option (List ℕ) };

    // How many faults there were.
    ghost faults: { Self → ℕ };

    /// Appends the first bytes of the piece and gives their number, which is at least 1 where the
    /// piece isn't empty. Answers `Failed` where a fault was counted.
    fn put(&mut self, piece: &[u8]) -> Result<usize, Failed>
        ensures most { IfOk result (λ taken. taken ≤ length piece.now) }
        ensures least { IfOk result (λ taken. 0 < length piece.now → 0 < taken) }
        ensures empty { piece.now ≡ [] → result ≡ Ok 0 }
        ensures appended { IfOk result (λ taken. written self.new ≡ with_more (written self.old) (take taken piece.now)) }
        ensures same { OnErr result (written self.new ≡ written self.old) }
        ensures failed { OnErr result (Rose (faults self.old) (faults self.new)) }
        ensures count { OnOk result (faults self.new ≡ faults self.old) }
        ensures never_falls { faults self.old ≤ faults self.new };
}

/// Writes all the bytes. Answers `Failed` at the first fault, where a prefix of them was written.
pub fn write_all<K: Sink>(sink: &mut K, bytes: &[u8]) -> Result<(), Failed>
    ensures whole { OnOk result (K.written sink.new ≡ with_more (K.written sink.old) bytes.now) }
    ensures count { OnOk result (K.faults sink.new ≡ K.faults sink.old) }
    ensures prefix { OnErr result ((n : ℕ) × (n ≤ length bytes.now) × (K.written sink.new ≡ with_more (K.written sink.old) (take n bytes.now))) }
    ensures failed { OnErr result (Rose (K.faults sink.old) (K.faults sink.new)) }
    ensures never_falls { K.faults sink.old ≤ K.faults sink.new }
{
    let mut done = 0;
    while done < bytes.len() {
        done += sink.put(&bytes[done..])?;
    }
    Ok(())
}
