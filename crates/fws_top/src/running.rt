//! The top call.

ghost use Rattle.std.specs.Prelude.{◌≡◌, List, ℕ};
ghost use Rattle.fws_io.specs.Outside.{Rose, with_more};
ghost use Rattle.fws_top.specs.Due.{Contents, IsFaultless, IsTold, CanEnd, Due, IsReadFault, IsCutShort, plan_for};

use crate::answering::answer_to;
use crate::status::Status;
use fws_io::{Failed, Shelf, Sink, write_all};
use fws_num::{Memory, Text};
use std::alloc::Global;

/// Carries out the words of a command line, those behind the program's name: takes the files that they name from the
/// shelf, and writes the answer into the sink. The whole answer is in memory before the first byte is written.
pub fn run<S: Shelf, K: Sink>(alloc: Global, words: &[Text], shelf: &mut S, sink: &mut K) -> Status
    ensures same { S.told shelf.new ≡ S.told shelf.old }

    // Without a fault, status and text are those that the words ask for, by what the names hold, and just that text was written.
    ensures due { IsFaultless result → (held : Contents) → IsTold (plan_for words.now) (S.told shelf.old) held
        → (t : List ℕ) × Due (plan_for words.now) held result t × (K.written sink.new ≡ with_more (K.written sink.old) t) }
    ensures ends { IsFaultless result → CanEnd (plan_for words.now) result }
    ensures quiet { IsFaultless result → (S.faults shelf.new ≡ S.faults shelf.old) × (K.faults sink.new ≡ K.faults sink.old) }

    // A read fault: the name whose turn it was had a fault in this call, and that was written.
    ensures read_fault { result ≡ Status.ReadFault
        → (t : List ℕ) × IsReadFault (plan_for words.now) (S.told shelf.old) (S.faults shelf.old) (S.faults shelf.new) t
        × (K.written sink.new ≡ with_more (K.written sink.old) t) × (K.faults sink.new ≡ K.faults sink.old) }

    // A write fault: the sink had one in this call, and only the first bytes of the text were written.
    ensures write_fault { result ≡ Status.WriteFault → Rose (K.faults sink.old) (K.faults sink.new)
        × IsCutShort (plan_for words.now) (S.told shelf.old) (S.faults shelf.old) (S.faults shelf.new) (K.written sink.old) (K.written sink.new) }

    // Out of memory: nothing was written.
    ensures memory { result ≡ Status.Memory → (K.written sink.new ≡ K.written sink.old) × (K.faults sink.new ≡ K.faults sink.old) }
{
    match answer_to(alloc, words, shelf) {
        Err(Memory) => Status::Memory,
        Ok(answer) => match write_all(sink, answer.text.as_slice()) {
            Ok(()) => answer.status,
            Err(Failed) => Status::WriteFault,
        },
    }
}
