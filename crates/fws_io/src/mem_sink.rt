//! A sink in memory, of which chosen calls fail.

ghost use Rattle.std.specs.Prelude.{◌≡◌, ◌+◌, ◌-◌, ◌^◌, ◌<◌, ◌≤◌, ◌⊎◌, min, false, [], ◌++◌, length, take, IsTrue, IsErr, IfOk, OnOk, OnErr};
ghost use Rattle.fws_io.specs.Outside.{Rose, is_listed, with_more};

use crate::faults::{FailingCalls, FaultCount};
use crate::sink::{Failed, Sink};
use fws_num::{Items, Text};
use std::alloc::Global;

/// Bytes in memory, a greatest length for one put, and a list of the puts that fail. A put that
/// fails, or for which there is no memory, raises the count of faults; those for which there is no memory
/// have a count of their own besides.
#[derive(Drop)]
pub struct MemSink {
    bytes: Text,
    most: usize,
    failing: FailingCalls,
    faults: FaultCount,
    refused: FaultCount,
    ghost takes: { 1 ≤ most },
}

impl MemSink {
    ghost use Rattle.fws_io.specs.Failing.{sink_fails, puts_made, puts_refused, most_of};

    /// A sink without bytes, which takes at most `most` bytes at a time. The puts whose numbers are
    /// in `fails` will fail; those whose piece isn't empty are numbered from 1, and the number stays
    /// at its last value.
    pub fn new(alloc: Global, most: usize, fails: Items<u64>) -> MemSink
        requires { 1 ≤ most }
        ensures written { ⟦<MemSink as Sink>⟧.written result ≡ Some [] }
        ensures faults { ⟦<MemSink as Sink>⟧.faults result ≡ 0 }
        ensures most { most_of result ≡ most }
        ensures fails { sink_fails result ≡ fails }
        ensures made { puts_made result ≡ 0 }
        ensures refused { puts_refused result ≡ 0 }
    {
        MemSink {
            bytes: Text::new(alloc),
            most,
            failing: FailingCalls::new(fails),
            faults: FaultCount::none(),
            refused: FaultCount::none(),
        }
    }

    /// The bytes written.
    pub fn bytes(&self) -> &[u8]
        ensures { ⟦<MemSink as Sink>⟧.written self.now ≡ Some result.now }
    {
        self.bytes.as_slice()
    }

    /// For how many puts there was no memory. The count stays at its last value.
    pub fn refused(&self) -> u64
        ensures { result ≡ puts_refused self.now }
    {
        self.refused.count
    }

    /// Appends at most `most` bytes of a piece that isn't empty, unless this call is to fail.
    fn append(&mut self, piece: &[u8]) -> Result<usize, Failed>
        requires { 0 < length piece.now }
        ensures most { IfOk result (λ taken. taken ≡ min (length piece.now) (most_of self.old)) }
        ensures appended { IfOk result (λ taken. self.new.bytes ≡ self.old.bytes ++ take taken piece.now) }
        ensures same { OnErr result (self.new.bytes ≡ self.old.bytes) }
        ensures listed { OnOk result (is_listed (sink_fails self.old) (puts_made self.new) ≡ false) }
        ensures fails { OnErr result (IsTrue (is_listed (sink_fails self.old) (puts_made self.new)) ⊎ Rose (puts_refused self.old) (puts_refused self.new)) }
        ensures found { OnOk result (puts_refused self.new ≡ puts_refused self.old) }
        ensures spared { IsTrue (is_listed (sink_fails self.old) (puts_made self.new)) → puts_refused self.new ≡ puts_refused self.old }
        ensures failed { OnErr result (Rose self.old.faults.count self.new.faults.count) }
        ensures counted { OnErr result (self.new.faults.count ≡ min (self.old.faults.count + 1) (2 ^ 64 - 1)) }
        ensures count { OnOk result (self.new.faults ≡ self.old.faults) }
        ensures never_falls { self.old.faults.count ≤ self.new.faults.count }
        ensures limit { most_of self.new ≡ most_of self.old }
        ensures list { sink_fails self.new ≡ sink_fails self.old }
        ensures number { puts_made self.new ≡ min (puts_made self.old + 1) (2 ^ 64 - 1) }
    {
        let taken = piece.len().min(self.most);
        if self.failing.next_fails() {
            self.faults.raise();
            return Err(Failed);
        }
        if self.bytes.put(&piece[..taken]).is_err() {
            self.refused.raise();
            self.faults.raise();
            return Err(Failed);
        }
        Ok(taken)
    }
}

impl Sink for MemSink {
    ghost use Rattle.std.specs.Prelude.{Some};
    ghost use Rattle.fws_io.specs.Failing.{sink_fails, puts_made, puts_refused, most_of};

    ghost written = { λ s. Some s.bytes };

    ghost faults = { λ s. s.faults.count };

    fn put(&mut self, piece: &[u8]) -> Result<usize, Failed>
        ensures most { IfOk result (λ taken. taken ≤ length piece.now) }
        ensures least { IfOk result (λ taken. 0 < length piece.now → 0 < taken) }
        ensures empty { piece.now ≡ [] → result ≡ Ok 0 }
        ensures appended { IfOk result (λ taken. ⟦<MemSink as Sink>⟧.written self.new ≡ with_more (⟦<MemSink as Sink>⟧.written self.old) (take taken piece.now)) }
        ensures same { OnErr result (⟦<MemSink as Sink>⟧.written self.new ≡ ⟦<MemSink as Sink>⟧.written self.old) }
        ensures failed { OnErr result (Rose (⟦<MemSink as Sink>⟧.faults self.old) (⟦<MemSink as Sink>⟧.faults self.new)) }
        ensures count { OnOk result (⟦<MemSink as Sink>⟧.faults self.new ≡ ⟦<MemSink as Sink>⟧.faults self.old) }
        ensures never_falls { ⟦<MemSink as Sink>⟧.faults self.old ≤ ⟦<MemSink as Sink>⟧.faults self.new }

        // A piece that isn't empty is a call, which fails where its number is listed, or because memory ran out, and else takes
        // what it may.
        ensures taken { IfOk result (λ taken. taken ≡ min (length piece.now) (most_of self.old)) }
        ensures listed { 0 < length piece.now → IsTrue (is_listed (sink_fails self.old) (puts_made self.new)) → IsErr result }
        ensures fails { OnErr result (IsTrue (is_listed (sink_fails self.old) (puts_made self.new)) ⊎ Rose (puts_refused self.old) (puts_refused self.new)) }
        ensures found { OnOk result (puts_refused self.new ≡ puts_refused self.old) }
        ensures spared { 0 < length piece.now → IsTrue (is_listed (sink_fails self.old) (puts_made self.new)) → puts_refused self.new ≡ puts_refused self.old }
        ensures counted { OnErr result (⟦<MemSink as Sink>⟧.faults self.new ≡ min (⟦<MemSink as Sink>⟧.faults self.old + 1) (2 ^ 64 - 1)) }
        ensures number { 0 < length piece.now → puts_made self.new ≡ min (puts_made self.old + 1) (2 ^ 64 - 1) }
        ensures no_call { piece.now ≡ [] → self.new ≡ self.old }
        ensures limit { most_of self.new ≡ most_of self.old }
        ensures list { sink_fails self.new ≡ sink_fails self.old }
    {
        if piece.is_empty() {
            return Ok(0);
        }
        self.append(piece)
    }
}
