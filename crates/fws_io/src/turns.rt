//! Reading in turns that are counted.

ghost use Rattle.std.specs.Prelude.{◌≡◌, ◌+◌, ◌-◌, ◌^◌, min};
ghost use Rattle.std.specs.Io.{ReadsAtMost};
ghost use Rattle.std.specs.Io.KnownBytes.{ReadConsumes};

use std::io;
use std::io::Read;

/// How often readers were asked for bytes. The count stays at its last value.
#[derive(Clone, Copy)]
pub(crate) struct TurnCount {
    pub(crate) made: u64,
}

impl TurnCount {
    /// No turn so far.
    pub(crate) fn none() -> TurnCount
        ensures { result.made ≡ 0 }
    {
        TurnCount { made: 0 }
    }

    /// Asks the reader for its next bytes, and counts the turn.
    pub(crate) fn read<F: Read>(&mut self, file: &mut F, piece: &mut [u8]) -> io::Result<usize>
        ensures counted { self.new.made ≡ min (self.old.made + 1) (2 ^ 64 - 1) }
        ensures bound { ReadsAtMost result piece.new }
        ensures bytes { ReadConsumes (F.remaining file.old) (F.remaining file.new) result piece.new }
    {
        self.made = self.made.saturating_add(1);
        file.read(piece)
    }
}
