//! Files as a shelf.

ghost use Rattle.std.specs.Prelude.{◌≡◌, ℕ, ◌+◌, ◌<◌, ◌≤◌, List, length, IfOk, IsErrOf};

use crate::faults::FaultCount;
use crate::shelf::{Shelf, ShelfAnswer};
use crate::turns::TurnCount;
use fws_num::Text;
use std::alloc::Global;
use std::fs;
use std::io::Read;
use std::rt::Files;

// How many bytes are asked of a file at a time.
const PIECE: usize = 8192;

/// The files of the system, by their names. A file that the system doesn't open or read, and a name
/// that isn't UTF-8, raises the count of faults, which is that of every name. The contents are not
/// told.
#[derive(Drop)]
pub struct StdShelf<'r, R> {
    runtime: &'r R,
    faults: FaultCount,
    turns: TurnCount,
}

impl<'r, R: Files> StdShelf<'r, R> {
    /// The files of this runtime.
    pub fn new(runtime: &'r R) -> StdShelf<'r, R>
        ensures told { ⟦<StdShelf<'r, R> as Shelf>⟧.told result ≡ None }
        ensures faults { ⟦<StdShelf<'r, R> as Shelf>⟧.faults result ≡ (λ name. 0) }
        ensures turns { ⟦<StdShelf<'r, R> as Shelf>⟧.turns result ≡ 0 }
    {
        StdShelf {
            runtime,
            faults: FaultCount::none(),
            turns: TurnCount::none(),
        }
    }
}

impl<'r, R: Files> Shelf for StdShelf<'r, R> {
    ghost use Rattle.std.specs.Prelude.{None};

    ghost told = { λ s. None };

    ghost faults = { λ s name. s.faults.count };

    ghost turns = { λ s. s.turns.made };

    fn read(&mut self, alloc: Global, name: &[u8], limit: usize) -> Result<Text, ShelfAnswer> {
        let answer = read_file(self.runtime, alloc, name, limit, &mut self.turns);
        if let Err(ShelfAnswer::Failed) = answer {
            self.faults.raise();
        }
        answer
    }
}

/// The content of the file. `Failed` where the name isn't UTF-8 or the system doesn't open or read it.
fn read_file<R: Files>(
    runtime: &R,
    alloc: Global,
    name: &[u8],
    limit: usize,
    turns: &mut TurnCount,
) -> Result<Text, ShelfAnswer>
    ensures within { IfOk result (λ text. length text ≤ limit) }
    ensures over { (taken : ℕ) → IsErrOf result (ShelfAnswer.TooLong taken) → limit < taken }
    ensures turns { turns.new.made ≤ turns.old.made + limit + 1 }
{
    let Ok(path) = str::from_utf8(name) else {
        return Err(ShelfAnswer::Failed);
    };
    let Ok(mut file) = fs::open(runtime, path) else {
        return Err(ShelfAnswer::Failed);
    };
    let mut piece = [0; PIECE];
    read_pieces(&mut file, alloc, &mut piece, limit, turns)
}

/// All that the reader has left, taken piece by piece until its end or past the limit. Each turn
/// takes at least one byte, but for the one that finds the end or fails.
fn read_pieces<F: Read>(
    file: &mut F,
    alloc: Global,
    piece: &mut [u8],
    limit: usize,
    turns: &mut TurnCount,
) -> Result<Text, ShelfAnswer>
    requires { 0 < length piece.old }
    ensures whole { IfOk result (λ text. (left : List ℕ) → F.remaining file.old ≡ Some left → text ≡ left) }
    ensures within { IfOk result (λ text. length text ≤ limit) }
    ensures over { (taken : ℕ) → IsErrOf result (ShelfAnswer.TooLong taken) → limit < taken }
    ensures turns { turns.new.made ≤ turns.old.made + limit + 1 }
{
    let mut text = Text::new(alloc);
    let mut taken = 0usize;
    loop {
        let Ok(count) = turns.read(file, piece) else {
            return Err(ShelfAnswer::Failed);
        };
        if count == 0 {
            return Ok(text);
        }
        let Some(sum) = taken.checked_add(count) else {
            return Err(ShelfAnswer::Memory);
        };
        if sum > limit {
            return Err(ShelfAnswer::TooLong(sum));
        }
        text.put(&piece[..count])?;
        taken = sum;
    }
}
