//! The pieces of a text between bytes that divide it.

ghost use Rattle.std.specs.Prelude.{◌≡◌, IfOk};
ghost use Rattle.fws_num.specs.Pieces.{pieces_of};

use crate::items::Items;
use crate::memory::Memory;
use crate::text::Text;
use std::alloc::Global;
use std::mem;

/// The pieces of the text between such bytes: one more than there are such bytes, and some of them may be empty. Fails if memory
/// runs out.
pub fn pieces(alloc: Global, byte: u8, text: &[u8]) -> Result<Items<Text>, Memory>
    ensures { IfOk result (λ ps. ps ≡ pieces_of byte text.now) }
{
    let mut pieces = Items::new(alloc);
    let mut piece = Text::new(alloc);
    for c in text {
        if *c == byte {
            pieces.put(mem::replace(&mut piece, Text::new(alloc)))?;
        } else {
            piece.put(&[*c])?;
        }
    }
    pieces.put(piece)?;
    Ok(pieces)
}
