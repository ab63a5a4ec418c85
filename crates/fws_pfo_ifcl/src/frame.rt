//! What the rules of a pass are drawn with.

ghost use Rattle.std.specs.Prelude.{◌≡◌, IfOk};
ghost use Rattle.fws_pfo_ifcl.specs.Diagram.{frame_by, frame_of};

use crate::ends::gathered;
use crate::held::bit_count;
use crate::tail::tail_place;
use fws_net::End;
use fws_num::{Items, Memory};
use fws_pfo::PfoConfig;
use std::alloc::Global;

/// What the rules of a pass are drawn with. The end that is held for a packet is told by tags of the packet, one for each bit
/// of the end's number. They stand behind those of the names.
#[derive(Drop)]
pub(crate) struct Frame {
    /// Whether packets go out on the pass.
    pub outward: bool,
    /// How many names of tags there are, and so the first tag that tells a bit.
    pub tags: u32,
    /// How many tags tell bits.
    pub bits: usize,
    /// The ends that can be held, each once; their numbers are counted from 1, and 0 is that of none.
    pub ends: Items<End>,
}

/// The frame of a pass on which these ends can be held. Fails if memory runs out.
fn frame_by(outward: bool, tags: usize, ends: Items<End>) -> Result<Frame, Memory>
    ensures { IfOk result (λ f. f ≡ frame_by outward tags ends) }
{
    Ok(Frame {
        outward,
        tags: u32::try_from(tags).map_err(|_| Memory)?,
        bits: bit_count(ends.len())?,
        ends,
    })
}

/// The frame of a pass. Fails if memory runs out.
pub(crate) fn frame_of(alloc: Global, outward: bool, c: &PfoConfig) -> Result<Frame, Memory>
    ensures { IfOk result (λ f. f ≡ frame_of outward c.now) }
{
    let rules = c.rules.as_slice();
    let (head, _) = rules.split_at(tail_place(outward, rules));
    frame_by(outward, c.tags.len(), gathered(alloc, outward, head)?)
}
