//! What flat code says: instructions, and the parts on a packet's way.

use fws_net::{Cond, End};
use fws_num::Items;

/// What an instruction does where its condition holds. Behind acts that don't say otherwise the walk
/// goes on at the next instruction.
#[derive(Clone, Copy, Debug, PartialEq, Eq)]
pub enum FlatAct {
    /// Ends the part; the packet goes on to the next one.
    Accept,
    /// Drops the packet.
    Drop,
    /// Holds the verdict so far; true is accept.
    Hold(bool),
    /// Goes on at the instruction with this place, a later one, counted from 0 in the whole code. At the
    /// end of the part the verdict so far decides.
    Jump(u32),
    /// Writes the end over the source. Ends of a connection that were put in place are gone then.
    Src(End),
    /// Writes the end over the destination. Ends of a connection that were put in place are gone then.
    Dst(End),
    /// Puts the source with which an established packet leaves in place.
    RecSrc,
    /// Puts the destination with which an established packet leaves in place.
    RecDst,
    /// Adds the tag.
    AddTag(u32),
    /// Makes the tag the only one.
    OnlyTag(u32),
    /// Takes the tag away.
    DelTag(u32),
}

/// An instruction.
#[derive(Drop)]
pub struct Ins {
    /// Where it acts.
    pub cond: Cond,
    /// What it does there.
    pub act: FlatAct,
}

/// A part of the code that a packet meets, and what the instructions see there.
#[derive(Clone, Copy, Debug, PartialEq, Eq)]
pub struct Part {
    /// The place of its first instruction.
    pub first: u32,
    /// The place behind its last instruction.
    pub past: u32,
    /// Whether the instructions see the receiving interface.
    pub shows_recv: bool,
    /// Whether the instructions see the sending interface.
    pub shows_xmit: bool,
    /// Whether the instructions see the packet as one that leaves.
    pub outward: bool,
    /// The verdict with which the part begins; true is accept.
    pub end: bool,
}

/// Flat code.
#[derive(Drop)]
pub struct Flat {
    /// The instructions. Jumps and parts name them by their places, counted from 0.
    pub code: Items<Ins>,
    /// What an arriving packet meets before it is routed.
    pub arrive: Items<Part>,
    /// What a packet meets then that is delivered.
    pub deliver: Items<Part>,
    /// What a packet meets then that is forwarded.
    pub forward: Items<Part>,
    /// What a packet of the host itself meets.
    pub send: Items<Part>,
}
