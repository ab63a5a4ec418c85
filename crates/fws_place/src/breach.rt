//! Why a system can't hold a policy.

ghost use Rattle.std.specs.Prelude.{◌≡◌};

use crate::clause::Clause;
use fws_net::{Packet, Rec};
use fws_num::Memory;
use thiserror::Error;

/// A packet of a new connection, or one that an established connection sends.
#[derive(Clone, Copy, Debug, PartialEq, Eq)]
pub struct Pair {
    /// The packet.
    pub packet: Packet,
    /// The ends with which its connection sends it; none for a new packet.
    pub rec: Option<Rec>,
}

/// A clause of a system's placement condition that tables don't meet, and packets that show so.
#[derive(Clone, Copy, Debug, PartialEq, Eq)]
pub struct Breach {
    /// The first clause that isn't met.
    pub clause: Clause,
    /// A packet that breaks it.
    pub first: Pair,
    /// A second one, where two of them break the clause together.
    pub second: Option<Pair>,
}

/// Why tables weren't found to fit, and so weren't placed.
#[derive(Clone, Copy, Debug, PartialEq, Eq, Error)]
pub enum PlaceAnswer {
    /// A clause isn't met.
    #[error("the tables don't fit: {0:?}")]
    Unfit(Breach),
    /// Memory was wanting.
    #[error("out of memory")]
    Memory,
}

impl From<Memory> for PlaceAnswer {
    ghost use Rattle.fws_place.specs.declared.breach.PlaceAnswer.TheVariants as answers;

    ghost from_gives = { λ _ e. e ≡ answers.Memory };

    fn from(_e: Memory) -> PlaceAnswer {
        PlaceAnswer::Memory
    }
}
