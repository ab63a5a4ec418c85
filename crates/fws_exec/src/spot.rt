//! Where packets stand on their way.

ghost use Rattle.std.specs.Prelude.{◌≡◌, ◌↔◌, ◌≤◌, true, false, IsTrue};
ghost use Rattle.fws_exec.specs.Classes.{same_stage, same_spot, is_at, is_at_stage, is_before, is_dropped, is_unused};

use crate::progress::Progress;
use fws_net::Outcome;
use fws_tree::Leaf;

/// A stage of the way. It ends where the next one begins, or the way does.
#[derive(Clone, Copy, Debug, PartialEq, Eq, Hash)]
pub(crate) enum Stage {
    /// What an arriving packet meets before it is routed.
    Arrive,
    /// What a packet meets then that is delivered.
    Deliver,
    /// What a packet meets then that is forwarded.
    Forward,
    /// What a packet of the host itself meets.
    Send,
}

/// Where the packets of a class stand.
#[derive(Clone, Copy, Debug, PartialEq, Eq, Hash)]
pub(crate) enum Spot {
    /// There are none: the number of the class can be given again.
    Unused,
    /// They are dropped.
    Dropped,
    /// Before the instruction with this place, of the part that is executed.
    At(u32),
    /// Before what is left of the stage, whose parts are executed one by one.
    Before(Stage),
}

impl Stage {
    /// Whether the two are the same.
    pub(crate) fn same(self, other: Stage) -> bool
        ensures { result ≡ same_stage self other }
    {
        match (self, other) {
            (Stage::Arrive, Stage::Arrive) => true,
            (Stage::Deliver, Stage::Deliver) => true,
            (Stage::Forward, Stage::Forward) => true,
            (Stage::Send, Stage::Send) => true,
            _ => false,
        }
    }
}

impl Spot {
    /// Whether the spot is that before the stage.
    pub(crate) fn is_at_stage(self, stage: Stage) -> bool
        ensures { result ≡ is_at_stage stage self }
    {
        match self {
            Spot::Before(other) => stage.same(other),
            _ => false,
        }
    }

    /// Whether the class is unused.
    pub(crate) fn is_unused(self) -> bool
        ensures { result ≡ is_unused self }
    {
        match self {
            Spot::Unused => true,
            _ => false,
        }
    }

    /// Whether the two are the same.
    pub(crate) fn same(self, other: Spot) -> bool
        ensures { IsTrue result ↔ (self ≡ other) }
    {
        self == other
    }

    /// Whether packets of the class are dropped.
    fn is_dropped(self) -> bool
        ensures { result ≡ is_dropped self }
    {
        match self {
            Spot::Dropped => true,
            _ => false,
        }
    }

    /// Whether the spot is before the instruction with the place.
    fn is_at(self, place: u32) -> bool
        ensures { result ≡ is_at place self }
    {
        match self {
            Spot::At(at) => place == at,
            _ => false,
        }
    }

    /// Whether the other one is this spot.
    pub(crate) fn is_spot(self, other: Spot) -> bool
        ensures { result ≡ same_spot self other }
    {
        match self {
            Spot::Unused => other.is_unused(),
            Spot::Dropped => other.is_dropped(),
            Spot::At(place) => other.is_at(place),
            Spot::Before(stage) => other.is_at_stage(stage),
        }
    }

    /// Whether it is at an instruction before the place.
    pub(crate) fn is_before(self, place: u32) -> bool
        ensures { result ≡ is_before place self }
    {
        match self {
            Spot::At(at) => at < place,
            _ => false,
        }
    }
}

/// Packets that stand at one spot, and to which rules did the same so far.
#[derive(Drop)]
pub(crate) struct Class {
    /// Where they stand.
    pub spot: Spot,
    /// What rules did to them.
    pub progress: Progress,
}

/// Whether the tags are the same, in the same order.
fn same_tags(a: &[u32], b: &[u32]) -> bool
    ensures { result ≡ true → a.now ≡ b.now }
{
    a == b
}

/// Whether the outcomes are the same.
pub(crate) fn same_outcome(a: Outcome, b: Outcome) -> bool
    ensures { result ≡ true → a ≡ b }
{
    a.same(&b)
}

impl Progress {
    /// Whether rules did the same.
    pub(crate) fn same(&self, other: &Progress) -> bool
        ensures { result ≡ true → self.now ≡ other.now }
    {
        if !same_outcome(Outcome::Accept(self.wrote), Outcome::Accept(other.wrote)) {
            return false;
        }
        if self.src_tracked != other.src_tracked || self.dst_tracked != other.dst_tracked {
            return false;
        }
        if self.verdict != other.verdict {
            return false;
        }
        same_tags(self.tags.as_slice(), other.tags.as_slice())
    }
}

impl Class {
    /// Whether it is the class of packets at this spot to which rules did this.
    pub(crate) fn is(&self, spot: Spot, progress: &Progress) -> bool
        ensures { result ≡ true → self.now ≡ record { spot = spot; progress = progress.now } }
    {
        if !self.spot.same(spot) {
            return false;
        }
        self.progress.same(progress)
    }
}
