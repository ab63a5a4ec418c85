//! What is executed, and for which packets.

use crate::spot::Stage;
use bumpalo::Bump;
use fws_box::PBox;
use fws_box_conditions::Ways;
use fws_flat::{Ins, Part};
use fws_net::{Site, State};

/// What is the same for all parts.
#[derive(Clone, Copy)]
pub(crate) struct Ground<'a, 'b> {
    /// The arena in which boxes lie.
    pub bump: &'b Bump,
    /// The box of all points.
    pub area: PBox<'b>,
    /// The site.
    pub site: &'a Site,
    /// Its destinations as sets.
    pub ways: &'a Ways,
    /// Whether packets belong to tracked connections.
    pub state: State,
}

/// A part that is executed.
#[derive(Clone, Copy)]
pub(crate) struct Errand<'a, 'b> {
    /// Where it is executed.
    pub ground: Ground<'a, 'b>,
    /// The code.
    pub code: &'a [Ins],
    /// The part.
    pub part: Part,
    /// The stage of which it is a part.
    pub stage: Stage,
    /// For each place of the part where the run begins in which it is. Nothing hangs on it but time.
    pub starts: &'a [u32],
}
