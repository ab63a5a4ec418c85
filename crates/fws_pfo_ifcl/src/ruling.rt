//! Rulings.

use fws_net::{Cond, End};

/// Whether packets pass where a condition holds, and with which end.
#[derive(Drop)]
pub(crate) struct Ruling {
    /// Where it decides.
    pub cond: Cond,
    /// Whether packets pass there; else they are dropped.
    pub passes: bool,
    /// The end that is written over those that pass, if there is one.
    pub to: Option<End>,
}
