//! Decisions.

use fws_net::Cond;

/// Whether packets pass where a condition holds.
#[derive(Drop)]
pub struct Decision {
    /// Where it decides.
    pub cond: Cond,
    /// Whether packets pass there; else they are dropped.
    pub passes: bool,
}
