//! What a query asks for.

use fws_iv::Ivs;

/// The packets that a query asks for.
#[derive(Drop)]
pub struct Ask {
    /// The values that are asked for, field by field.
    pub sides: [Ivs; 12],
    /// `Some(true)` asks for accepted packets, `Some(false)` for dropped ones, `None` for both.
    pub verdict: Option<bool>,
}
