//! Rows of a table.

use fws_iv::Ivs;

/// The points that lie in all of the sides, and what holds of them.
#[derive(Drop)]
pub struct Row<L> {
    /// A set of values for each field, in the order of the fields.
    pub sides: [Ivs; 12],
    /// What holds of the row's points.
    pub leaf: L,
}
