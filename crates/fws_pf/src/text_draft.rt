//! What was read so far of a text.

use crate::config::PfConfig;
use crate::macros::Macro;
use fws_num::{Items, Text};

/// What was read so far of a text.
#[derive(Drop)]
pub struct PfDraft {
    /// The macros, each name once.
    pub macros: Items<Macro>,
    /// The names of the tables.
    pub tables: Items<Text>,
    /// How many rules were made by statements that each make more than one.
    pub expanded: u64,
    /// What the statements say.
    pub config: PfConfig,
}
