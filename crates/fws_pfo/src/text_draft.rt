//! What was read so far of a text.

use crate::config::PfoConfig;
use fws_net::End;
use fws_num::{Items, Text};
use fws_pf::Macro;

/// What was read so far of a text.
#[derive(Drop)]
pub struct PfoDraft {
    /// The macros, each name once.
    pub macros: Items<Macro>,
    /// The names of the tables.
    pub tables: Items<Text>,
    /// How many rules were made by statements that each make more than one.
    pub expanded: u64,
    /// The ends of `pass` rules, each once, in the order in which the text first has them.
    pub ends: Items<End>,
    /// What the statements say.
    pub config: PfoConfig,
}
