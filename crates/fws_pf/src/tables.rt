//! Tables of addresses (pf.conf(5)).

use fws_iv::Ivs;
use fws_num::{Items, Text};

/// A table as a text defines it.
#[derive(Drop)]
pub struct Table {
    /// Its name.
    pub name: Text,
    /// The addresses that stand in it.
    pub own: Ivs,
    /// The names of the tables that stand in it.
    pub named: Items<Text>,
}
