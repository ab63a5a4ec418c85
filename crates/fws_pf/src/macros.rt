//! Macros (pf.conf(5)).

use fws_num::{Items, Text, Word};

/// A macro.
#[derive(Drop)]
pub struct Macro {
    /// Its name.
    pub name: Text,
    /// The words that stand for it.
    pub words: Items<Word>,
}
