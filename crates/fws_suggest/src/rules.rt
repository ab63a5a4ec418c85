//! Rules and lists of them.

use fws_diagram::Region;

/// A rule of a list: what lies in the region has the colour, unless an earlier rule decides.
#[derive(Clone, Copy, Debug, PartialEq, Eq)]
pub struct Rule {
    /// Where it decides.
    pub region: Region,
    /// What it decides.
    pub colour: u32,
}

/// A list of rules of which the first that holds decides.
#[derive(Drop)]
pub struct List {
    /// The rules, in their order.
    pub rules: Vec<Rule>,
    /// The colour of what no rule decides.
    pub default: u32,
    /// What it costs, in thousandths of a line.
    pub cost: u64,
}
