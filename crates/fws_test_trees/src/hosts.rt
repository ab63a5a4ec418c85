//! Trees about one host over the tops of a site.

ghost use Rattle.std.specs.Prelude.{◌≡◌, IfOk};

use crate::agreeing::value_near;
use crate::tally::Tally;
use fws_box::{Point, no_sides, whole_sides};
use fws_iv::{Ivs, one};
use fws_net::Outcome;
use fws_num::Memory;
use fws_tree::{Row, Tree, from_rows};
use std::alloc::Global;

/// The greatest value of each field at a site of two interfaces.
const TOPS: Point = [
    3,
    255,
    u32::MAX,
    65535,
    u32::MAX,
    65535,
    63,
    255,
    u32::MAX,
    65535,
    u32::MAX,
    65535,
];

/// 10.0.0.5, and the addresses before and behind it.
const HOST: u32 = 167_772_165;

const BEFORE: Point = [2, 6, HOST - 1, 22, 7, 1024, 2, 0, 0, 0, 0, 0];

const AT: Point = [2, 6, HOST, 22, 7, 1024, 2, 0, 0, 0, 0, 0];

const BEHIND: Point = [2, 6, HOST + 1, 22, 7, 1024, 2, 0, 0, 0, 0, 0];

/// The bit of the destination.
const DESTINATION: u16 = 4;

/// Keeps the points with the host as destination.
fn keep_host(alloc: Global, sides: &mut [Ivs; 12]) -> Result<(), Memory> {
    sides[2] = one(alloc, HOST, HOST)?;
    Ok(())
}

/// The points with the host as destination.
fn host_sides(alloc: Global) -> Result<[Ivs; 12], Memory> {
    let mut sides = whole_sides(alloc, &TOPS)?;
    keep_host(alloc, &mut sides)?;
    Ok(sides)
}

/// The tree that is true exactly at the host.
fn host_tree(alloc: Global) -> Result<Tree<bool>, Memory> {
    let mut rows = Vec::new(alloc);
    rows.push(Row {
        sides: host_sides(alloc)?,
        leaf: true,
    })?;
    from_rows(alloc, &TOPS, rows.as_slice(), false)
}

/// The tree with one leaf.
fn leaf_tree(alloc: Global, leaf: bool) -> Result<Tree<bool>, Memory>
    ensures { IfOk result (λ t. t.0 ≡ TOPS) }
{
    let rows = Vec::new(alloc);
    from_rows(alloc, &TOPS, rows.as_slice(), leaf)
}

/// Whether the tree is true at the host alone, and has two leaves and one cut.
fn is_at_host(tree: &Tree<bool>) -> bool {
    tree.nodes() == 3
        && !*value_near(tree, &BEFORE)
        && *value_near(tree, &AT)
        && !*value_near(tree, &BEHIND)
}

/// Whether the tree is this leaf alone.
fn is_leaf(tree: &Tree<bool>, leaf: bool) -> bool {
    tree.nodes() == 1 && *value_near(tree, &AT) == leaf
}

/// The tree that drops all packets.
fn dropping_tree(alloc: Global) -> Result<Tree<Outcome>, Memory>
    ensures { IfOk result (λ t. t.0 ≡ TOPS) }
{
    let rows = Vec::new(alloc);
    from_rows(alloc, &TOPS, rows.as_slice(), Outcome::Drop)
}

/// The pair of true and a tree.
fn pair_with(alloc: Global, tree: &Tree<Outcome>) -> Result<Tree<(bool, Outcome)>, Memory>
    requires { tree.now.0 ≡ TOPS }
{
    let leaf = leaf_tree(alloc, true)?;
    leaf.pair(alloc, tree)
}

/// The pair of true and Drop.
fn pair_of_leaves(alloc: Global) -> Result<Tree<(bool, Outcome)>, Memory> {
    let dropping = dropping_tree(alloc)?;
    pair_with(alloc, &dropping)
}

/// Whether the pair of true and Drop is one leaf.
fn pair_is_leaf(alloc: Global) -> Result<bool, Memory> {
    let pair = pair_of_leaves(alloc)?;
    Ok(pair.nodes() == 1 && *value_near(&pair, &AT) == (true, Outcome::Drop))
}

/// Whether the tree is true wherever there is a destination.
fn is_everywhere(alloc: Global, tree: &Tree<bool>) -> Result<bool, Memory> {
    let tree = tree.exists(alloc, DESTINATION)?;
    Ok(is_leaf(&tree, true))
}

/// Whether the tree is true at the host alone, somewhere in the other fields.
fn is_there_by_destination(alloc: Global, tree: &Tree<bool>) -> Result<bool, Memory> {
    let tree = tree.exists(alloc, 0x0fff ^ DESTINATION)?;
    Ok(is_at_host(&tree))
}

/// Whether the tree has the value true at the host alone.
fn is_true_there(alloc: Global, tree: &Tree<bool>) -> Result<bool, Memory> {
    let tree = tree.select(alloc, &true)?;
    Ok(is_at_host(&tree))
}

/// Tries a tree that is true at the host alone, somewhere in some of its fields.
fn try_somewhere(alloc: Global, tally: &mut Tally, tree: &Tree<bool>) -> Result<(), Memory> {
    tally.count(is_at_host(tree));
    tally.count(is_everywhere(alloc, tree)?);
    tally.count(is_there_by_destination(alloc, tree)?);
    tally.count(is_true_there(alloc, tree)?);
    Ok(())
}

/// Tries the host's tree, somewhere in some of its fields.
fn try_exists(alloc: Global, tally: &mut Tally) -> Result<(), Memory> {
    let tree = host_tree(alloc)?;
    try_somewhere(alloc, tally, &tree)
}

/// The tree of one leaf, changed to the other within the sides.
fn painted(alloc: Global, sides: &[Ivs; 12]) -> Result<Tree<bool>, Memory> {
    let tree = leaf_tree(alloc, false)?;
    tree.paint(alloc, sides, true)
}

/// The tree of the other leaf, changed to the first outside the sides.
fn restricted(alloc: Global, sides: &[Ivs; 12]) -> Result<Tree<bool>, Memory> {
    let tree = leaf_tree(alloc, true)?;
    tree.restrict(alloc, sides, false)
}

/// Tries whether painting the sides gives the host's tree.
fn try_painting(alloc: Global, tally: &mut Tally, sides: &[Ivs; 12]) -> Result<(), Memory> {
    let painted = painted(alloc, sides)?;
    tally.count(is_at_host(&painted));
    Ok(())
}

/// Tries whether restricting to the sides gives the host's tree.
fn try_restricting(alloc: Global, tally: &mut Tally, sides: &[Ivs; 12]) -> Result<(), Memory> {
    let restricted = restricted(alloc, sides)?;
    tally.count(is_at_host(&restricted));
    Ok(())
}

/// Tries to make the host's tree of one leaf.
fn try_changes(alloc: Global, tally: &mut Tally) -> Result<(), Memory> {
    let sides = host_sides(alloc)?;
    try_painting(alloc, tally, &sides)?;
    try_restricting(alloc, tally, &sides)
}

/// Tries to restrict a tree to no point.
fn try_keeping_none(alloc: Global, tally: &mut Tally, none: &[Ivs; 12]) -> Result<(), Memory> {
    let restricted = restricted(alloc, none)?;
    tally.count(is_leaf(&restricted, false));
    Ok(())
}

/// Tries to paint a tree at no point.
fn try_painting_none(alloc: Global, tally: &mut Tally, none: &[Ivs; 12]) -> Result<(), Memory> {
    let tree = host_tree(alloc)?;
    tally.count(is_still_at_host(alloc, &tree, none)?);
    Ok(())
}

/// Whether the tree is true at the host alone where it is painted there.
fn is_still_at_host(alloc: Global, tree: &Tree<bool>, none: &[Ivs; 12]) -> Result<bool, Memory> {
    let painted = tree.paint(alloc, none, true)?;
    Ok(is_at_host(&painted))
}

/// Tries to change trees at no point.
fn try_nothing(alloc: Global, tally: &mut Tally) -> Result<(), Memory> {
    let none = no_sides(alloc);
    try_keeping_none(alloc, tally, &none)?;
    try_painting_none(alloc, tally, &none)
}

/// Tries trees that are true at the host alone, and what is made of them.
pub fn try_hosts(alloc: Global) -> Result<Tally, Memory> {
    let mut tally = Tally::new();
    try_exists(alloc, &mut tally)?;
    try_changes(alloc, &mut tally)?;
    try_nothing(alloc, &mut tally)?;
    tally.count(pair_is_leaf(alloc)?);
    Ok(tally)
}
