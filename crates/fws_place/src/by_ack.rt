//! Points that flags tell apart though ACK and RST are the same.

ghost use Rattle.std.specs.Prelude.{◌≡◌, false, Some, IfOk};
ghost use Rattle.fws_net.specs.Points.{tops_of};
ghost use Rattle.fws_net.specs.Routes.{IsSound};
ghost use Rattle.fws_place.specs.ByAck.{arrives_at, AreSoughtByMore, flags_pass, AreFoundFalse, AreFoundTold, IsArrivingWith, IsFalseWith};
ghost use Rattle.fws_tree.specs.Plain.{value};
ghost use Rattle.fws_place.specs.Kept.{IsKeptWhere};

use crate::ack_flags::ack_flags;
use crate::true_near::true_together;
use fws_box::{Field, Point};
use fws_iv::one;
use fws_net::{Site, tops};
use fws_num::Memory;
use fws_tree::Tree;
use fws_truth::fields::FLAGS;
use fws_truth::{kept_in, negated};
use std::alloc::Global;

// The field of flags.
const FLAGS_ALONE: u16 = FLAGS;

/// The tree that is true where this one is at packets that arrive. Fails if memory runs out.
pub(crate) fn arriving_in(
    alloc: Global,
    site: &Site,
    tree: &Tree<bool>,
) -> Result<Tree<bool>, Memory>
    requires sound { IsSound site.now }
    requires tops { tree.now.0 ≡ tops_of site.now }
    ensures tops { IfOk result (λ t. t.0 ≡ tops_of site.now) }
    ensures value { IfOk result (λ t. IsKeptWhere (tops_of site.now) arrives_at tree.now.1 t.1) }
{
    let entries = one(alloc, 1, tops(site)[Field::Entry as usize])?;
    kept_in(alloc, tree, Field::Entry, entries, false)
}

/// The tree that is true where this one is and flags have ACK or RST, or neither, as it is asked. Fails if memory runs out.
pub(crate) fn acknowledging_in(
    alloc: Global,
    site: &Site,
    tree: &Tree<bool>,
    asked: bool,
) -> Result<Tree<bool>, Memory>
    requires { tree.now.0 ≡ tops_of site.now }
    ensures tops { IfOk result (λ t. t.0 ≡ tops_of site.now) }
    ensures value { IfOk result (λ t. IsKeptWhere (tops_of site.now) (flags_pass asked) tree.now.1 t.1) }
{
    let flags = ack_flags(alloc, asked)?;
    kept_in(alloc, tree, Field::Flags, flags, false)
}

// The tree that is true where this one is at packets that arrive and have ACK or RST, or neither, as it is asked.
fn arriving_with(
    alloc: Global,
    site: &Site,
    tree: &Tree<bool>,
    asked: bool,
) -> Result<Tree<bool>, Memory>
    requires sound { IsSound site.now }
    requires tops { tree.now.0 ≡ tops_of site.now }
    ensures tops { IfOk result (λ t. t.0 ≡ tops_of site.now) }
    ensures value { IfOk result (λ t. IsArrivingWith asked (tops_of site.now) tree.now.1 t.1) }
{
    let arriving = arriving_in(alloc, site, tree)?;
    acknowledging_in(alloc, site, &arriving, asked)
}

// The tree that is true where this one is false and flags have ACK or RST, or neither, as it is asked.
fn false_with(
    alloc: Global,
    site: &Site,
    tree: &Tree<bool>,
    asked: bool,
) -> Result<Tree<bool>, Memory>
    requires { tree.now.0 ≡ tops_of site.now }
    ensures tops { IfOk result (λ t. t.0 ≡ tops_of site.now) }
    ensures value { IfOk result (λ t. IsFalseWith asked (tops_of site.now) tree.now.1 t.1) }
{
    let other = negated(alloc, tree)?;
    acknowledging_in(alloc, site, &other, asked)
}

/// Two points that agree in all but flags, at the first of which the one tree is true, and at the second, where flags have ACK or
/// RST, or neither, as it is asked, the other is false; if there are any. Fails if memory runs out.
pub(crate) fn false_near(
    alloc: Global,
    site: &Site,
    first: &Tree<bool>,
    tree: &Tree<bool>,
    asked: bool,
) -> Result<Option<(Point, Point)>, Memory>
    requires first { first.now.0 ≡ tops_of site.now }
    requires tops { tree.now.0 ≡ tops_of site.now }
    ensures { IfOk result (AreFoundFalse asked (tops_of site.now) first.now.1 tree.now.1) }
{
    let second = false_with(alloc, site, tree, asked)?;
    true_together(alloc, first, &second, FLAGS_ALONE)
}

// Two points of arriving packets that agree in all but flags, with ACK or RST, or without, as it is asked, of which the tree
// is true at the first and false at the second.
fn told_with(
    alloc: Global,
    site: &Site,
    tree: &Tree<bool>,
    asked: bool,
) -> Result<Option<(Point, Point)>, Memory>
    requires sound { IsSound site.now }
    requires tops { tree.now.0 ≡ tops_of site.now }
    ensures { IfOk result (AreFoundTold asked (tops_of site.now) tree.now.1) }
{
    let first = arriving_with(alloc, site, tree, asked)?;
    false_near(alloc, site, &first, tree, asked)
}

/// Two points of arriving packets that agree in all but flags, both with ACK or RST, or neither, of which the tree is true at the
/// first and false at the second, if there are any. Fails if memory runs out.
pub(crate) fn told_by_more(
    alloc: Global,
    site: &Site,
    tree: &Tree<bool>,
) -> Result<Option<(Point, Point)>, Memory>
    requires sound { IsSound site.now }
    requires tops { tree.now.0 ≡ tops_of site.now }
    ensures { IfOk result (AreSoughtByMore (tops_of site.now) tree.now.1) }
{
    if let Some(found) = told_with(alloc, site, tree, true)? {
        return Ok(Some(found));
    }
    told_with(alloc, site, tree, false)
}
