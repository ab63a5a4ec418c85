//! Packets with ACK or RST that are dropped when they are new, though established ones are accepted.

ghost use Rattle.std.specs.Prelude.{◌≡◌, ◌^◌, ◌<◌, true, false, ℕ, IfOk};
ghost use Rattle.fws_iv.specs.Ivs.{has};
ghost use Rattle.fws_net.specs.Points.{tops_of};
ghost use Rattle.fws_net.specs.Routes.{IsSound};
ghost use Rattle.fws_place.specs.ByAck.{is_found, is_first_test, is_found_tcp, AreFoundAhead, IsFirstOf, IsFirstWithAck};
ghost use Rattle.fws_tree.specs.Plain.{value};
ghost use Rattle.fws_place.specs.Kept.{IsKeptWhere};

use crate::by_ack::{acknowledging_in, arriving_in, false_near};
use fws_box::{Field, Point};
use fws_iv::{Ivs, one};
use fws_net::{Site, local_set};
use fws_num::Memory;
use fws_tree::Tree;
use fws_truth::{kept_in, without};
use std::alloc::Global;

// The number of TCP.
const TCP: u32 = 6;

// The destinations whose packets aren't lost.
fn found_set(alloc: Global, site: &Site) -> Result<Ivs, Memory>
    ensures { IfOk result (λ s. (a : ℕ) → a < 2 ^ 32 → has s a ≡ is_found site.now a) }
{
    if site.forwarding {
        return one(alloc, 0, u32::MAX);
    }
    local_set(alloc, site)
}

// The tree that is true where this one is and packets are of TCP and aren't lost.
fn found_in(alloc: Global, site: &Site, tree: &Tree<bool>) -> Result<Tree<bool>, Memory>
    requires { tree.now.0 ≡ tops_of site.now }
    ensures tops { IfOk result (λ t. t.0 ≡ tops_of site.now) }
    ensures value { IfOk result (λ t. IsKeptWhere (tops_of site.now) (is_found_tcp site.now) tree.now.1 t.1) }
{
    let found = kept_in(alloc, tree, Field::Dst, found_set(alloc, site)?, false)?;
    kept_in(alloc, &found, Field::Proto, one(alloc, TCP, TCP)?, false)
}

// The tree that is true where this one is and packets arrive, are of TCP and aren't lost.
fn arriving_found(alloc: Global, site: &Site, tree: &Tree<bool>) -> Result<Tree<bool>, Memory>
    requires sound { IsSound site.now }
    requires tops { tree.now.0 ≡ tops_of site.now }
    ensures tops { IfOk result (λ t. t.0 ≡ tops_of site.now) }
    ensures value { IfOk result (λ t. IsKeptWhere (tops_of site.now) (is_first_test site.now) tree.now.1 t.1) }
{
    let found = found_in(alloc, site, tree)?;
    arriving_in(alloc, site, &found)
}

// The tree that is true at the first of the points that are sought.
fn first_of(
    alloc: Global,
    site: &Site,
    sometimes: &Tree<bool>,
    new: &Tree<bool>,
) -> Result<Tree<bool>, Memory>
    requires sound { IsSound site.now }
    requires tops { sometimes.now.0 ≡ tops_of site.now }
    requires new_tops { new.now.0 ≡ tops_of site.now }
    ensures tops { IfOk result (λ t. t.0 ≡ tops_of site.now) }
    ensures value { IfOk result (λ t. IsFirstOf site.now sometimes.now.1 new.now.1 t.1) }
{
    let both = without(alloc, sometimes, new)?;
    arriving_found(alloc, site, &both)
}

// The tree that is true at the first of the points that are sought where flags have ACK or RST.
fn first_with_ack(
    alloc: Global,
    site: &Site,
    sometimes: &Tree<bool>,
    new: &Tree<bool>,
) -> Result<Tree<bool>, Memory>
    requires sound { IsSound site.now }
    requires tops { sometimes.now.0 ≡ tops_of site.now }
    requires new_tops { new.now.0 ≡ tops_of site.now }
    ensures tops { IfOk result (λ t. t.0 ≡ tops_of site.now) }
    ensures value { IfOk result (λ t. IsFirstWithAck site.now sometimes.now.1 new.now.1 t.1) }
{
    let such = first_of(alloc, site, sometimes, new)?;
    acknowledging_in(alloc, site, &such, true)
}

/// Two points of packets of TCP that arrive and agree in all but flags: with ACK or RST one tree is true and the other false,
/// though the packet isn't lost, and without them the first is false; if there are any. Fails if memory runs out.
pub(crate) fn ahead_at(
    alloc: Global,
    site: &Site,
    sometimes: &Tree<bool>,
    new: &Tree<bool>,
) -> Result<Option<(Point, Point)>, Memory>
    requires sound { IsSound site.now }
    requires tops { sometimes.now.0 ≡ tops_of site.now }
    requires new_tops { new.now.0 ≡ tops_of site.now }
    ensures { IfOk result (AreFoundAhead site.now sometimes.now.1 new.now.1) }
{
    let first = first_with_ack(alloc, site, sometimes, new)?;
    false_near(alloc, site, &first, sometimes, false)
}
