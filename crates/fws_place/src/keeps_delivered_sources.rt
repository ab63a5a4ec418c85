//! Whether the sources of delivered packets are kept.

ghost use Rattle.std.specs.Prelude.{◌≡◌, ◌^◌, ◌<◌, ◌≤◌, ℕ, List, Some, length, All, IfOk, MatchOption};
ghost use Rattle.fws_box.specs.Sides.{IsWithin};
ghost use Rattle.fws_net.specs.declared.outcome.Outcome.{Outcome};
ghost use Rattle.fws_net.specs.Points.{tops_of};
ghost use Rattle.fws_net.specs.Routes.{IsSound};
ghost use Rattle.fws_place.specs.declared.clause.Clause.TheVariants.{KeepsDeliveredSources};
ghost use Rattle.fws_place.specs.Delivered.{with_source, IsDelivered, IsDeliveredIn, NoneDelivered, AreAllSources, AreRightRows, IsFoundDelivered};
ghost use Rattle.fws_place.specs.Found.{IsSought};
ghost use Rattle.fws_tree.specs.Plain.{IsReduced};
ghost use Rattle.fws_tree.specs.Regular.{AreRegular};
ghost use Rattle.fws_tree.specs.Rows.{paths_of, row_hits};

use crate::breach::Pair;
use crate::delivering::{local_of, writes_addresses};
use crate::first_true::leasts;
use crate::point::packet_at;
use crate::values::next_value;
use fws_box::{Field, Point};
use fws_iv::Ivs;
use fws_net::{Outcome, Site, local_set, tops};
use fws_num::Memory;
use fws_tree::{Relabelling, Row, Tables, Tree};
use std::alloc::Global;

/// The outcomes that write a source, and drops for the others.
pub(crate) struct WithSource;

impl Relabelling<Outcome, Outcome> for WithSource {
    ghost use Rattle.fws_place.specs.Delivered.{with_source};

    ghost gives = { λ s o. with_source o };

    fn leaf(&self, _alloc: Global, leaf: &Outcome) -> Result<Outcome, Memory> {
        match leaf {
            Outcome::Drop => Ok(Outcome::Drop),
            Outcome::Accept(rewrite) => {
                if rewrite.src.is_some() {
                    return Ok(Outcome::Accept(*rewrite));
                }
                Ok(Outcome::Drop)
            }
        }
    }
}

// An entry and a destination with which packets of the row are sent to one of the addresses. Entries go up to the top.
fn delivered(local: &Ivs, top: u32, row: &Row<Outcome>) -> Option<(u32, u32)>
    requires { length row.now.sides ≡ 12 }
    ensures { MatchOption result (NoneDelivered local.now top row.now) (λ r. IsDelivered local.now row.now r.0 r.1 × (r.0 ≤ top) × (r.1 < 2 ^ 32)) }
{
    match row.leaf {
        Outcome::Drop => None,
        Outcome::Accept(rewrite) => {
            writes_addresses(rewrite.dst);
            match next_value(&row.sides[Field::Entry as usize], 1, top) {
                None => None,
                Some(entry) => match local_of(local, rewrite.dst, &row.sides[Field::Dst as usize]) {
                    None => None,
                    Some(dst) => Some((entry, dst)),
                },
            }
        }
    }
}

/// A point of a row whose packets are sent to one of the addresses with its entry and destination.
pub(crate) fn first_delivered(local: &Ivs, top: u32, rows: &[Row<Outcome>]) -> Option<Point>
    requires { All (λ row. length row.sides ≡ 12) rows.now }
    ensures { MatchOption result (All (NoneDelivered local.now top) rows.now) (IsDeliveredIn local.now top rows.now) }
{
    for row in rows {
        if let Some((entry, dst)) = delivered(local, top, row) {
            let mut point = leasts(&row.sides);
            point[Field::Entry as usize] = entry;
            point[Field::Dst as usize] = dst;
            return Some(point);
        }
    }
    None
}

/// A point of a row of the tree whose packets are sent to one of the addresses, with its entry and destination. Fails if memory
/// runs out.
pub(crate) fn delivered_in(
    alloc: Global,
    tree: &Tree<Outcome>,
    local: &Ivs,
    top: u32,
) -> Result<Option<Point>, Memory>
    ensures found { IfOk result (IsFoundDelivered local.now top (paths_of tree.now.0 tree.now.1)) }
    ensures once { IfOk result (λ found. (p : List ℕ) → IsWithin tree.now.0 p → row_hits (paths_of tree.now.0 tree.now.1) p ≡ 1) }
    ensures right { IfOk result (λ found. AreRightRows tree.now.0 tree.now.1 (paths_of tree.now.0 tree.now.1)) }
{
    let _tops = tree.tops();
    let rows = tree.paths(alloc)?;
    Ok(first_delivered(local, top, &rows))
}

// A new packet whose source is written in the tree of sources and that is delivered, if there is one.
fn delivered_among(
    alloc: Global,
    site: &Site,
    tables: &Tables,
    sources: &Tree<Outcome>,
) -> Result<Option<(Pair, Option<Pair>)>, Memory>
    requires sound { IsSound site.now }
    requires regular { AreRegular site.now tables.now }
    requires tops { sources.now.0 ≡ tops_of site.now }
    requires reduced { IsReduced sources.now.0 sources.now.1 }
    requires sources { AreAllSources site.now tables.now sources.now.1 }
    ensures { IfOk result (λ found. IsSought site.now tables.now KeepsDeliveredSources found) }
{
    let local = local_set(alloc, site)?;
    match delivered_in(alloc, sources, &local, tops(site)[Field::Entry as usize])? {
        Some(point) => {
            let packet = packet_at(&point);
            Ok(Some((Pair { packet, rec: None }, None)))
        }
        None => Ok(None),
    }
}

/// A new packet that is accepted, has a source written and is delivered, if there is one. Fails if memory runs out.
pub(crate) fn keeps_delivered_sources(
    alloc: Global,
    site: &Site,
    tables: &Tables,
) -> Result<Option<(Pair, Option<Pair>)>, Memory>
    requires sound { IsSound site.now }
    requires regular { AreRegular site.now tables.now }
    ensures { IfOk result (λ found. IsSought site.now tables.now KeepsDeliveredSources found) }
{
    let sources = tables.fresh.relabel(alloc, &WithSource)?;
    delivered_among(alloc, site, tables, &sources)
}
