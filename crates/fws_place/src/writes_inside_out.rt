//! Whether sources are written from the inside to the outside alone.

ghost use Rattle.std.specs.Prelude.{◌≡◌, Some, IfOk};
ghost use Rattle.fws_box.specs.declared.field.Field.TheVariants as fields;
ghost use Rattle.fws_net.specs.declared.outcome.Outcome.{Outcome};
ghost use Rattle.fws_net.specs.declared.outcome.Outcome.TheVariants.{Drop};
ghost use Rattle.fws_net.specs.Points.{tops_of};
ghost use Rattle.fws_net.specs.Routes.{IsSound};
ghost use Rattle.fws_place.specs.declared.clause.Clause.TheVariants.{WritesInsideOut};
ghost use Rattle.fws_place.specs.Asked.{IsSoughtPacket};
ghost use Rattle.fws_place.specs.Crossing.{IsWrittenElsewhere, IsWrittenWithin};
ghost use Rattle.fws_place.specs.Delivered.{AreSources};
ghost use Rattle.fws_place.specs.Found.{IsSought};
ghost use Rattle.fws_place.specs.Rewritings.{is_inside, side_of};
ghost use Rattle.fws_place.specs.Seen.{Tells};
ghost use Rattle.fws_tree.specs.Plain.{value, IsReduced};
ghost use Rattle.fws_tree.specs.Regular.{AreRegular};
ghost use Rattle.fws_box.specs.Fields.{value_of};
ghost use Rattle.fws_place.specs.Kept.{HaveWhere};

use crate::asking::{Asked, accepted_with};
use crate::breach::Pair;
use crate::crossing::{inside_sides, not_outside};
use crate::keeps_delivered_sources::{WithSource, delivered_in};
use crate::naming::named_packet;
use crate::point::packet_at;
use fws_iv::Ivs;
use fws_net::{Outcome, Site, tops};
use fws_num::Memory;
use fws_tree::{Tables, Tree};
use std::alloc::Global;

// The tree that tells of each new packet whether a source is written over it and it doesn't come from the inside.
fn written_elsewhere(
    alloc: Global,
    site: &Site,
    tables: &Tables,
    inside: &[Ivs; 12],
) -> Result<Tree<bool>, Memory>
    requires regular { AreRegular site.now tables.now }
    requires inside { HaveWhere (tops_of site.now) (λ p. is_inside (side_of site.now (value_of p fields.Entry))) inside.now }
    ensures tops { IfOk result (λ t. t.0 ≡ tops_of site.now) }
    ensures tells { IfOk result (λ t. Tells site.now (λ p r. IsWrittenElsewhere site.now tables.now p) t.1) }
{
    let written = accepted_with(alloc, site, tables, Asked::Source)?;
    written.paint(alloc, inside, false)
}

// The tree of the outcomes of new packets from the inside that write a source, and drops for the others.
fn sources_within(
    alloc: Global,
    site: &Site,
    tables: &Tables,
    inside: &[Ivs; 12],
) -> Result<Tree<Outcome>, Memory>
    requires regular { AreRegular site.now tables.now }
    requires inside { HaveWhere (tops_of site.now) (λ p. is_inside (side_of site.now (value_of p fields.Entry))) inside.now }
    ensures tops { IfOk result (λ t. t.0 ≡ tops_of site.now) }
    ensures reduced { IfOk result (λ t. IsReduced t.0 t.1) }
    ensures value { IfOk result (λ t. AreSources site.now tables.now (λ entry. is_inside (side_of site.now entry)) t.1) }
{
    let sources = tables.fresh.relabel(alloc, &WithSource)?;
    sources.restrict(alloc, inside, Outcome::Drop)
}

// A new packet whose source is written in this tree and that doesn't leave to the outside, if there is one.
fn written_among(
    alloc: Global,
    site: &Site,
    tables: &Tables,
    within: &Tree<Outcome>,
) -> Result<Option<(Pair, Option<Pair>)>, Memory>
    requires sound { IsSound site.now }
    requires regular { AreRegular site.now tables.now }
    requires tops { within.now.0 ≡ tops_of site.now }
    requires reduced { IsReduced within.now.0 within.now.1 }
    requires within { AreSources site.now tables.now (λ entry. is_inside (side_of site.now entry)) within.now.1 }
    ensures { IfOk result (IsSoughtPacket site.now (IsWrittenWithin site.now tables.now)) }
{
    let rest = not_outside(alloc, site)?;
    match delivered_in(alloc, within, &rest, tops(site)[0])? {
        Some(point) => {
            let packet = packet_at(&point);
            Ok(Some((Pair { packet, rec: None }, None)))
        }
        None => Ok(None),
    }
}

// A new packet from the inside that is accepted, has a source written and doesn't leave to the outside, if there is one.
fn written_within(
    alloc: Global,
    site: &Site,
    tables: &Tables,
    inside: &[Ivs; 12],
) -> Result<Option<(Pair, Option<Pair>)>, Memory>
    requires sound { IsSound site.now }
    requires regular { AreRegular site.now tables.now }
    requires inside { HaveWhere (tops_of site.now) (λ p. is_inside (side_of site.now (value_of p fields.Entry))) inside.now }
    ensures { IfOk result (IsSoughtPacket site.now (IsWrittenWithin site.now tables.now)) }
{
    let within = sources_within(alloc, site, tables, inside)?;
    written_among(alloc, site, tables, &within)
}

// A new packet that is accepted, has a source written and doesn't come from the inside, if there is one.
fn written_outside(
    alloc: Global,
    site: &Site,
    tables: &Tables,
    inside: &[Ivs; 12],
) -> Result<Option<(Pair, Option<Pair>)>, Memory>
    requires sound { IsSound site.now }
    requires regular { AreRegular site.now tables.now }
    requires inside { HaveWhere (tops_of site.now) (λ p. is_inside (side_of site.now (value_of p fields.Entry))) inside.now }
    ensures { IfOk result (IsSoughtPacket site.now (IsWrittenElsewhere site.now tables.now)) }
{
    let elsewhere = written_elsewhere(alloc, site, tables, inside)?;
    named_packet(alloc, site, &elsewhere)
}

// A new packet that breaks the clause, by what comes from the inside.
fn written_by(
    alloc: Global,
    site: &Site,
    tables: &Tables,
    inside: &[Ivs; 12],
) -> Result<Option<(Pair, Option<Pair>)>, Memory>
    requires sound { IsSound site.now }
    requires regular { AreRegular site.now tables.now }
    requires inside { HaveWhere (tops_of site.now) (λ p. is_inside (side_of site.now (value_of p fields.Entry))) inside.now }
    ensures { IfOk result (λ found. IsSought site.now tables.now WritesInsideOut found) }
{
    if let Some(found) = written_outside(alloc, site, tables, inside)? {
        return Ok(Some(found));
    }
    written_within(alloc, site, tables, inside)
}

/// A new packet that is accepted and has a source written, and doesn't come from the inside or doesn't leave to the outside, if
/// there is one. Fails if memory runs out.
pub(crate) fn writes_inside_out(
    alloc: Global,
    site: &Site,
    tables: &Tables,
) -> Result<Option<(Pair, Option<Pair>)>, Memory>
    requires sound { IsSound site.now }
    requires regular { AreRegular site.now tables.now }
    ensures { IfOk result (λ found. IsSought site.now tables.now WritesInsideOut found) }
{
    let inside = inside_sides(alloc, site)?;
    written_by(alloc, site, tables, &inside)
}
