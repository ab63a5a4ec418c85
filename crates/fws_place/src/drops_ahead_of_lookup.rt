//! Whether ipfw can drop established packets ahead of the look-up of connections.

ghost use Rattle.std.specs.Prelude.{◌≡◌, true, false, ◌&&◌, ◌||◌, not, nat_eq, Some, IfOk};
ghost use Rattle.fws_box.specs.declared.field.Field.TheVariants as fields;
ghost use Rattle.fws_net.specs.Points.{tops_of};
ghost use Rattle.fws_net.specs.Routes.{IsSound, is_local};
ghost use Rattle.fws_place.specs.declared.clause.Clause.TheVariants.{DropsAheadOfLookup};
ghost use Rattle.fws_place.specs.AheadOfLookup.{exchanged, exchanged_row, exchanged_rows, passes, stays, IsAcceptedNew, IsAcceptedNewAlike, IsDroppedOfAlike, IsDroppedOfPacket, IsSoughtAmong, IsExchanged};
ghost use Rattle.fws_place.specs.Clauses.{BreaksAheadOfLookup};
ghost use Rattle.fws_place.specs.Found.{IsSought};
ghost use Rattle.fws_place.specs.Pairs.{is_host};
ghost use Rattle.fws_place.specs.Seen.{IsAcceptedPair, IsAcceptedSomewhere, IsAcceptedAlike, Tells};
ghost use Rattle.fws_tree.specs.Plain.{value};
ghost use Rattle.fws_tree.specs.Regular.{AreRegular};
ghost use Rattle.fws_box.specs.Fields.{value_of};
ghost use Rattle.fws_place.specs.Kept.{AreMixed, HaveWhere, IsKeptWhere};
ghost use Rattle.fws_place.specs.ByAck.{arrives_at};

use crate::breach::Pair;
use crate::lost::passing_sides;
use crate::naming::named_pair;
use crate::seeing::{Accepting, accepted, seen};
use fws_box::{Field, copy_sides, whole_sides};
use fws_iv::{Ivs, one};
use fws_net::{Site, local_set, tops};
use fws_num::Memory;
use fws_tree::{Relabelling, Row, Tables, Tree, from_rows};
use fws_truth::both;
use std::alloc::Global;

/// The sides of the host's packets. Fails if memory runs out.
pub(crate) fn host_sides(alloc: Global, site: &Site) -> Result<[Ivs; 12], Memory>
    requires { IsSound site.now }
    ensures { IfOk result (HaveWhere (tops_of site.now) (λ p. nat_eq (value_of p fields.Entry) 0)) }
{
    let tops = tops(site);
    let mut sides = whole_sides(alloc, &tops)?;
    sides[Field::Entry as usize] = one(alloc, 0, 0)?;
    Ok(sides)
}

// The sides of the pairs that arrive and are delivered.
fn staying_sides(alloc: Global, site: &Site) -> Result<[Ivs; 12], Memory>
    requires { IsSound site.now }
    ensures { IfOk result (HaveWhere (tops_of site.now) (λ p. arrives_at p && is_local site.now (value_of p fields.SentDst))) }
{
    let tops = tops(site);
    let mut sides = whole_sides(alloc, &tops)?;
    sides[Field::Entry as usize] = one(alloc, 1, tops[Field::Entry as usize])?;
    sides[Field::SentDst as usize] = local_set(alloc, site)?;
    Ok(sides)
}

/// The tree that tells of each pair whether its packet is accepted when it is new. Fails if memory runs out.
pub(crate) fn accepted_new(
    alloc: Global,
    site: &Site,
    tables: &Tables,
) -> Result<Tree<bool>, Memory>
    requires { AreRegular site.now tables.now }
    ensures tops { IfOk result (λ t. t.0 ≡ tops_of site.now) }
    ensures tells { IfOk result (λ t. Tells site.now (λ p r. IsAcceptedNew tables.now p) t.1) }
{
    tables.fresh.relabel(alloc, &Accepting)
}

// The row with the sides of both destinations in each other's place.
fn exchanged_row(alloc: Global, row: &Row<bool>) -> Result<Row<bool>, Memory>
    ensures { IfOk result (λ r. r ≡ exchanged_row row.now) }
{
    let mut sides = copy_sides(alloc, &row.sides)?;
    sides.swap(Field::Dst as usize, Field::SentDst as usize);
    sides.swap(Field::Dport as usize, Field::SentDport as usize);
    Ok(Row {
        sides,
        leaf: row.leaf,
    })
}

// The rows that are true, with the sides of both destinations in each other's place.
fn exchanged_rows(alloc: Global, rows: &[Row<bool>]) -> Result<Vec<Row<bool>>, Memory>
    ensures { IfOk result (λ made. made.items ≡ exchanged_rows rows.now) }
{
    let mut made = Vec::new(alloc);
    for row in rows {
        if row.leaf {
            made.push(exchanged_row(alloc, row)?)?;
        }
    }
    Ok(made)
}

// The tree with the values of this one where both destinations are in each other's place.
fn exchanged(alloc: Global, tree: &Tree<bool>) -> Result<Tree<bool>, Memory>
    ensures tops { IfOk result (λ t. t.0 ≡ tree.now.0) }
    ensures value { IfOk result (λ t. IsExchanged tree.now.0 tree.now.1 t.1) }
{
    let tops = tree.tops();
    let paths = tree.paths(alloc)?;
    let rows = exchanged_rows(alloc, &paths)?;
    from_rows(alloc, tops, &rows, false)
}

// The tree that is this one at the host's packets and false elsewhere.
fn of_host(alloc: Global, site: &Site, tree: &Tree<bool>) -> Result<Tree<bool>, Memory>
    requires sound { IsSound site.now }
    requires tops { tree.now.0 ≡ tops_of site.now }
    ensures tops { IfOk result (λ t. t.0 ≡ tops_of site.now) }
    ensures value { IfOk result (λ t. IsKeptWhere (tops_of site.now) (λ q. nat_eq (value_of q fields.Entry) 0) tree.now.1 t.1) }
{
    let sides = host_sides(alloc, site)?;
    tree.restrict(alloc, &sides, false)
}

// The tree that tells of each pair whether it is one of the host's and its packet is accepted when it is new.
fn accepted_new_of_host(alloc: Global, site: &Site, tables: &Tables) -> Result<Tree<bool>, Memory>
    requires sound { IsSound site.now }
    requires regular { AreRegular site.now tables.now }
    ensures tops { IfOk result (λ t. t.0 ≡ tops_of site.now) }
    ensures tells { IfOk result (λ t. Tells site.now (λ p r. (is_host p ≡ true) × IsAcceptedNew tables.now p) t.1) }
{
    let all = accepted_new(alloc, site, tables)?;
    of_host(alloc, site, &all)
}

// The tree that tells of each pair of the host whether the new packet that looks like it is accepted. Rows for the
// host's packets are enough for it.
fn accepted_new_alike(alloc: Global, site: &Site, tables: &Tables) -> Result<Tree<bool>, Memory>
    requires sound { IsSound site.now }
    requires regular { AreRegular site.now tables.now }
    ensures tops { IfOk result (λ t. t.0 ≡ tops_of site.now) }
    ensures tells { IfOk result (λ t. Tells site.now (IsAcceptedNewAlike tables.now) t.1) }
{
    let host = accepted_new_of_host(alloc, site, tables)?;
    exchanged(alloc, &host)
}

/// Whether a pair is dropped and has one of two properties. A leaf tells whether the pair is accepted, and of both.
struct DroppedWithEither;

impl Relabelling<(bool, (bool, bool)), bool> for DroppedWithEither {
    ghost use Rattle.std.specs.Prelude.{◌&&◌, ◌||◌, not};

    ghost gives = { λ s leaf. not leaf.0 && (leaf.1.0 || leaf.1.1) };

    fn leaf(&self, _alloc: Global, leaf: &(bool, (bool, bool))) -> Result<bool, Memory> {
        Ok(!leaf.0 && (leaf.1.0 || leaf.1.1))
    }
}

/// The tree whose values are those of three. Fails if memory runs out.
pub(crate) fn together(
    alloc: Global,
    first: &Tree<bool>,
    second: &Tree<bool>,
    third: &Tree<bool>,
) -> Result<Tree<(bool, (bool, bool))>, Memory>
    requires second { second.now.0 ≡ first.now.0 }
    requires third { third.now.0 ≡ first.now.0 }
    ensures tops { IfOk result (λ t. t.0 ≡ first.now.0) }
    ensures value { IfOk result (λ t. AreMixed (λ a b c. (a, (b, c))) first.now.0 first.now.1 second.now.1 third.now.1 t.1) }
{
    let both = second.pair(alloc, third)?;
    first.pair(alloc, &both)
}

// The tree that is true where the first one is false and one of the others is true.
fn dropped_with_either(
    alloc: Global,
    accepted: &Tree<bool>,
    first: &Tree<bool>,
    second: &Tree<bool>,
) -> Result<Tree<bool>, Memory>
    requires first { first.now.0 ≡ accepted.now.0 }
    requires second { second.now.0 ≡ accepted.now.0 }
    ensures tops { IfOk result (λ t. t.0 ≡ accepted.now.0) }
    ensures value { IfOk result (λ t. AreMixed (λ a b c. not a && (b || c)) accepted.now.0 accepted.now.1 first.now.1 second.now.1 t.1) }
{
    let all = together(alloc, accepted, first, second)?;
    all.relabel(alloc, &DroppedWithEither)
}

// The tree that tells of each pair whether it is dropped, though one that looks like it is accepted, or the new packet
// that looks like it.
fn dropped_of_alike(
    alloc: Global,
    site: &Site,
    tables: &Tables,
    accepted: &Tree<bool>,
    behind: &Tree<bool>,
) -> Result<Tree<bool>, Memory>
    requires sound { IsSound site.now }
    requires regular { AreRegular site.now tables.now }
    requires accepted_tops { accepted.now.0 ≡ tops_of site.now }
    requires accepted { Tells site.now (IsAcceptedPair tables.now) accepted.now.1 }
    requires behind_tops { behind.now.0 ≡ tops_of site.now }
    requires behind { Tells site.now (IsAcceptedAlike site.now tables.now) behind.now.1 }
    ensures tops { IfOk result (λ t. t.0 ≡ tops_of site.now) }
    ensures tells { IfOk result (λ t. Tells site.now (IsDroppedOfAlike site.now tables.now) t.1) }
{
    let alike = accepted_new_alike(alloc, site, tables)?;
    dropped_with_either(alloc, accepted, behind, &alike)
}

// The tree that tells of each pair whether it is one of the host's and breaks the clause.
fn breaking_of_host(
    alloc: Global,
    site: &Site,
    tables: &Tables,
    dropped: &Tree<bool>,
) -> Result<Tree<bool>, Memory>
    requires sound { IsSound site.now }
    requires regular { AreRegular site.now tables.now }
    requires tops { dropped.now.0 ≡ tops_of site.now }
    requires dropped { Tells site.now (IsDroppedOfAlike site.now tables.now) dropped.now.1 }
    ensures tops { IfOk result (λ t. t.0 ≡ tops_of site.now) }
    ensures tells { IfOk result (λ t. Tells site.now (λ p r. (is_host p ≡ true) × BreaksAheadOfLookup site.now tables.now p r) t.1) }
{
    let sides = host_sides(alloc, site)?;
    dropped.restrict(alloc, &sides, false)
}

// A pair of the host that breaks the clause: it is dropped, and a pair or a new packet that looks like it is accepted.
fn among_host(
    alloc: Global,
    site: &Site,
    tables: &Tables,
    accepted: &Tree<bool>,
    behind: &Tree<bool>,
) -> Result<Option<(Pair, Option<Pair>)>, Memory>
    requires sound { IsSound site.now }
    requires regular { AreRegular site.now tables.now }
    requires accepted_tops { accepted.now.0 ≡ tops_of site.now }
    requires accepted { Tells site.now (IsAcceptedPair tables.now) accepted.now.1 }
    requires behind_tops { behind.now.0 ≡ tops_of site.now }
    requires behind { Tells site.now (IsAcceptedAlike site.now tables.now) behind.now.1 }
    ensures { IfOk result (IsSoughtAmong site.now tables.now (λ p r. is_host p)) }
{
    let dropped = dropped_of_alike(alloc, site, tables, accepted, behind)?;
    let breaking = breaking_of_host(alloc, site, tables, &dropped)?;
    named_pair(alloc, site, &breaking)
}

/// The tree that tells of each pair whether it is dropped though its packet is accepted, in some connection or when it is new.
/// Fails if memory runs out.
pub(crate) fn dropped_of_packet(
    alloc: Global,
    site: &Site,
    tables: &Tables,
    accepted: &Tree<bool>,
    packet: &Tree<bool>,
) -> Result<Tree<bool>, Memory>
    requires regular { AreRegular site.now tables.now }
    requires accepted_tops { accepted.now.0 ≡ tops_of site.now }
    requires accepted { Tells site.now (IsAcceptedPair tables.now) accepted.now.1 }
    requires packet_tops { packet.now.0 ≡ tops_of site.now }
    requires packet { Tells site.now (λ p r. IsAcceptedSomewhere site.now tables.now p) packet.now.1 }
    ensures tops { IfOk result (λ t. t.0 ≡ tops_of site.now) }
    ensures tells { IfOk result (λ t. Tells site.now (IsDroppedOfPacket site.now tables.now) t.1) }
{
    let new = accepted_new(alloc, site, tables)?;
    dropped_with_either(alloc, accepted, packet, &new)
}

// A pair that is delivered and breaks the clause: it is dropped though its packet is accepted.
fn among_staying(
    alloc: Global,
    site: &Site,
    tables: &Tables,
    dropped: &Tree<bool>,
) -> Result<Option<(Pair, Option<Pair>)>, Memory>
    requires sound { IsSound site.now }
    requires regular { AreRegular site.now tables.now }
    requires tops { dropped.now.0 ≡ tops_of site.now }
    requires dropped { Tells site.now (IsDroppedOfPacket site.now tables.now) dropped.now.1 }
    ensures { IfOk result (IsSoughtAmong site.now tables.now (stays site.now)) }
{
    let sides = staying_sides(alloc, site)?;
    let breaking = dropped.restrict(alloc, &sides, false)?;
    named_pair(alloc, site, &breaking)
}

// The tree that tells of each pair whether it is forwarded and breaks the clause, of those that are dropped though their packet
// is accepted and some pair that looks like them.
fn passing_of(
    alloc: Global,
    site: &Site,
    _tables: &Tables,
    seen: &Tree<bool>,
) -> Result<Tree<bool>, Memory>
    requires sound { IsSound site.now }
    requires regular { AreRegular site.now _tables.now }
    requires forwarding { site.now.forwarding ≡ true }
    requires tops { seen.now.0 ≡ tops_of site.now }
    requires seen { Tells site.now (λ p r. IsDroppedOfPacket site.now _tables.now p r × IsAcceptedAlike site.now _tables.now p r) seen.now.1 }
    ensures tops { IfOk result (λ t. t.0 ≡ tops_of site.now) }
    ensures tells { IfOk result (λ t. Tells site.now (λ p r. (passes site.now p r ≡ true) × BreaksAheadOfLookup site.now _tables.now p r) t.1) }
{
    let sides = passing_sides(alloc, site)?;
    seen.restrict(alloc, &sides, false)
}

// The tree that tells of each pair whether it is forwarded and breaks the clause.
fn breaking_of_passing(
    alloc: Global,
    site: &Site,
    tables: &Tables,
    dropped: &Tree<bool>,
    behind: &Tree<bool>,
) -> Result<Tree<bool>, Memory>
    requires sound { IsSound site.now }
    requires regular { AreRegular site.now tables.now }
    requires forwarding { site.now.forwarding ≡ true }
    requires tops { dropped.now.0 ≡ tops_of site.now }
    requires dropped { Tells site.now (IsDroppedOfPacket site.now tables.now) dropped.now.1 }
    requires behind_tops { behind.now.0 ≡ tops_of site.now }
    requires behind { Tells site.now (IsAcceptedAlike site.now tables.now) behind.now.1 }
    ensures tops { IfOk result (λ t. t.0 ≡ tops_of site.now) }
    ensures tells { IfOk result (λ t. Tells site.now (λ p r. (passes site.now p r ≡ true) × BreaksAheadOfLookup site.now tables.now p r) t.1) }
{
    let seen = both(alloc, dropped, behind)?;
    passing_of(alloc, site, tables, &seen)
}

// A pair that is forwarded and breaks the clause: it is dropped though its packet is accepted, and so is some pair that
// looks like it.
fn among_passing(
    alloc: Global,
    site: &Site,
    tables: &Tables,
    dropped: &Tree<bool>,
    behind: &Tree<bool>,
) -> Result<Option<(Pair, Option<Pair>)>, Memory>
    requires sound { IsSound site.now }
    requires regular { AreRegular site.now tables.now }
    requires tops { dropped.now.0 ≡ tops_of site.now }
    requires dropped { Tells site.now (IsDroppedOfPacket site.now tables.now) dropped.now.1 }
    requires behind_tops { behind.now.0 ≡ tops_of site.now }
    requires behind { Tells site.now (IsAcceptedAlike site.now tables.now) behind.now.1 }
    ensures { IfOk result (IsSoughtAmong site.now tables.now (passes site.now)) }
{
    if !site.forwarding {
        return Ok(None);
    }
    let breaking = breaking_of_passing(alloc, site, tables, dropped, behind)?;
    named_pair(alloc, site, &breaking)
}

// A pair that arrives and breaks the clause.
fn among_arriving(
    alloc: Global,
    site: &Site,
    tables: &Tables,
    dropped: &Tree<bool>,
    behind: &Tree<bool>,
) -> Result<Option<(Pair, Option<Pair>)>, Memory>
    requires sound { IsSound site.now }
    requires regular { AreRegular site.now tables.now }
    requires tops { dropped.now.0 ≡ tops_of site.now }
    requires dropped { Tells site.now (IsDroppedOfPacket site.now tables.now) dropped.now.1 }
    requires behind_tops { behind.now.0 ≡ tops_of site.now }
    requires behind { Tells site.now (IsAcceptedAlike site.now tables.now) behind.now.1 }
    ensures { IfOk result (IsSoughtAmong site.now tables.now (λ p r. not (is_host p))) }
{
    if let Some(found) = among_staying(alloc, site, tables, dropped)? {
        return Ok(Some(found));
    }
    among_passing(alloc, site, tables, dropped, behind)
}

// A pair that breaks the clause, of what is accepted and of what rules see.
fn among_seen(
    alloc: Global,
    site: &Site,
    tables: &Tables,
    accepted: &Tree<bool>,
    packet: &Tree<bool>,
    behind: &Tree<bool>,
) -> Result<Option<(Pair, Option<Pair>)>, Memory>
    requires sound { IsSound site.now }
    requires regular { AreRegular site.now tables.now }
    requires accepted_tops { accepted.now.0 ≡ tops_of site.now }
    requires accepted { Tells site.now (IsAcceptedPair tables.now) accepted.now.1 }
    requires packet_tops { packet.now.0 ≡ tops_of site.now }
    requires packet { Tells site.now (λ p r. IsAcceptedSomewhere site.now tables.now p) packet.now.1 }
    requires behind_tops { behind.now.0 ≡ tops_of site.now }
    requires behind { Tells site.now (IsAcceptedAlike site.now tables.now) behind.now.1 }
    ensures { IfOk result (λ found. IsSought site.now tables.now DropsAheadOfLookup found) }
{
    if let Some(found) = among_host(alloc, site, tables, accepted, behind)? {
        return Ok(Some(found));
    }
    let dropped = dropped_of_packet(alloc, site, tables, accepted, packet)?;
    among_arriving(alloc, site, tables, &dropped, behind)
}

// A pair that breaks the clause, of what is accepted.
fn among_accepted(
    alloc: Global,
    site: &Site,
    tables: &Tables,
    accepted: &Tree<bool>,
) -> Result<Option<(Pair, Option<Pair>)>, Memory>
    requires sound { IsSound site.now }
    requires regular { AreRegular site.now tables.now }
    requires accepted_tops { accepted.now.0 ≡ tops_of site.now }
    requires accepted { Tells site.now (IsAcceptedPair tables.now) accepted.now.1 }
    ensures { IfOk result (λ found. IsSought site.now tables.now DropsAheadOfLookup found) }
{
    let seen = seen(alloc, site, tables)?;
    among_seen(alloc, site, tables, accepted, &seen.packet, &seen.behind)
}

/// A dropped pair that ipfw can't drop ahead of the look-up of connections, if there is one. Fails if memory runs out.
pub(crate) fn drops_ahead_of_lookup(
    alloc: Global,
    site: &Site,
    tables: &Tables,
) -> Result<Option<(Pair, Option<Pair>)>, Memory>
    requires sound { IsSound site.now }
    requires regular { AreRegular site.now tables.now }
    ensures { IfOk result (λ found. IsSought site.now tables.now DropsAheadOfLookup found) }
{
    let accepted = accepted(alloc, site, tables)?;
    among_accepted(alloc, site, tables, &accepted)
}
