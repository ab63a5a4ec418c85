//! Whether two policies do the same.

ghost use Rattle.std.specs.Prelude.{◌≡◌, IfOk, MatchOption};
ghost use Rattle.fws_dead.specs.Compared.{class_of, IsComparison};
ghost use Rattle.fws_dead.specs.Points.{AreTops};
ghost use Rattle.fws_dead.specs.Searched.{AreValuesAlike, AreValuesApart, IsComparedIn, IsDiffering};
ghost use Rattle.fws_net.specs.declared.connection.Kind.{Kind};
ghost use Rattle.fws_net.specs.declared.outcome.Outcome.{Outcome};
ghost use Rattle.fws_net.specs.declared.packet.Packet.{Packet};
ghost use Rattle.fws_net.specs.declared.packet.State.{State};
ghost use Rattle.fws_net.specs.Points.{tops_of};
ghost use Rattle.fws_net.specs.Routes.{IsSound};
ghost use Rattle.fws_trace.specs.Outcomes.{outcome_by, IsWalked};
ghost use Rattle.fws_tree.specs.Regular.{AreRegular};

use crate::compare::{Compare, Pair};
use crate::point::{kind_at, packet_at};
use crate::search::apart;
use crate::unequal::unequal_leaves;
use fws_box::Point;
use fws_net::{Kind, Outcome, Packet, Rec, Site, State};
use fws_num::Memory;
use fws_tree::{Tables, Tree};
use std::alloc::Global;

/// The ends of an established packet's class.
fn ends_of(kind: &Kind) -> Option<Rec>
    ensures { class_of result ≡ kind.now }
{
    match kind {
        Kind::New => None,
        Kind::Est(ends) => Some(*ends),
    }
}

/// What is said of a packet and its class that come to these outcomes.
fn differing(packet: Packet, kind: Kind, first: &Outcome, second: &Outcome) -> Compare
    ensures { IsDiffering packet kind first.now second.now result }
{
    Compare::Differ {
        at: Pair {
            packet,
            rec: ends_of(&kind),
        },
        first: first.fate(&packet, &kind),
        second: second.fate(&packet, &kind),
    }
}

/// A point at which two tables come to different fates of packets of this kind, if there is one. Fails if memory runs out.
fn difference(
    alloc: Global,
    state: State,
    first: &Tree<Outcome>,
    second: &Tree<Outcome>,
) -> Result<Option<Point>, Memory>
    requires tops { AreTops first.now.0 }
    requires same_tops { second.now.0 ≡ first.now.0 }
    ensures { IfOk result (λ found. MatchOption found (AreValuesAlike state first.now.0 first.now.1 second.now.1) (AreValuesApart state first.now.0 first.now.1 second.now.1)) }
{
    let tree = unequal_leaves(alloc, first, second)?;
    let found = apart(alloc, state, &tree)?;
    Ok(found)
}

/// What is said of two tables of packets of this kind. Fails if memory runs out.
fn compared(
    alloc: Global,
    site: &Site,
    state: State,
    first: &Tree<Outcome>,
    second: &Tree<Outcome>,
) -> Result<Compare, Memory>
    requires sound { IsSound site.now }
    requires first { first.now.0 ≡ tops_of site.now }
    requires second { second.now.0 ≡ tops_of site.now }
    ensures { IfOk result (IsComparedIn site.now state first.now.1 second.now.1) }
{
    let found = difference(alloc, state, first, second)?;
    match found {
        Some(point) => {
            let one = first.lookup(&point);
            let two = second.lookup(&point);
            let packet = packet_at(&point);
            let kind = kind_at(state, &point);
            Ok(differing(packet, kind, one, two))
        }
        None => Ok(Compare::Same),
    }
}

/// Whether two policies do the same: `Same` exactly where their tables give every packet of the site, new or established, the same
/// fate, and else a packet with its two fates, which differ. Outcomes that are written differently may come to the same fate. Fails
/// if memory runs out. Where the tables are those of two walks, it is said of these.
///
/// The time is that of pairing the tables of each kind, which grows with the pairs of nodes that meet, and that of going through the
/// rows of the pairs that aren't equal as written, up to the first one that has a packet with different fates. A row takes time by its
/// intervals, whatever is written and however many packets it has. So where much is written differently and nothing differs, as where
/// one policy writes over packets the address that they have already and the other writes nothing, all these rows are gone through.
pub fn same(alloc: Global, site: &Site, a: &Tables, b: &Tables) -> Result<Compare, Memory>
    requires sound { IsSound site.now }
    requires a { AreRegular site.now a.now }
    requires b { AreRegular site.now b.now }
    ensures tables { IfOk result (IsComparison site.now (outcome_by a.now) (outcome_by b.now)) }
    ensures walked { (walk other : Packet → Kind → Outcome) → IsWalked site.now State.Fresh walk a.now.fresh.1 → IsWalked site.now State.Est walk a.now.est.1
        → IsWalked site.now State.Fresh other b.now.fresh.1 → IsWalked site.now State.Est other b.now.est.1 → IfOk result (IsComparison site.now walk other) }
{
    let new = compared(alloc, site, State::Fresh, &a.fresh, &b.fresh)?;
    match new {
        Compare::Same => compared(alloc, site, State::Est, &a.est, &b.est),
        Compare::Differ { at, first, second } => Ok(Compare::Differ { at, first, second }),
    }
}
