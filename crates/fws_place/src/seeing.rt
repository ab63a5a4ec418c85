//! What rules can tell of established packets.

ghost use Rattle.std.specs.Prelude.{◌≡◌, IfOk};
ghost use Rattle.fws_net.specs.Points.{tops_of};
ghost use Rattle.fws_place.specs.Seen.{IsAcceptedPair, IsAcceptedSomewhere, IsAcceptedAlike, Tells};
ghost use Rattle.fws_tree.specs.Plain.{IsReduced};

use fws_net::{Outcome, Site};
use fws_num::Memory;
use fws_tree::{Relabelling, Tables, Tree};
use fws_truth::fields::{DPORT, DST, SENT_DPORT, SENT_DST, SENT_SPORT, SENT_SRC};
use std::alloc::Global;

/// What rules see of established packets: a packet as it enters, or with the destination of its connection behind
/// routing.
#[derive(Drop)]
pub struct Views {
    /// Whether the packet of a pair is accepted in some connection.
    pub packet: Tree<bool>,
    /// Whether some pair that looks like the pair behind routing is accepted.
    pub behind: Tree<bool>,
}

/// Whether an outcome accepts.
pub(crate) struct Accepting;

impl Relabelling<Outcome, bool> for Accepting {
    ghost use Rattle.fws_place.specs.Rewritings.{is_accepted};

    ghost gives = { λ s o. is_accepted o };

    fn leaf(&self, _alloc: Global, leaf: &Outcome) -> Result<bool, Memory> {
        match leaf {
            Outcome::Drop => Ok(false),
            Outcome::Accept(_) => Ok(true),
        }
    }
}

/// The tree that tells of each pair whether it is accepted. Fails if memory runs out.
pub(crate) fn accepted(alloc: Global, site: &Site, tables: &Tables) -> Result<Tree<bool>, Memory>
    requires { tables.now.est.0 ≡ tops_of site.now }
    ensures tops { IfOk result (λ t. t.0 ≡ tops_of site.now) }
    ensures tells { IfOk result (λ t. Tells site.now (IsAcceptedPair tables.now) t.1) }
{
    tables.est.relabel(alloc, &Accepting)
}

// The fields from rdst on: with them alone free, a point stands for its packet.
const ENDS: u16 = SENT_DST | SENT_DPORT | SENT_SRC | SENT_SPORT;

/// The tree that tells of each pair whether its packet is accepted in some connection: what rules that see packets as they enter
/// can tell. Fails if memory runs out.
pub fn accepted_somewhere(alloc: Global, site: &Site, tables: &Tables) -> Result<Tree<bool>, Memory>
    requires { tables.now.est.0 ≡ tops_of site.now }
    ensures tops { IfOk result (λ t. t.0 ≡ tops_of site.now) }
    ensures reduced { IfOk result (λ t. IsReduced t.0 t.1) }
    ensures tells { IfOk result (λ t. Tells site.now (λ p r. IsAcceptedSomewhere site.now tables.now p) t.1) }
{
    let accepted = accepted(alloc, site, tables)?;
    let packet = accepted.exists(alloc, ENDS)?;
    Ok(packet)
}

// The fields that a rule behind routing doesn't see: the destination and its port as the packet entered, and the
// source and its port of the connection.
const UNSEEN_BEHIND: u16 = DST | DPORT | SENT_SRC | SENT_SPORT;

// What rules can tell of established packets, of the pairs that are accepted.
fn seen_of(
    alloc: Global,
    site: &Site,
    tables: &Tables,
    accepted: &Tree<bool>,
) -> Result<Views, Memory>
    requires tops { accepted.now.0 ≡ tops_of site.now }
    requires tells { Tells site.now (IsAcceptedPair tables.now) accepted.now.1 }
    ensures packet_tops { IfOk result (λ s. s.packet.0 ≡ tops_of site.now) }
    ensures behind_tops { IfOk result (λ s. s.behind.0 ≡ tops_of site.now) }
    ensures packet_reduced { IfOk result (λ s. IsReduced s.packet.0 s.packet.1) }
    ensures behind_reduced { IfOk result (λ s. IsReduced s.behind.0 s.behind.1) }
    ensures packet { IfOk result (λ s. Tells site.now (λ p r. IsAcceptedSomewhere site.now tables.now p) s.packet.1) }
    ensures behind { IfOk result (λ s. Tells site.now (IsAcceptedAlike site.now tables.now) s.behind.1) }
{
    let packet = accepted.exists(alloc, ENDS)?;
    let behind = accepted.exists(alloc, UNSEEN_BEHIND)?;
    Ok(Views { packet, behind })
}

/// What rules can tell of established packets. The tops of both trees are the site's. Fails if memory runs out.
pub fn seen(alloc: Global, site: &Site, tables: &Tables) -> Result<Views, Memory>
    requires { tables.now.est.0 ≡ tops_of site.now }
    ensures packet_tops { IfOk result (λ s. s.packet.0 ≡ tops_of site.now) }
    ensures behind_tops { IfOk result (λ s. s.behind.0 ≡ tops_of site.now) }
    ensures packet_reduced { IfOk result (λ s. IsReduced s.packet.0 s.packet.1) }
    ensures behind_reduced { IfOk result (λ s. IsReduced s.behind.0 s.behind.1) }
    ensures packet { IfOk result (λ s. Tells site.now (λ p r. IsAcceptedSomewhere site.now tables.now p) s.packet.1) }
    ensures behind { IfOk result (λ s. Tells site.now (IsAcceptedAlike site.now tables.now) s.behind.1) }
{
    let accepted = accepted(alloc, site, tables)?;
    seen_of(alloc, site, tables, &accepted)
}
