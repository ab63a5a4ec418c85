//! Whether the ends that are written depend on flags or ICMP types.

ghost use Rattle.std.specs.Prelude.{◌≡◌, Some, IfOk};
ghost use Rattle.fws_net.specs.declared.outcome.Outcome.{Outcome};
ghost use Rattle.fws_net.specs.Points.{tops_of};
ghost use Rattle.fws_net.specs.Routes.{IsSound};
ghost use Rattle.fws_place.specs.OneEnd.{alone, end_alone, AreSoughtEnds, HasEnds};
ghost use Rattle.fws_tree.specs.Plain.{value};
ghost use Rattle.fws_tree.specs.Regular.{AreRegular};

use crate::apart::apart;
use crate::breach::Pair;
use crate::drops_ahead_of_lookup::host_sides;
use crate::point::packet_at;
use fws_net::{Outcome, Rewrite, Site};
use fws_num::Memory;
use fws_tree::{Relabelling, Tables, Tree};
use fws_truth::fields::{FLAGS, ICMP};
use std::alloc::Global;

// The fields of flags and ICMP types, by their bits.
const FLAGS_AND_ICMP: u16 = FLAGS | ICMP;

/// Which ends of which packets are compared.
#[derive(Clone, Copy)]
pub(crate) enum Compared {
    /// The destinations of packets that arrive.
    Destinations,
    /// The sources of the host's packets.
    HostSources,
}

/// The rewriting with the end that is compared alone.
pub(crate) fn end_alone(compared: Compared, rewrite: Rewrite) -> Rewrite
    ensures { result ≡ end_alone compared rewrite }
{
    match compared {
        Compared::Destinations => Rewrite {
            src: None,
            dst: rewrite.dst,
        },
        Compared::HostSources => Rewrite {
            src: rewrite.src,
            dst: None,
        },
    }
}

/// Outcomes with the end that is compared alone.
#[derive(Drop)]
pub(crate) struct Alone(pub(crate) Compared);

impl Relabelling<Outcome, Outcome> for Alone {
    ghost use Rattle.fws_place.specs.OneEnd.{alone};

    ghost gives = { λ s o. alone s.0 o };

    fn leaf(&self, _alloc: Global, leaf: &Outcome) -> Result<Outcome, Memory> {
        match leaf {
            Outcome::Drop => Ok(Outcome::Drop),
            Outcome::Accept(rewrite) => Ok(Outcome::Accept(end_alone(self.0, *rewrite))),
        }
    }
}

// The tree of what becomes of the packets whose ends are compared, by these ends; the others are dropped. Fails if memory runs out.
fn ends_alone(
    alloc: Global,
    site: &Site,
    tables: &Tables,
    compared: Compared,
) -> Result<Tree<Outcome>, Memory>
    requires sound { IsSound site.now }
    requires regular { AreRegular site.now tables.now }
    ensures tops { IfOk result (λ t. t.0 ≡ tops_of site.now) }
    ensures value { IfOk result (λ t. HasEnds site.now tables.now compared t.1) }
{
    let all = tables.fresh.relabel(alloc, &Alone(compared))?;
    let host = host_sides(alloc, site)?;
    match compared {
        Compared::Destinations => all.paint(alloc, &host, Outcome::Drop),
        Compared::HostSources => all.restrict(alloc, &host, Outcome::Drop),
    }
}

/// Two new packets that agree in all but flags and ICMP types and get different ends of those that are compared, if there are any.
/// Fails if memory runs out.
pub(crate) fn different_ends(
    alloc: Global,
    site: &Site,
    tables: &Tables,
    compared: Compared,
) -> Result<Option<(Pair, Option<Pair>)>, Memory>
    requires sound { IsSound site.now }
    requires regular { AreRegular site.now tables.now }
    ensures { IfOk result (AreSoughtEnds site.now tables.now compared) }
{
    let tree = ends_alone(alloc, site, tables, compared)?;
    match apart(alloc, &tree, &Outcome::Drop, FLAGS_AND_ICMP)? {
        None => Ok(None),
        Some(points) => {
            let first = packet_at(&points.0);
            let second = packet_at(&points.1);
            Ok(Some((
                Pair {
                    packet: first,
                    rec: None,
                },
                Some(Pair {
                    packet: second,
                    rec: None,
                }),
            )))
        }
    }
}
