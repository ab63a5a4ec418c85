//! Whether a system can hold tables.

ghost use Rattle.std.specs.Prelude.{◌≡◌, IfOk, OnOk, Err};
ghost use Rattle.fws_net.specs.Routes.{IsSound};
ghost use Rattle.fws_place.specs.Fits.{Fits, IsBreach};
ghost use Rattle.fws_place.specs.Found.{IsSought};
ghost use Rattle.fws_tree.specs.Regular.{AreRegular};

use crate::breach::{Breach, Pair, PlaceAnswer};
use crate::clause::{Clause, clauses_of};
use crate::drops_ahead_of_lookup::drops_ahead_of_lookup;
use crate::drops_always::drops_always;
use crate::drops_by_one_view::drops_by_one_view;
use crate::drops_no_established::drops_no_established;
use crate::few_outcomes::few_outcomes;
use crate::few_redirects::few_redirects;
use crate::keeps_delivered_sources::keeps_delivered_sources;
use crate::keeps_destinations::keeps_destinations;
use crate::keeps_host_destinations::keeps_host_destinations;
use crate::keeps_source_ports::keeps_source_ports;
use crate::one_destination::one_destination;
use crate::one_host_source::one_host_source;
use crate::one_source::one_source;
use crate::passes_host::passes_host;
use crate::tells_by_ack_alone::tells_by_ack_alone;
use crate::writes_inside_out::writes_inside_out;
use crate::writes_whole_addresses::writes_whole_addresses;
use fws_net::{Lang, Site};
use fws_num::Memory;
use fws_tree::Tables;
use std::alloc::Global;

// Packets that break the clause, if there are any.
fn broken(
    alloc: Global,
    clause: Clause,
    site: &Site,
    tables: &Tables,
) -> Result<Option<(Pair, Option<Pair>)>, Memory>
    requires sound { IsSound site.now }
    requires regular { AreRegular site.now tables.now }
    ensures { IfOk result (λ found. IsSought site.now tables.now clause found) }
{
    match clause {
        Clause::FewOutcomes => few_outcomes(alloc, site, tables),
        Clause::KeepsSourcePorts => keeps_source_ports(alloc, site, tables),
        Clause::KeepsHostDestinations => keeps_host_destinations(alloc, site, tables),
        Clause::KeepsDeliveredSources => keeps_delivered_sources(alloc, site, tables),
        Clause::DropsByOneView => drops_by_one_view(alloc, site, tables),
        Clause::FewRedirects => few_redirects(alloc, site, tables),
        Clause::DropsAheadOfLookup => drops_ahead_of_lookup(alloc, site, tables),
        Clause::DropsNoEstablished => drops_no_established(alloc, site, tables),
        Clause::OneDestination => one_destination(alloc, site, tables),
        Clause::OneHostSource => one_host_source(alloc, site, tables),
        Clause::PassesHost => passes_host(alloc, site, tables),
        Clause::KeepsDestinations => keeps_destinations(alloc, site, tables),
        Clause::WritesInsideOut => writes_inside_out(alloc, site, tables),
        Clause::TellsByAckAlone => tells_by_ack_alone(alloc, site, tables),
        Clause::OneSource => one_source(alloc, site, tables),
        Clause::DropsAlways => drops_always(alloc, site, tables),
        Clause::WritesWholeAddresses => writes_whole_addresses(alloc, site, tables),
    }
}

/// Whether the system can hold the tables: `Ok` exactly where they meet each of its clauses, and else the first
/// clause that they don't meet, with packets that show so.
pub fn check(alloc: Global, target: Lang, tables: &Tables, site: &Site) -> Result<(), PlaceAnswer>
    requires sound { IsSound site.now }
    requires regular { AreRegular site.now tables.now }
    ensures fits { OnOk result (Fits target site.now tables.now) }
    ensures breach { (b : Breach) → result ≡ Err (PlaceAnswer.Unfit b) → IsBreach target site.now tables.now b }
{
    for clause in clauses_of(target) {
        if let Some((first, second)) = broken(alloc, *clause, site, tables)? {
            return Err(PlaceAnswer::Unfit(Breach {
                clause: *clause,
                first,
                second,
            }));
        }
    }
    Ok(())
}
