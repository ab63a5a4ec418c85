//! Tables placed.

ghost use Rattle.std.specs.Prelude.{◌≡◌, ◌≤◌, length, Err, IfOk, OnOk};
ghost use Rattle.fws_net.specs.Points.{tops_of};
ghost use Rattle.fws_net.specs.Routes.{IsSound};
ghost use Rattle.fws_net.specs.declared.packet.Lang.TheVariants as langs;
ghost use Rattle.fws_place.specs.declared.clause.Clause.TheVariants.{FewRedirects};
ghost use Rattle.fws_place.specs.Fits.{Fits, IsBreach, Meets};
ghost use Rattle.fws_place.specs.Seen.{IsAcceptedAlike, IsAcceptedSomewhere, Tells};
ghost use Rattle.fws_tree.specs.Regular.{AreRegular};
ghost use Rattle.fws_ipfw_put.specs.Known.{Known};
ghost use Rattle.fws_ipfw_put.specs.Laid.{AreEnds, AreRulesBy};
ghost use Rattle.fws_ipfw_put.specs.Placed.{IsPlaced};
ghost use Rattle.fws_ipfw_put.specs.Redirects.{AreRedirects};

use crate::drafting::{nats_of, rules_of};
use crate::guard::met;
use crate::telling::{destinations_of, sources_of};
use fws_ipfw::{IpfwConfig, IpfwRule};
use fws_net::{End, Lang, Site};
use fws_num::{Items, Memory};
use fws_place::{
    Breach, PlaceAnswer, Redirect, Views, check, ipfw_drops_new_arrivals, ipfw_drops_new_host,
    ipfw_pairs_are_told, lost_pairs_are_dropped, points_are_seen, redirects, seen, views_are_told,
};
use fws_tree::Tables;
use indexmap::IndexSet;
use std::alloc::Global;

/// How many different sources there may be: as many as outcomes.
const MOST_SOURCES: usize = 60_000;

/// What new packets get.
#[derive(Drop)]
struct Written {
    /// The redirects that they show.
    shown: Items<Redirect>,
    /// The destinations, each once.
    destinations: IndexSet<End>,
    /// The sources, each once.
    sources: IndexSet<End>,
}

/// What is known where the tables fit, by the trees that tell what rules see. The call does nothing.
fn known(_site: &Site, _t: &Tables, _views: &Views)
    requires regular { AreRegular _site.now _t.now }
    requires fits { Fits langs.Ipfw _site.now _t.now }
    requires packet { Tells _site.now (λ p r. IsAcceptedSomewhere _site.now _t.now p) _views.now.packet.1 }
    requires behind { Tells _site.now (IsAcceptedAlike _site.now _t.now) _views.now.behind.1 }
    ensures { Known _site.now _t.now _views.now.packet.1 _views.now.behind.1 }
{
    views_are_told();
    points_are_seen();
    lost_pairs_are_dropped();
    ipfw_pairs_are_told();
    ipfw_drops_new_arrivals();
    ipfw_drops_new_host();
}

/// The ends that new packets get. Fails if memory runs out.
fn ends_for(alloc: Global, site: &Site, t: &Tables) -> Result<Written, Memory>
    requires sound { IsSound site.now }
    requires regular { AreRegular site.now t.now }
    requires few { Meets site.now t.now FewRedirects }
    ensures shown { IfOk result (λ w. AreRedirects site.now t.now w.shown) }
    ensures ends { IfOk result (λ w. AreEnds site.now t.now.fresh.1 w.shown w.destinations.keys w.sources.keys) }
{
    let shown = redirects(alloc, site, t)?;
    let destinations = destinations_of(alloc, shown.as_slice())?;
    let sources = sources_of(alloc, &t.fresh)?;
    // At most 60,000 outcomes write at most as many sources.
    if sources.len() > MOST_SOURCES {
        return Err(Memory);
    }
    Ok(Written {
        shown,
        destinations,
        sources,
    })
}

/// The rules of tables that fit. Fails if memory runs out.
fn rules_for(
    alloc: Global,
    site: &Site,
    t: &Tables,
    views: &Views,
    written: &Written,
) -> Result<Items<IpfwRule>, Memory>
    requires sound { IsSound site.now }
    requires regular { AreRegular site.now t.now }
    requires packet_tops { views.now.packet.0 ≡ tops_of site.now }
    requires behind_tops { views.now.behind.0 ≡ tops_of site.now }
    requires known { Known site.now t.now views.now.packet.1 views.now.behind.1 }
    requires few_destinations { length written.now.destinations.keys ≤ 4096 }
    requires few_sources { length written.now.sources.keys ≤ 60000 }
    ensures { IfOk result (AreRulesBy site.now t.now views.now written.now.destinations.keys written.now.sources.keys) }
{
    let behind = met(alloc, site, &views.behind)?;
    let rules = rules_of(
        alloc,
        site,
        &t.fresh,
        &views.packet,
        &behind,
        &written.destinations,
        &written.sources,
    )?;
    Ok(rules)
}

/// The configuration of tables that fit, by what rules see of established packets. Fails if memory runs out.
fn put_tables(alloc: Global, site: &Site, t: &Tables, views: &Views) -> Result<IpfwConfig, Memory>
    requires sound { IsSound site.now }
    requires regular { AreRegular site.now t.now }
    requires fits { Fits langs.Ipfw site.now t.now }
    requires packet_tops { views.now.packet.0 ≡ tops_of site.now }
    requires behind_tops { views.now.behind.0 ≡ tops_of site.now }
    requires known { Known site.now t.now views.now.packet.1 views.now.behind.1 }
    ensures { IfOk result (IsPlaced site.now t.now) }
{
    let written = ends_for(alloc, site, t)?;
    let rules = rules_for(alloc, site, t, views, &written)?;
    let nats = nats_of(
        alloc,
        written.shown.as_slice(),
        written.destinations.as_slice(),
        written.sources.as_slice(),
    )?;
    Ok(IpfwConfig { rules, nats })
}

/// The configuration of ipfw that does with every packet of the site what the tables say; or the first clause of
/// ipfw's placement condition that they don't meet, with packets that show so.
pub fn place(alloc: Global, t: &Tables, site: &Site) -> Result<IpfwConfig, PlaceAnswer>
    requires sound { IsSound site.now }
    requires regular { AreRegular site.now t.now }
    ensures fits { OnOk result (Fits langs.Ipfw site.now t.now) }
    ensures placed { IfOk result (IsPlaced site.now t.now) }
    ensures breach { (b : Breach) → result ≡ Err (PlaceAnswer.Unfit b) → IsBreach langs.Ipfw site.now t.now b }
{
    check(alloc, Lang::Ipfw, t, site)?;
    let views = seen(alloc, site, t)?;
    known(site, t, &views);
    let config = put_tables(alloc, site, t, &views)?;
    Ok(config)
}
