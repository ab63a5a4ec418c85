//! Configurations whose tags are the numbers of states.

ghost use Rattle.std.specs.Prelude.{true, false, IfOk, OnOk};
ghost use Rattle.fws_net.specs.Points.{tops_of};
ghost use Rattle.fws_net.specs.Routes.{IsSound};
ghost use Rattle.fws_net.specs.declared.packet.Lang.TheVariants as langs;
ghost use Rattle.fws_pf.specs.declared.config.PfNat.{PfNat};
ghost use Rattle.fws_pf.specs.declared.config.PfRule.{PfRule};
ghost use Rattle.fws_pf_put_filter.specs.Filters.{IsFilter};
ghost use Rattle.fws_place.specs.Fits.{Fits};
ghost use Rattle.fws_tree.specs.Regular.{AreRegular};
ghost use Rattle.fws_pf_put.specs.Drafted.{IsDrafted};
ghost use Rattle.fws_print.specs.Appended.{Appends};
ghost use Rattle.fws_pf_put.specs.Grounds.{AreOutward, ArePass, IsKnown};

use crate::ends::Sources;
use crate::states::put_sources;
use crate::telling::sources_of;
use fws_iv::Ivs;
use fws_net::{Outcome, Site};
use fws_num::{Items, Memory};
use fws_pf::{PfConfig, PfNat, PfRule};
use fws_pf_put_filter::{put_filter, states_of};
use fws_place::{
    lost_pairs_are_dropped, pf_destinations_agree, pf_host_sources_agree, pf_keeps_new_packets,
    pf_pairs_pass, points_are_of_pairs, points_are_seen, views_are_told,
};
use fws_tree::{Node, Tables};
use fws_tree_seen::{leaf_nodes_are_leaves, reached_values_are_told, seen_points_are_topped};
use std::alloc::Global;

/// What a configuration is made of.
#[derive(Clone, Copy)]
pub struct Ground<'a> {
    /// The site.
    pub site: &'a Site,
    /// The tables.
    pub tables: &'a Tables,
    /// The leaves of the tree of new packets.
    pub leaves: &'a [Outcome],
    /// Its nodes.
    pub nodes: &'a [Node],
    /// Their states.
    pub states: &'a [u32],
}

/// Puts the translations of a pass. Fails if memory runs out.
fn put_pass(
    alloc: Global,
    nats: &mut Items<PfNat>,
    ground: &Ground<'_>,
    outward: bool,
) -> Result<(), Memory>
    requires { IsKnown ground.now }
    ensures { OnOk result (Appends nats.old nats.new (ArePass ground.now outward)) }
{
    views_are_told();
    points_are_of_pairs();
    pf_destinations_agree();
    pf_host_sources_agree();
    pf_keeps_new_packets();
    let plan = fws_pf_put_nat::Plan {
        site: ground.site,
        tree: &ground.tables.fresh,
        leaves: ground.leaves,
        nodes: ground.nodes,
        states: ground.states,
        outward,
    };
    fws_pf_put_nat::put_translations(alloc, nats, &plan)?;
    Ok(())
}

/// The translations of packets that go out: those of sources by the tags of states, and behind them those of the host. Fails if
/// memory runs out.
fn outward_nats(
    alloc: Global,
    ground: &Ground<'_>,
    sources: &Sources,
) -> Result<Items<PfNat>, Memory>
    requires { IsKnown ground.now }
    ensures { IfOk result (AreOutward ground.now sources.now) }
{
    let mut nats = Items::new(alloc);
    put_sources(
        alloc,
        &mut nats,
        ground.leaves,
        ground.nodes,
        ground.states,
        sources,
    )?;
    put_pass(alloc, &mut nats, ground, true)?;
    Ok(nats)
}

/// The translations of packets that come in. Fails if memory runs out.
fn inward_nats(alloc: Global, ground: &Ground<'_>) -> Result<Items<PfNat>, Memory>
    requires { IsKnown ground.now }
    ensures { IfOk result (ArePass ground.now false) }
{
    let mut nats = Items::new(alloc);
    put_pass(alloc, &mut nats, ground, false)?;
    Ok(nats)
}

/// The filter rules. Fails if memory runs out.
fn filter_rules(alloc: Global, ground: &Ground<'_>) -> Result<Items<PfRule>, Memory>
    requires { IsKnown ground.now }
    ensures { IfOk result (IsFilter ground.now.site.now (tops_of ground.now.site.now) ground.now.leaves.now ground.now.nodes.now ground.now.states.now) }
{
    views_are_told();
    let plan = fws_pf_put_filter::Plan {
        site: ground.site,
        tree: &ground.tables.fresh,
        leaves: ground.leaves,
        nodes: ground.nodes,
        states: ground.states,
    };
    let mut rules = Items::new(alloc);
    put_filter(alloc, &mut rules, &plan)?;
    Ok(rules)
}

/// The configuration of tables that fit, for the states of the nodes. Fails if memory runs out.
fn draft_of(alloc: Global, ground: &Ground<'_>) -> Result<PfConfig, Memory>
    requires { IsKnown ground.now }
    ensures { IfOk result (IsDrafted ground.now.site.now ground.now.tables.now) }
{
    views_are_told();
    points_are_seen();
    pf_keeps_new_packets();
    pf_pairs_pass();
    lost_pairs_are_dropped();
    reached_values_are_told::<Outcome>();
    seen_points_are_topped();
    leaf_nodes_are_leaves::<Outcome>();
    let _tops = ground.tables.fresh.tops();
    let sources = sources_of(alloc, &ground.tables.fresh)?;
    let nat = outward_nats(alloc, ground, &sources)?;
    let rdr = inward_nats(alloc, ground)?;
    let filter = filter_rules(alloc, ground)?;
    Ok(PfConfig {
        skip: Ivs::none(alloc),
        rdr,
        nat,
        filter,
        tags: Items::new(alloc),
    })
}

/// The configuration of tables that fit, whose tags are the numbers of states. Fails if memory runs out.
pub(crate) fn drafted(alloc: Global, site: &Site, tables: &Tables) -> Result<PfConfig, Memory>
    requires sound { IsSound site.now }
    requires regular { AreRegular site.now tables.now }
    requires fits { Fits langs.Pf site.now tables.now }
    ensures { IfOk result (IsDrafted site.now tables.now) }
{
    let shared = tables.fresh.shared();
    let states = states_of(alloc, shared.leaves, shared.nodes)?;
    let ground = Ground {
        site,
        tables,
        leaves: shared.leaves,
        nodes: shared.nodes,
        states: states.as_slice(),
    };
    draft_of(alloc, &ground)
}
