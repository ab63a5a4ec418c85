//! The rules and the instances of a policy.

ghost use Rattle.std.specs.Prelude.{◌≡◌, ◌≤◌, ◌<◌, ◌^◌, ◌++◌, length, All, IfOk, OnOk};
ghost use Rattle.fws_net.specs.Points.{tops_of};
ghost use Rattle.fws_net.specs.Routes.{IsSound};
ghost use Rattle.fws_ipfw.specs.declared.config.IpfwRule.{IpfwRule};
ghost use Rattle.fws_tree_seen.specs.Shown.{IsTold};
ghost use Rattle.fws_tree_seen.specs.declared.seen.Seen.TheVariants.{Entered, Routed};
ghost use Rattle.fws_ipfw_put.specs.Guards.{IsImageList};
ghost use Rattle.fws_ipfw_put.specs.Laid.{AreRules, nats_for, AreArriving};
ghost use Rattle.fws_ipfw_put.specs.Layout.{destination_rules, new_sent, sent_choice, source_rules};
ghost use Rattle.fws_print.specs.Appended.{Appends};

use crate::choices::{Arriving, Sent};
use crate::guard::put_guard;
use crate::instances::{put_destination_nats, put_source_nats};
use crate::rules::{put_destinations, put_lookup, put_sources};
use crate::sections::{NEW_ARRIVING, NEW_SENT};
use fws_ipfw::{IpfwNat, IpfwRule};
use fws_ipfw_put_rules::{Choice, put_rules};
use fws_net::{End, Outcome, Site};
use fws_num::{Items, Memory};
use fws_place::Redirect;
use fws_tree::Tree;
use fws_tree_seen::relabelled_trees_are_told;
use indexmap::IndexSet;
use std::alloc::Global;

/// Puts the list of new packets that arrive. Fails if memory runs out.
fn put_arriving(
    alloc: Global,
    rules: &mut Items<IpfwRule>,
    site: &Site,
    fresh: &Tree<Outcome>,
    destinations: &IndexSet<End>,
    sources: &IndexSet<End>,
) -> Result<(), Memory>
    requires sound { IsSound site.now }
    requires tops { fresh.now.0 ≡ tops_of site.now }
    requires told { IsTold Entered (tops_of site.now) fresh.now.1 }
    requires few_destinations { length destinations.now.keys ≤ 4096 }
    requires few_sources { length sources.now.keys ≤ 60000 }
    ensures { OnOk result (Appends rules.old rules.new (AreArriving site.now destinations.now.keys sources.now.keys fresh.now.1)) }
{
    relabelled_trees_are_told::<Outcome, Choice>();
    let by = Arriving {
        destinations,
        sources,
    };
    let choices = fresh.relabel(alloc, &by)?;
    put_rules(alloc, rules, site, &choices, &NEW_ARRIVING)?;
    Ok(())
}

/// Puts the list of new packets of the host. Fails if memory runs out.
fn put_sent(
    alloc: Global,
    rules: &mut Items<IpfwRule>,
    site: &Site,
    fresh: &Tree<Outcome>,
    sources: &IndexSet<End>,
) -> Result<(), Memory>
    requires sound { IsSound site.now }
    requires tops { fresh.now.0 ≡ tops_of site.now }
    requires told { IsTold Entered (tops_of site.now) fresh.now.1 }
    requires few_sources { length sources.now.keys ≤ 60000 }
    ensures { OnOk result (Appends rules.old rules.new (IsImageList site.now new_sent (sent_choice sources.now.keys) fresh.now.1)) }
{
    relabelled_trees_are_told::<Outcome, Choice>();
    let by = Sent { sources };
    let choices = fresh.relabel(alloc, &by)?;
    put_rules(alloc, rules, site, &choices, &NEW_SENT)?;
    Ok(())
}

/// Puts the rules for destinations and for sources. Fails if memory runs out.
fn put_ends(
    alloc: Global,
    rules: &mut Items<IpfwRule>,
    destinations: &[End],
    sources: &[End],
) -> Result<(), Memory>
    requires few_destinations { length destinations.now ≤ 4096 }
    requires few_sources { length sources.now ≤ 60000 }
    ensures { OnOk result (rules.new ≡ rules.old ++ destination_rules 0 destinations.now ++ source_rules (length destinations.now) 0 sources.now) }
{
    put_destinations(alloc, rules, destinations)?;
    put_sources(alloc, rules, destinations.len() as u32, sources)?;
    Ok(())
}

/// The rules of a policy, by its new packets, by what is told of packets of connections as they arrive and as they leave, and by
/// the ends that are written. Fails if memory runs out.
pub(crate) fn rules_of(
    alloc: Global,
    site: &Site,
    fresh: &Tree<Outcome>,
    packet: &Tree<bool>,
    behind: &Tree<bool>,
    destinations: &IndexSet<End>,
    sources: &IndexSet<End>,
) -> Result<Items<IpfwRule>, Memory>
    requires sound { IsSound site.now }
    requires fresh_tops { fresh.now.0 ≡ tops_of site.now }
    requires packet_tops { packet.now.0 ≡ tops_of site.now }
    requires behind_tops { behind.now.0 ≡ tops_of site.now }
    requires fresh_told { IsTold Entered (tops_of site.now) fresh.now.1 }
    requires packet_told { IsTold Entered (tops_of site.now) packet.now.1 }
    requires behind_told { IsTold Routed (tops_of site.now) behind.now.1 }
    requires few_destinations { length destinations.now.keys ≤ 4096 }
    requires few_sources { length sources.now.keys ≤ 60000 }
    ensures { IfOk result (AreRules site.now fresh.now.1 packet.now.1 behind.now.1 destinations.now.keys sources.now.keys) }
{
    let mut rules = Items::new(alloc);
    put_guard(alloc, &mut rules, site, packet, behind)?;
    put_lookup(alloc, &mut rules)?;
    put_arriving(alloc, &mut rules, site, fresh, destinations, sources)?;
    put_sent(alloc, &mut rules, site, fresh, sources)?;
    put_ends(
        alloc,
        &mut rules,
        destinations.as_slice(),
        sources.as_slice(),
    )?;
    Ok(rules)
}

/// The instances of a policy. Fails if memory runs out.
pub(crate) fn nats_of(
    alloc: Global,
    redirects: &[Redirect],
    destinations: &[End],
    sources: &[End],
) -> Result<Items<IpfwNat>, Memory>
    requires few_destinations { length destinations.now ≤ 4096 }
    requires few_sources { length sources.now ≤ 60000 }
    ensures nats { IfOk result (λ nats. nats ≡ nats_for redirects.now destinations.now sources.now) }
    ensures fit { IfOk result (λ nats. All (λ nat. nat.alias < 2 ^ 32) nats) }
{
    let mut nats = Items::new(alloc);
    put_destination_nats(alloc, &mut nats, destinations, redirects)?;
    put_source_nats(alloc, &mut nats, destinations.len() as u32, sources)?;
    Ok(nats)
}
