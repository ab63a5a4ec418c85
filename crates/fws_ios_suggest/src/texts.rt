//! Texts that may do what tables say.

ghost use Rattle.fws_net.specs.Routes.{IsSound};

use crate::interfaces::put_interface;
use crate::inward::{Inward, put_inward};
use crate::lists::{put_leaving, put_lists};
use crate::names::names_of;
use crate::sources::{Sources, source_lists};
use fws_flat::Flat;
use fws_net::Site;
use fws_num::{Memory, Text};
use fws_suggest::{DST, Established, Policy, Settings, Stop, Style};
use fws_tree::Tables;
use std::alloc::Global;

/// What is written.
#[derive(Drop)]
struct Plan {
    lists: Vec<Inward>,
    sources: Sources,
    names: Vec<Text>,
}

/// The lists for packets that come in.
fn inward_lists(
    policy: &mut Policy,
    style: &mut Style,
    established: Established,
) -> Result<Vec<Inward>, Stop> {
    let mut lists = Vec::new(policy.alloc);
    put_inward(&mut lists, policy, style, established)?;
    Ok(lists)
}

/// What is written for a policy. It gives up where nothing can be.
fn planned(
    policy: &mut Policy,
    style: &mut Style,
    site: &Site,
    established: Established,
) -> Result<Plan, Stop> {
    let lists = inward_lists(policy, style, established)?;
    let sources = source_lists(policy, style, site)?;
    let names = names_of(policy.alloc, site, policy.entries)?;
    Ok(Plan {
        lists,
        sources,
        names,
    })
}

/// Appends the lines of all interfaces.
fn put_interfaces(out: &mut Text, policy: &Policy, site: &Site, plan: &Plan) -> Result<(), Memory> {
    let translates = policy.sources.len() > 1;
    for entry in 1..policy.entries {
        put_interface(out, site, &plan.lists, &plan.names, entry, translates)?;
    }
    Ok(())
}

/// Appends the translations of sources, where there are some.
fn put_sources(out: &mut Text, policy: &Policy, plan: &Plan) -> Result<(), Memory> {
    if policy.sources.len() > 1 {
        out.put(b"! sources are translated\n")?;
        out.put(plan.sources.lists.as_slice())?;
        out.put(plan.sources.uses.as_slice())?;
    }
    Ok(())
}

/// Appends the text of a plan.
fn put_plan(
    out: &mut Text,
    policy: &mut Policy,
    style: &mut Style,
    site: &Site,
    plan: &Plan,
) -> Result<(), Stop> {
    out.put(
        b"! Suggested by FWS for Cisco IOS, and checked packet by packet to do what the policy does.\n! It is taken line by line in configuration mode.\n",
    )?;
    put_interfaces(out, policy, site, plan)?;
    put_lists(out, policy, style, &plan.lists, &plan.names)?;
    put_leaving(out, &plan.lists, &plan.names)?;
    put_sources(out, policy, plan)?;
    Ok(())
}

/// Appends the text for a policy, by the way to write its lists.
fn put_written(
    out: &mut Text,
    policy: &mut Policy,
    style: &mut Style,
    site: &Site,
    established: Established,
) -> Result<(), Stop> {
    let plan = planned(policy, style, site, established)?;
    put_plan(out, policy, style, site, &plan)
}

/// Appends the text for a policy. It gives up where there is none.
fn put_text(
    out: &mut Text,
    policy: &mut Policy,
    site: &Site,
    established: Established,
) -> Result<(), Stop> {
    if policy.destinations.len() > 1 || established.behind.is_some() {
        return Err(Stop::Late);
    }
    let everywhere = policy.space.full(DST);
    let mut style = policy.style(Settings::ios(), everywhere)?;
    put_written(out, policy, &mut style, site, established)
}

/// The text for a policy. It gives up where there is none.
fn written(policy: &mut Policy, tables: &Tables, site: &Site) -> Result<Text, Stop> {
    let established = policy.established(&tables.est, true)?;
    let mut out = Text::new(policy.alloc);
    put_text(&mut out, policy, site, established)?;
    Ok(out)
}

/// The text that is found. It gives up where there is none.
fn tried(alloc: Global, tables: &Tables, site: &Site, hints: &Flat) -> Result<Text, Stop>
    requires { IsSound site.now }
{
    let mut policy = Policy::new(alloc, tables, site)?;
    policy.note_hints(hints)?;
    written(&mut policy, tables, site)
}

/// Texts of Cisco IOS that may do what the tables say, best first: none where the search gave up. Nothing is promised of them.
/// Fails if memory runs out.
pub fn suggest(
    alloc: Global,
    tables: &Tables,
    site: &Site,
    hints: &Flat,
) -> Result<Vec<Text>, Memory>
    requires { IsSound site.now }
{
    let mut texts = Vec::new(alloc);
    match tried(alloc, tables, site, hints) {
        Ok(text) => texts.push(text)?,
        Err(Stop::Late) => {}
        Err(Stop::Memory) => return Err(Memory),
    }
    Ok(texts)
}
