//! The diagram in which each entry and each translation has its places.

ghost use Rattle.std.specs.Prelude.{◌≡◌, ℕ, ◌+◌, ◌++◌, ◌∷◌, [], None, true, length, IfOk, OnOk};
ghost use Rattle.fws_net.specs.declared.connection.Kind.{Kind};
ghost use Rattle.fws_net.specs.declared.packet.Packet.{Packet};
ghost use Rattle.fws_ifcl.specs.Refusals.{refusal_of};
ghost use Rattle.fws_ifcl.specs.Soundness.{ifcl_ok};
ghost use Rattle.fws_ifcl.specs.Spots.{are_spots_of, told};
ghost use Rattle.fws_ifcl.specs.Uses.{used_places};
ghost use Rattle.fws_ifcl.specs.Walk.{means};
ghost use Rattle.fws_ifcl_rules.specs.Straight.{is_straight};
ghost use Rattle.fws_ios.specs.Uses.{first_translation, used};
ghost use Rattle.fws_ios.specs.Walk.{walk};
ghost use Rattle.fws_ios_ifcl.specs.Blocks.{applied_from, statics_from};
ghost use Rattle.fws_ios_ifcl.specs.Diagram.{destination_rules, list_rules};
ghost use Rattle.fws_ios_ifcl.specs.Placed.{applied_spots_from, asking_from, asking_spots_from, chains_with, count_of, destination_spots, list_spots, placed_of, placed_sources, source_spots, spots_of, statics_spots};

use crate::applying::put_applied;
use crate::choosing::put_asking;
use crate::diagram::{kept_destinations, kept_sources, put_chain, two_stages};
use crate::names::{Counted, entry_count};
use crate::spots::{put_applied_spots, put_asking_spots, put_static_spots};
use crate::statics::put_static;
use fws_ifcl::{Chain, Ifcl, Rule, Spot};
use fws_ifcl_rules::{
    rules_are_right_by_parts, straight_diagrams_unfold, sum, uses_are_told_by_places,
    walks_go_by_places,
};
use fws_ios::{IosConfig, IosGroup, IosNat};
use fws_net::Site;
use fws_num::{Items, Memory};
use std::alloc::Global;

/// Puts the rules of all lists that are applied in this direction behind the others, and the spots of their entries. Fails if
/// memory or numbers run out.
fn put_all_applied(
    alloc: Global,
    rules: &mut Vec<Rule>,
    spots: &mut Vec<Spot>,
    chain: u32,
    outward: bool,
    lists: &Counted,
    groups: &[IosGroup],
) -> Result<(), Memory>
    ensures rules { OnOk result (rules.new.items ≡ rules.old.items ++ applied_from outward (length rules.old.items) lists.now groups.now) }
    ensures spots { OnOk result (spots.new.items ≡ spots.old.items ++ applied_spots_from chain outward (length rules.old.items) lists.now groups.now) }
{
    for group in groups {
        put_applied_spots(spots, chain, outward, rules.len(), lists, group)?;
        put_applied(alloc, rules, outward, lists.lists(), group)?;
    }
    Ok(())
}

/// Puts the rules of all statics behind the others, and their spots; the first translation has this number. Fails if memory or
/// numbers run out.
fn put_all_statics(
    alloc: Global,
    rules: &mut Vec<Rule>,
    spots: &mut Vec<Spot>,
    chain: u32,
    outward: bool,
    first: usize,
    nats: &[IosNat],
) -> Result<(), Memory>
    ensures rules { OnOk result (rules.new.items ≡ rules.old.items ++ statics_from outward (length rules.old.items) nats.now) }
    ensures spots { OnOk result (spots.new.items ≡ spots.old.items ++ statics_spots chain outward (length rules.old.items) first nats.now) }
{
    let mut next = first;
    for nat in nats {
        put_static_spots(spots, chain, rules.len(), next, nat)?;
        put_static(alloc, rules, outward, nat)?;
        next = sum(next, 1)?;
    }
    Ok(())
}

/// Puts the rules of all translations by lists behind the others, and the spots of what these use; the first translation has this
/// number. Fails if memory or numbers run out.
fn put_all_asking(
    alloc: Global,
    rules: &mut Vec<Rule>,
    spots: &mut Vec<Spot>,
    chain: u32,
    lists: &Counted,
    first: usize,
    nats: &[IosNat],
) -> Result<(), Memory>
    ensures rules { OnOk result (rules.new.items ≡ rules.old.items ++ asking_from (length rules.old.items) lists.now nats.now) }
    ensures spots { OnOk result (spots.new.items ≡ spots.old.items ++ asking_spots_from chain (length rules.old.items) lists.now first nats.now) }
{
    let mut next = first;
    for nat in nats {
        put_asking_spots(spots, chain, rules.len(), lists, next, nat)?;
        put_asking(alloc, rules, lists.lists(), nat)?;
        next = sum(next, 1)?;
    }
    Ok(())
}

/// The rules of the lists that are applied in a direction, and the spots of their entries behind the others. Fails if memory or
/// numbers run out.
fn placed_lists(
    alloc: Global,
    spots: &mut Vec<Spot>,
    chain: u32,
    outward: bool,
    lists: &Counted,
    c: &IosConfig,
) -> Result<Vec<Rule>, Memory>
    requires { lists.now ≡ c.now.lists }
    ensures rules { IfOk result (λ rules. rules.items ≡ list_rules outward c.now) }
    ensures spots { OnOk result (spots.new.items ≡ spots.old.items ++ list_spots chain outward c.now) }
{
    let mut rules = Vec::new(alloc);
    put_all_applied(
        alloc,
        &mut rules,
        spots,
        chain,
        outward,
        lists,
        c.groups.as_slice(),
    )?;
    Ok(rules)
}

/// The rules that translate destinations, and the spots of statics behind the others. Fails if memory or numbers run out.
fn placed_destinations(
    alloc: Global,
    spots: &mut Vec<Spot>,
    first: usize,
    c: &IosConfig,
) -> Result<Vec<Rule>, Memory>
    requires { first ≡ first_translation c.now }
    ensures rules { IfOk result (λ rules. rules.items ≡ destination_rules c.now) }
    ensures spots { OnOk result (spots.new.items ≡ spots.old.items ++ destination_spots c.now) }
{
    let mut rules = kept_destinations(alloc, c)?;
    put_all_statics(alloc, &mut rules, spots, 1, false, first, c.nats.as_slice())?;
    Ok(rules)
}

/// The rules that translate sources, and the spots of translations behind the others. Fails if memory or numbers run out.
fn placed_sources(
    alloc: Global,
    spots: &mut Vec<Spot>,
    lists: &Counted,
    first: usize,
    c: &IosConfig,
) -> Result<Vec<Rule>, Memory>
    requires lists { lists.now ≡ c.now.lists }
    requires first { first ≡ first_translation c.now }
    ensures rules { IfOk result (λ rules. rules.items ≡ placed_sources c.now) }
    ensures spots { OnOk result (spots.new.items ≡ spots.old.items ++ source_spots c.now) }
{
    let nats = c.nats.as_slice();
    let mut rules = kept_sources(alloc, c)?;
    put_all_statics(alloc, &mut rules, spots, 2, true, first, nats)?;
    put_all_asking(alloc, &mut rules, spots, 2, lists, first, nats)?;
    Ok(rules)
}

/// Puts the chains behind the others, with the lists by their names, and the spots of all entries and translations. Fails if memory
/// or numbers run out.
fn put_chains(
    alloc: Global,
    chains: &mut Items<Chain>,
    spots: &mut Vec<Spot>,
    lists: &Counted,
    first: usize,
    c: &IosConfig,
) -> Result<(), Memory>
    requires lists { lists.now ≡ c.now.lists }
    requires first { first ≡ first_translation c.now }
    ensures chains { OnOk result (chains.new ≡ chains.old ++ chains_with (placed_sources c.now) c.now) }
    ensures spots { OnOk result (spots.new.items ≡ spots.old.items ++ spots_of c.now) }
{
    let inward = placed_lists(alloc, spots, 0, false, lists, c)?;
    put_chain(alloc, chains, b"in", inward)?;
    let destinations = placed_destinations(alloc, spots, first, c)?;
    put_chain(alloc, chains, b"destination", destinations)?;
    let sources = placed_sources(alloc, spots, lists, first, c)?;
    put_chain(alloc, chains, b"source", sources)?;
    let outward = placed_lists(alloc, spots, 3, true, lists, c)?;
    put_chain(alloc, chains, b"out", outward)?;
    Ok(())
}

/// Puts the chains behind the others, by their lists, and the spots of all entries and translations. Fails if memory or numbers run
/// out.
fn put_all_chains(
    alloc: Global,
    chains: &mut Items<Chain>,
    spots: &mut Vec<Spot>,
    c: &IosConfig,
) -> Result<(), Memory>
    ensures chains { OnOk result (chains.new ≡ chains.old ++ chains_with (placed_sources c.now) c.now) }
    ensures spots { OnOk result (spots.new.items ≡ spots.old.items ++ spots_of c.now) }
{
    let first = entry_count(c.lists.as_slice())?;
    let lists = Counted::of(alloc, c.lists.as_slice())?;
    put_chains(alloc, chains, spots, &lists, first, c)?;
    Ok(())
}

/// The chains, and the spots of all entries and translations behind the others. Fails if memory or numbers run out.
fn chains_of(alloc: Global, spots: &mut Vec<Spot>, c: &IosConfig) -> Result<Items<Chain>, Memory>
    ensures chains { IfOk result (λ chains. chains ≡ chains_with (placed_sources c.now) c.now) }
    ensures spots { OnOk result (spots.new.items ≡ spots.old.items ++ spots_of c.now) }
{
    let mut chains = Items::new(alloc);
    put_all_chains(alloc, &mut chains, spots, c)?;
    Ok(chains)
}

/// The diagram, put together from its chains and stages, and the spots of all entries and translations behind the others. Fails if
/// memory or numbers run out.
fn placed(alloc: Global, spots: &mut Vec<Spot>, c: &IosConfig) -> Result<Ifcl, Memory>
    ensures diagram { IfOk result (λ d. d ≡ placed_of c.now) }
    ensures spots { OnOk result (spots.new.items ≡ spots.old.items ++ spots_of c.now) }
{
    let arrive = two_stages(alloc, false, 0, 1)?;
    let forward = two_stages(alloc, true, 2, 3)?;
    Ok(Ifcl {
        chains: chains_of(alloc, spots, c)?,
        arrive,
        deliver: Items::new(alloc),
        forward,
        send: Items::new(alloc),
    })
}

/// A diagram of a configuration, and where in it each entry and each translation has its places. Entries are counted from 0 through
/// the lists, and translations behind them. On every site the diagram does with each packet what the configuration does, new or of
/// a connection, it can be unfolded, and what stands at the places that a packet's walk comes to is told in the order in which the
/// configuration uses it, and as often. It is the control diagram but for lists that several translations ask, which it has once
/// for each of them. Fails if memory or numbers for rules run out. Linear in the entries of the lists that are applied, each time
/// that they are, in the translations, and in the entries of the lists that these ask, each time that they do.
pub fn places(alloc: Global, c: &IosConfig, site: &Site) -> Result<(Ifcl, Vec<Spot>), Memory>
    ensures ok { IfOk result (λ x. ifcl_ok x.0 ≡ true) }
    ensures means { IfOk result (λ x. (p : Packet) (k : Kind) → means x.0 site.now p k ≡ walk c.now site.now p k) }
    ensures straight { IfOk result (λ x. is_straight x.0 ≡ true) }
    ensures unfolds { IfOk result (λ x. refusal_of x.0 ≡ None) }
    ensures spots { IfOk result (λ x. are_spots_of x.0 (count_of c.now) x.1.items ≡ true) }
    ensures uses { IfOk result (λ x. (p : Packet) (k : Kind) → told x.1.items (used_places x.0 site.now p k) ≡ used c.now site.now p k) }
{
    walks_go_by_places();
    rules_are_right_by_parts();
    straight_diagrams_unfold();
    uses_are_told_by_places();
    let mut spots = Vec::new(alloc);
    let d = placed(alloc, &mut spots, c)?;
    Ok((d, spots))
}
