//! The diagram of a configuration.

ghost use Rattle.std.specs.Prelude.{◌≡◌, ◌++◌, ◌∷◌, [], None, true, IfOk, OnOk};
ghost use Rattle.fws_net.specs.declared.connection.Kind.{Kind};
ghost use Rattle.fws_net.specs.declared.packet.Packet.{Packet};
ghost use Rattle.fws_ifcl.specs.Refusals.{refusal_of};
ghost use Rattle.fws_ifcl.specs.Soundness.{ifcl_ok};
ghost use Rattle.fws_ifcl.specs.Walk.{means};
ghost use Rattle.fws_ifcl_rules.specs.Rules.{ruled};
ghost use Rattle.fws_ifcl_rules.specs.Straight.{is_straight};
ghost use Rattle.fws_ios.specs.Walk.{walk};
ghost use Rattle.fws_ios_ifcl.specs.Diagram.{chains_of, destination_rules, diagram_of, kept_destinations, kept_sources, list_rules, source_rules, stage_of};

use crate::applying::put_all_applied;
use crate::choosing::put_all_choosing;
use crate::names::Lists;
use crate::statics::put_statics;
use fws_ifcl::{Act, Chain, Ifcl, Rule, Stage};
use fws_ifcl_rules::{
    ruled_by, rules_are_right_by_parts, straight_diagrams_unfold, walks_go_by_places,
};
use fws_ios::IosConfig;
use fws_net::{Lit, Site, Test};
use fws_num::{Items, Memory, Text};
use fws_rules::{negative, positive};
use std::alloc::Global;

/// Puts a rule behind the others that acts where the literal holds. Fails if memory runs out.
fn put_where(alloc: Global, rules: &mut Vec<Rule>, lit: Lit, act: Act) -> Result<(), Memory>
    ensures { OnOk result (rules.new.items ≡ rules.old.items ++ ruled (lit ∷ []) act ∷ []) }
{
    let rule = ruled_by(alloc, lit, act)?;
    rules.push(rule)?;
    Ok(())
}

/// The rules of the lists that are applied in a direction. Fails if memory runs out.
fn list_rules(
    alloc: Global,
    outward: bool,
    lists: &Lists,
    c: &IosConfig,
) -> Result<Vec<Rule>, Memory>
    requires { lists.now ≡ c.now.lists }
    ensures { IfOk result (λ rules. rules.items ≡ list_rules outward c.now) }
{
    let mut rules = Vec::new(alloc);
    put_all_applied(alloc, &mut rules, outward, lists, c.groups.as_slice())?;
    Ok(rules)
}

/// The rules of packets that keep their destinations, or have that of their connection. Fails if memory runs out.
pub(crate) fn kept_destinations(alloc: Global, c: &IosConfig) -> Result<Vec<Rule>, Memory>
    ensures { IfOk result (λ rules. rules.items ≡ kept_destinations c.now) }
{
    let outside = c.outside.copy(alloc)?;
    let mut rules = Vec::new(alloc);
    put_where(alloc, &mut rules, positive(Test::Est), Act::RecDst)?;
    put_where(alloc, &mut rules, positive(Test::Est), Act::Accept)?;
    put_where(
        alloc,
        &mut rules,
        negative(Test::Recv(outside)),
        Act::Accept,
    )?;
    Ok(rules)
}

/// The rules that translate destinations. Fails if memory runs out.
fn destination_rules(alloc: Global, c: &IosConfig) -> Result<Vec<Rule>, Memory>
    ensures { IfOk result (λ rules. rules.items ≡ destination_rules c.now) }
{
    let mut rules = kept_destinations(alloc, c)?;
    put_statics(alloc, &mut rules, false, c.nats.as_slice())?;
    Ok(rules)
}

/// The rules of packets that keep their sources, or have that of their connection. Fails if memory runs out.
pub(crate) fn kept_sources(alloc: Global, c: &IosConfig) -> Result<Vec<Rule>, Memory>
    ensures { IfOk result (λ rules. rules.items ≡ kept_sources c.now) }
{
    let inside = c.inside.copy(alloc)?;
    let outside = c.outside.copy(alloc)?;
    let mut rules = Vec::new(alloc);
    put_where(alloc, &mut rules, positive(Test::Est), Act::RecSrc)?;
    put_where(alloc, &mut rules, positive(Test::Est), Act::Accept)?;
    put_where(alloc, &mut rules, negative(Test::Recv(inside)), Act::Accept)?;
    put_where(
        alloc,
        &mut rules,
        negative(Test::Xmit(outside)),
        Act::Accept,
    )?;
    Ok(rules)
}

/// The rules that translate sources, by statics first and by lists then. Fails if memory runs out.
fn source_rules(alloc: Global, lists: &Lists, c: &IosConfig) -> Result<Vec<Rule>, Memory>
    requires { lists.now ≡ c.now.lists }
    ensures { IfOk result (λ rules. rules.items ≡ source_rules c.now) }
{
    let nats = c.nats.as_slice();
    let mut rules = kept_sources(alloc, c)?;
    put_statics(alloc, &mut rules, true, nats)?;
    put_all_choosing(alloc, &mut rules, lists, nats)?;
    Ok(rules)
}

/// The chain of these rules. Fails if memory runs out.
fn chain(alloc: Global, name: &[u8], rules: Vec<Rule>) -> Result<Chain, Memory>
    ensures { IfOk result (λ chain. chain ≡ record { name = name.now; rules = rules.items }) }
{
    Ok(Chain {
        name: Text::of(alloc, name)?,
        rules: Items::from_vec(rules),
    })
}

/// Puts the chain of these rules behind the others. Fails if memory runs out.
pub(crate) fn put_chain(
    alloc: Global,
    chains: &mut Items<Chain>,
    name: &[u8],
    rules: Vec<Rule>,
) -> Result<(), Memory>
    ensures { OnOk result (chains.new ≡ chains.old ++ record { name = name.now; rules = rules.items } ∷ []) }
{
    let chain = chain(alloc, name, rules)?;
    chains.put(chain)?;
    Ok(())
}

/// Puts the chains behind the others, with the lists by their names. Fails if memory runs out.
fn put_chains(
    alloc: Global,
    chains: &mut Items<Chain>,
    lists: &Lists,
    c: &IosConfig,
) -> Result<(), Memory>
    requires { lists.now ≡ c.now.lists }
    ensures { OnOk result (chains.new ≡ chains.old ++ chains_of c.now) }
{
    put_chain(alloc, chains, b"in", list_rules(alloc, false, lists, c)?)?;
    put_chain(alloc, chains, b"destination", destination_rules(alloc, c)?)?;
    put_chain(alloc, chains, b"source", source_rules(alloc, lists, c)?)?;
    put_chain(alloc, chains, b"out", list_rules(alloc, true, lists, c)?)?;
    Ok(())
}

/// Puts the chains behind the others, by their lists. Fails if memory runs out.
fn put_all_chains(alloc: Global, chains: &mut Items<Chain>, c: &IosConfig) -> Result<(), Memory>
    ensures { OnOk result (chains.new ≡ chains.old ++ chains_of c.now) }
{
    let lists = Lists::of(alloc, c.lists.as_slice())?;
    put_chains(alloc, chains, &lists, c)
}

/// The chains: lists as packets come in, destinations, sources, and lists as packets go out. Fails if memory runs out.
fn chains_of(alloc: Global, c: &IosConfig) -> Result<Items<Chain>, Memory>
    ensures { IfOk result (λ chains. chains ≡ chains_of c.now) }
{
    let mut chains = Items::new(alloc);
    put_all_chains(alloc, &mut chains, c)?;
    Ok(chains)
}

/// The stage of a chain, on the side of packets that come in or that go out.
fn stage_of(outward: bool, chain: u32) -> Stage
    ensures { result ≡ stage_of outward chain }
{
    Stage {
        chain,
        shows_recv: true,
        shows_xmit: outward,
        outward,
        end: true,
    }
}

/// The stages of two chains, on the side of packets that come in or that go out. Fails if memory runs out.
pub(crate) fn two_stages(
    alloc: Global,
    outward: bool,
    first: u32,
    second: u32,
) -> Result<Items<Stage>, Memory>
    ensures { IfOk result (λ stages. stages ≡ stage_of outward first ∷ stage_of outward second ∷ []) }
{
    let mut stages = Items::new(alloc);
    stages.put(stage_of(outward, first))?;
    stages.put(stage_of(outward, second))?;
    Ok(stages)
}

/// The diagram, put together from its chains and stages. Fails if memory runs out.
fn drawn(alloc: Global, c: &IosConfig) -> Result<Ifcl, Memory>
    ensures { IfOk result (λ d. d ≡ diagram_of c.now) }
{
    let arrive = two_stages(alloc, false, 0, 1)?;
    let forward = two_stages(alloc, true, 2, 3)?;
    Ok(Ifcl {
        chains: chains_of(alloc, c)?,
        arrive,
        deliver: Items::new(alloc),
        forward,
        send: Items::new(alloc),
    })
}

/// The control diagram of a configuration. On every site it does with each packet what the configuration does, new or of a
/// connection, and it can be unfolded. One chain has the lists that are applied to packets that come in, one translates
/// destinations, one sources, and one has the lists of packets that go out. Fails if memory or numbers for rules run out. Linear in
/// the entries of the lists that are applied, each time that they are, in the translations, and in the entries of the lists that
/// these ask.
pub fn to_ifcl(alloc: Global, c: &IosConfig, site: &Site) -> Result<Ifcl, Memory>
    ensures diagram { IfOk result (λ d. d ≡ diagram_of c.now) }
    ensures ok { IfOk result (λ d. ifcl_ok d ≡ true) }
    ensures means { IfOk result (λ d. (p : Packet) (k : Kind) → means d site.now p k ≡ walk c.now site.now p k) }
    ensures straight { IfOk result (λ d. is_straight d ≡ true) }
    ensures unfolds { IfOk result (λ d. refusal_of d ≡ None) }
{
    walks_go_by_places();
    rules_are_right_by_parts();
    straight_diagrams_unfold();
    let d = drawn(alloc, c)?;
    Ok(d)
}
