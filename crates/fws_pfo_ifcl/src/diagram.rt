//! The diagram of a configuration.

ghost use Rattle.std.specs.Prelude.{◌≡◌, [], ◌∷◌, ◌++◌, false, true, None, IfOk, OnOk};
ghost use Rattle.fws_net.specs.declared.connection.Kind.{Kind};
ghost use Rattle.fws_net.specs.declared.packet.Packet.{Packet};
ghost use Rattle.fws_ifcl.specs.Refusals.{refusal_of};
ghost use Rattle.fws_ifcl.specs.Soundness.{ifcl_ok};
ghost use Rattle.fws_ifcl.specs.Walk.{means};
ghost use Rattle.fws_ifcl_rules.specs.Rules.{ruled};
ghost use Rattle.fws_ifcl_rules.specs.Straight.{is_straight};
ghost use Rattle.fws_pfo.specs.Soundness.{is_fitting};
ghost use Rattle.fws_pfo.specs.Walk.{walk};
ghost use Rattle.fws_pfo_ifcl.specs.Diagram.{ArePasses, IsDrawn, IsPass, clearing, frame_of, front_rules, larger, pass_stage, skipping, tracking};

use crate::acting::put_acts;
use crate::filter::put_filter_rules;
use crate::frame::frame_of;
use crate::held::{bits_of, put_telling};
use fws_ifcl::{Act, Chain, Ifcl, Rule, Stage};
use fws_ifcl_rules::{
    ruled_by, rules_are_right_by_parts, straight_diagrams_unfold, walks_go_by_places,
};
use fws_net::{Lit, Site, Test};
use fws_num::{Items, Memory, Text};
use fws_pfo::PfoConfig;
use fws_rules::positive;
use std::alloc::Global;

/// Puts a rule behind the others that acts where the literal holds. Fails if memory runs out.
fn put_where(alloc: Global, rules: &mut Vec<Rule>, lit: Lit, act: Act) -> Result<(), Memory>
    ensures { OnOk result (rules.new.items ≡ rules.old.items ++ ruled (lit ∷ []) act ∷ []) }
{
    let rule = ruled_by(alloc, lit, act)?;
    rules.push(rule)?;
    Ok(())
}

/// Puts the rules behind the others at which packets of connections pass. Fails if memory runs out.
fn put_tracking(alloc: Global, rules: &mut Vec<Rule>, outward: bool) -> Result<(), Memory>
    ensures { OnOk result (rules.new.items ≡ rules.old.items ++ tracking outward) }
{
    if outward {
        put_where(alloc, rules, positive(Test::Est), Act::Accept)?;
        return Ok(());
    }
    put_where(alloc, rules, positive(Test::Est), Act::RecDst)?;
    put_where(alloc, rules, positive(Test::Est), Act::Accept)?;
    Ok(())
}

/// Puts the rule behind the others at which packets pass on the interfaces that are skipped. Fails if memory runs out.
fn put_skipping(alloc: Global, rules: &mut Vec<Rule>, c: &PfoConfig) -> Result<(), Memory>
    ensures { OnOk result (rules.new.items ≡ rules.old.items ++ skipping c.now) }
{
    let skipped = positive(Test::Via(c.skip.copy(alloc)?));
    put_where(alloc, rules, skipped, Act::Accept)?;
    Ok(())
}

/// The larger number.
fn larger(a: usize, b: usize) -> usize
    ensures { result ≡ larger a b }
{
    if a < b { b } else { a }
}

/// How many tags tell bits on either pass. Fails if memory runs out.
fn most_bits(alloc: Global, c: &PfoConfig) -> Result<usize, Memory>
    ensures { IfOk result (λ n. n ≡ larger (frame_of false c.now).bits (frame_of true c.now).bits) }
{
    let inward = frame_of(alloc, false, c)?.bits;
    let outward = frame_of(alloc, true, c)?.bits;
    Ok(larger(inward, outward))
}

/// Puts the rules behind the others at which a pass begins with no end held. Fails if memory runs out.
fn put_clearing(
    alloc: Global,
    rules: &mut Vec<Rule>,
    outward: bool,
    c: &PfoConfig,
) -> Result<(), Memory>
    ensures { OnOk result (rules.new.items ≡ rules.old.items ++ clearing outward c.now) }
{
    if !outward {
        return Ok(());
    }
    let first = u32::try_from(c.tags.len()).map_err(|_| Memory)?;
    let bits = bits_of(alloc, most_bits(alloc, c)?, 0)?;
    let mut acts = Vec::new(alloc);
    put_telling(&mut acts, first, bits.as_slice())?;
    put_acts(alloc, rules, acts.as_slice())?;
    Ok(())
}

/// The rules of a pass ahead of those of the configuration. Fails if memory runs out.
fn front_rules(alloc: Global, outward: bool, c: &PfoConfig) -> Result<Vec<Rule>, Memory>
    ensures { IfOk result (λ rules. rules.items ≡ front_rules outward c.now) }
{
    let mut rules = Vec::new(alloc);
    put_tracking(alloc, &mut rules, outward)?;
    put_skipping(alloc, &mut rules, c)?;
    put_clearing(alloc, &mut rules, outward, c)?;
    Ok(rules)
}

/// All rules of a pass. Fails if memory runs out.
fn pass_rules(alloc: Global, outward: bool, c: &PfoConfig) -> Result<Vec<Rule>, Memory>
    ensures { IfOk result (λ rules. IsPass outward c.now rules.items) }
{
    let frame = frame_of(alloc, outward, c)?;
    let mut rules = front_rules(alloc, outward, c)?;
    put_filter_rules(alloc, &mut rules, &frame, c.rules.as_slice())?;
    Ok(rules)
}

/// The chain of these rules. Fails if memory runs out.
fn chain(alloc: Global, name: &[u8], rules: Vec<Rule>) -> Result<Chain, Memory>
    ensures { IfOk result (λ chain. chain ≡ record { name = name.now; rules = rules.items }) }
{
    Ok(Chain {
        name: Text::of(alloc, name)?,
        rules: Items::from_vec(rules),
    })
}

/// Puts the chain of these rules behind the others. Fails if memory runs out.
fn put_chain(
    alloc: Global,
    chains: &mut Items<Chain>,
    name: &[u8],
    rules: Vec<Rule>,
) -> Result<(), Memory>
    ensures { OnOk result (chains.new ≡ chains.old ++ record { name = name.now; rules = rules.items } ∷ []) }
{
    let chain = chain(alloc, name, rules)?;
    chains.put(chain)?;
    Ok(())
}

/// Puts the chains of the two passes behind the others. Fails if memory runs out.
fn put_chains(alloc: Global, chains: &mut Items<Chain>, c: &PfoConfig) -> Result<(), Memory>
    ensures { OnOk result (ArePasses c.now chains.old chains.new) }
{
    put_chain(alloc, chains, b"in", pass_rules(alloc, false, c)?)?;
    put_chain(alloc, chains, b"out", pass_rules(alloc, true, c)?)?;
    Ok(())
}

/// The chains of the two passes. Fails if memory runs out.
fn chains_of(alloc: Global, c: &PfoConfig) -> Result<Items<Chain>, Memory>
    ensures { IfOk result (ArePasses c.now []) }
{
    let mut chains = Items::new(alloc);
    put_chains(alloc, &mut chains, c)?;
    Ok(chains)
}

/// The stage of a pass.
fn pass_stage(outward: bool) -> Stage
    ensures { result ≡ pass_stage outward }
{
    Stage {
        chain: u32::from(outward),
        shows_recv: true,
        shows_xmit: outward,
        outward,
        end: true,
    }
}

/// The diagram, put together from its chains and stages. Fails if memory runs out.
fn drawn(alloc: Global, c: &PfoConfig) -> Result<Ifcl, Memory>
    ensures { IfOk result (IsDrawn c.now) }
{
    let mut arrive = Items::new(alloc);
    arrive.put(pass_stage(false))?;
    let mut forward = Items::new(alloc);
    forward.put(pass_stage(true))?;
    let mut send = Items::new(alloc);
    send.put(pass_stage(true))?;
    Ok(Ifcl {
        chains: chains_of(alloc, c)?,
        arrive,
        deliver: Items::new(alloc),
        forward,
        send,
    })
}

/// The control diagram of a fitting configuration. On its site it does with each packet what the configuration does, new or of a
/// connection, and it can be unfolded. One chain has the rules of packets that come in, and one those of packets that go out. Ahead
/// of the last rule that puts a tag or writes at once they stand in their order; there the verdict so far is held, and tags of the
/// packet tell the number of the end that is held. Behind that the rule that decides stands first; there, neighbours that do the
/// same and differ in one set are one rule. At the end stand the ends that may be held. Fails if memory or numbers for rules and
/// tags run out. Near-linear in the rules, and linear in the different ends for each rule that holds one.
pub fn to_ifcl(alloc: Global, c: &PfoConfig, site: &Site) -> Result<Ifcl, Memory>
    requires { is_fitting site.now c.now ≡ true }
    ensures diagram { IfOk result (IsDrawn c.now) }
    ensures ok { IfOk result (λ d. ifcl_ok d ≡ true) }
    ensures means { IfOk result (λ d. (p : Packet) (k : Kind) → means d site.now p k ≡ walk c.now site.now p k) }
    ensures straight { IfOk result (λ d. is_straight d ≡ true) }
    ensures unfolds { IfOk result (λ d. refusal_of d ≡ None) }
{
    walks_go_by_places();
    rules_are_right_by_parts();
    straight_diagrams_unfold();
    let d = drawn(alloc, c)?;
    Ok(d)
}
