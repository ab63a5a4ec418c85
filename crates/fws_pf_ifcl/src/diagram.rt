//! The diagram of a configuration.

ghost use Rattle.std.specs.Prelude.{◌≡◌, [], ◌∷◌, ◌++◌, true, false, None, IfOk, OnOk};
ghost use Rattle.fws_net.specs.declared.connection.Kind.{Kind};
ghost use Rattle.fws_net.specs.declared.packet.Packet.{Packet};
ghost use Rattle.fws_ifcl.specs.Refusals.{refusal_of};
ghost use Rattle.fws_ifcl.specs.Soundness.{ifcl_ok};
ghost use Rattle.fws_ifcl.specs.Spots.{are_spots_of, told};
ghost use Rattle.fws_ifcl.specs.Uses.{used_places};
ghost use Rattle.fws_ifcl.specs.Walk.{means};
ghost use Rattle.fws_ifcl_rules.specs.Rules.{ruled};
ghost use Rattle.fws_ifcl_rules.specs.Straight.{is_straight};
ghost use Rattle.fws_pf.specs.Uses.{used};
ghost use Rattle.fws_pf.specs.Walk.{translations, walk};
ghost use Rattle.fws_pf_ifcl.specs.Diagram.{ArePasses, IsDrawn, IsPass, filter_place, pass_stage, skipping, tracking, translations_place};
ghost use Rattle.fws_pf_ifcl.specs.Placed.{rule_count};

use crate::filter::put_filter_rules;
use crate::spots::spots_of;
use crate::translating::{put_translations, translation_widths};
use fws_ifcl::{Act, Chain, Ifcl, Rule, Spot, Stage};
use fws_ifcl_rules::{
    ruled_by, rules_are_right_by_parts, straight_diagrams_unfold, sum, uses_are_told_by_places,
    walks_go_by_places,
};
use fws_net::{Lit, Site, Test};
use fws_num::{Items, Memory, Text};
use fws_pf::{PfConfig, PfNat};
use fws_rules::positive;
use std::alloc::Global;

/// Puts a rule behind the others that acts where the literal holds. Fails if memory runs out.
fn put_where(alloc: Global, rules: &mut Vec<Rule>, lit: Lit, act: Act) -> Result<(), Memory>
    ensures { OnOk result (rules.new.items ≡ rules.old.items ++ ruled (lit ∷ []) act ∷ []) }
{
    let rule = ruled_by(alloc, lit, act)?;
    rules.push(rule)?;
    Ok(())
}

/// Puts the rules behind the others at which packets of connections pass. Fails if memory runs out.
fn put_tracking(alloc: Global, rules: &mut Vec<Rule>, outward: bool) -> Result<(), Memory>
    ensures { OnOk result (rules.new.items ≡ rules.old.items ++ tracking outward) }
{
    if outward {
        put_where(alloc, rules, positive(Test::Est), Act::Accept)?;
        return Ok(());
    }
    put_where(alloc, rules, positive(Test::Est), Act::RecDst)?;
    put_where(alloc, rules, positive(Test::Est), Act::Accept)?;
    Ok(())
}

/// Puts the rule behind the others at which packets pass on the interfaces that are skipped. Fails if memory runs out.
fn put_skipping(alloc: Global, rules: &mut Vec<Rule>, c: &PfConfig) -> Result<(), Memory>
    ensures { OnOk result (rules.new.items ≡ rules.old.items ++ skipping c.now) }
{
    let skipped = positive(Test::Via(c.skip.copy(alloc)?));
    put_where(alloc, rules, skipped, Act::Accept)?;
    Ok(())
}

/// The translations of a pass.
pub(crate) fn translations(c: &PfConfig, outward: bool) -> &[PfNat]
    ensures { result.now ≡ translations c.now outward }
{
    if outward {
        c.nat.as_slice()
    } else {
        c.rdr.as_slice()
    }
}

/// The place at which the translations of a pass begin.
pub(crate) fn translations_place(outward: bool) -> usize
    ensures { result ≡ translations_place outward }
{
    if outward { 2 } else { 3 }
}

/// The place at which the filter rules of a pass begin. Fails if memory runs out.
pub(crate) fn filter_place(outward: bool, c: &PfConfig) -> Result<usize, Memory>
    ensures { IfOk result (λ n. n ≡ filter_place outward c.now) }
{
    let first = translations_place(outward);
    let width = translation_widths(translations(c, outward))?;
    sum(first, width)
}

/// All rules of a pass, with those of the filter in the order of the configuration's or as they decide first. Fails if memory runs
/// out.
fn pass_rules(
    alloc: Global,
    in_order: bool,
    outward: bool,
    c: &PfConfig,
) -> Result<Vec<Rule>, Memory>
    ensures { IfOk result (λ rules. IsPass in_order outward c.now rules.items) }
{
    let filter = filter_place(outward, c)?;
    let mut rules = Vec::new(alloc);
    put_tracking(alloc, &mut rules, outward)?;
    put_skipping(alloc, &mut rules, c)?;
    put_translations(alloc, &mut rules, outward, filter, translations(c, outward))?;
    put_filter_rules(alloc, &mut rules, in_order, outward, c.filter.as_slice())?;
    Ok(rules)
}

/// The chain of these rules. Fails if memory runs out.
fn chain(alloc: Global, name: &[u8], rules: Vec<Rule>) -> Result<Chain, Memory>
    ensures { IfOk result (λ chain. chain ≡ record { name = name.now; rules = rules.items }) }
{
    Ok(Chain {
        name: Text::of(alloc, name)?,
        rules: Items::from_vec(rules),
    })
}

/// Puts the chain of these rules behind the others. Fails if memory runs out.
fn put_chain(
    alloc: Global,
    chains: &mut Items<Chain>,
    name: &[u8],
    rules: Vec<Rule>,
) -> Result<(), Memory>
    ensures { OnOk result (chains.new ≡ chains.old ++ record { name = name.now; rules = rules.items } ∷ []) }
{
    let chain = chain(alloc, name, rules)?;
    chains.put(chain)?;
    Ok(())
}

/// Puts the chains of the two passes behind the others. Fails if memory runs out.
fn put_chains(
    alloc: Global,
    chains: &mut Items<Chain>,
    in_order: bool,
    c: &PfConfig,
) -> Result<(), Memory>
    ensures { OnOk result (ArePasses in_order c.now chains.old chains.new) }
{
    put_chain(alloc, chains, b"in", pass_rules(alloc, in_order, false, c)?)?;
    put_chain(alloc, chains, b"out", pass_rules(alloc, in_order, true, c)?)?;
    Ok(())
}

/// The chains of the two passes. Fails if memory runs out.
fn chains_of(alloc: Global, in_order: bool, c: &PfConfig) -> Result<Items<Chain>, Memory>
    ensures { IfOk result (ArePasses in_order c.now []) }
{
    let mut chains = Items::new(alloc);
    put_chains(alloc, &mut chains, in_order, c)?;
    Ok(chains)
}

/// The stage of a pass.
fn pass_stage(outward: bool) -> Stage
    ensures { result ≡ pass_stage outward }
{
    Stage {
        chain: u32::from(outward),
        shows_recv: true,
        shows_xmit: outward,
        outward,
        end: true,
    }
}

/// The diagram, put together from its chains and stages. Fails if memory runs out.
fn drawn(alloc: Global, in_order: bool, c: &PfConfig) -> Result<Ifcl, Memory>
    ensures { IfOk result (IsDrawn in_order c.now) }
{
    let mut arrive = Items::new(alloc);
    arrive.put(pass_stage(false))?;
    let mut forward = Items::new(alloc);
    forward.put(pass_stage(true))?;
    let mut send = Items::new(alloc);
    send.put(pass_stage(true))?;
    Ok(Ifcl {
        chains: chains_of(alloc, in_order, c)?,
        arrive,
        deliver: Items::new(alloc),
        forward,
        send,
    })
}

/// The control diagram of a configuration. On every site it does with each packet what the configuration does, new or of a
/// connection, and it can be unfolded. One chain has the rules of packets that come in, and one those of packets that go out:
/// translations, the first of which that matches skips to the filter rules, and these, whose verdict so far is held as long as a
/// later one puts a tag, and of which behind that the one that decides stands first; there, neighbours that do the same and differ
/// in one set are one rule. Fails if memory or numbers for rules run out. Near-linear in the rules.
pub fn to_ifcl(alloc: Global, c: &PfConfig, site: &Site) -> Result<Ifcl, Memory>
    ensures diagram { IfOk result (IsDrawn false c.now) }
    ensures ok { IfOk result (λ d. ifcl_ok d ≡ true) }
    ensures means { IfOk result (λ d. (p : Packet) (k : Kind) → means d site.now p k ≡ walk c.now site.now p k) }
    ensures straight { IfOk result (λ d. is_straight d ≡ true) }
    ensures unfolds { IfOk result (λ d. refusal_of d ≡ None) }
{
    walks_go_by_places();
    rules_are_right_by_parts();
    straight_diagrams_unfold();
    let d = drawn(alloc, false, c)?;
    Ok(d)
}

/// A control diagram of a configuration, and where the configuration's rules stand in it. It does with each packet what the
/// configuration does, as the diagram of `to_ifcl` does, and the rules whose places a packet's walk uses are those that the
/// configuration's walk uses, as often and in the same order. So all filter rules stand in their order, and those that aren't quick
/// hold their verdict. A rule has a place on each pass on which it is met. The rules are counted from 0, those of rdr ahead of
/// those of nat, and these ahead of the filter's. Fails if memory or numbers for rules run out. Linear in the rules.
pub fn places(alloc: Global, c: &PfConfig, site: &Site) -> Result<(Ifcl, Vec<Spot>), Memory>
    ensures ok { IfOk result (λ x. ifcl_ok x.0 ≡ true) }
    ensures means { IfOk result (λ x. (p : Packet) (k : Kind) → means x.0 site.now p k ≡ walk c.now site.now p k) }
    ensures straight { IfOk result (λ x. is_straight x.0 ≡ true) }
    ensures unfolds { IfOk result (λ x. refusal_of x.0 ≡ None) }
    ensures spots { IfOk result (λ x. are_spots_of x.0 (rule_count c.now) x.1.items ≡ true) }
    ensures uses { IfOk result (λ x. (p : Packet) (k : Kind) → told x.1.items (used_places x.0 site.now p k) ≡ used c.now site.now p k) }
{
    walks_go_by_places();
    rules_are_right_by_parts();
    straight_diagrams_unfold();
    uses_are_told_by_places();
    let d = drawn(alloc, true, c)?;
    let spots = spots_of(alloc, c)?;
    Ok((d, spots))
}
