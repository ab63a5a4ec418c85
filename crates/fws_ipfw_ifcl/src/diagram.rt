//! The diagram of a configuration.

ghost use Rattle.std.specs.Prelude.{◌≡◌, ℕ, ◌+◌, ◌++◌, ◌∷◌, [], List, true, false, None, length, IfOk, OnOk};
ghost use Rattle.std.specs.List.{list_any};
ghost use Rattle.fws_net.specs.declared.connection.Kind.{Kind};
ghost use Rattle.fws_net.specs.declared.packet.Packet.{Packet};
ghost use Rattle.fws_ifcl.specs.Refusals.{refusal_of};
ghost use Rattle.fws_ifcl.specs.Soundness.{ifcl_ok};
ghost use Rattle.fws_ifcl.specs.Spots.{are_spots_of, told};
ghost use Rattle.fws_ifcl.specs.Uses.{used_places};
ghost use Rattle.fws_ifcl.specs.Walk.{means};
ghost use Rattle.fws_ifcl_rules.specs.Straight.{is_straight};
ghost use Rattle.fws_ipfw.specs.Soundness.{are_apart, are_ordered};
ghost use Rattle.fws_ipfw.specs.Uses.{used};
ghost use Rattle.fws_ipfw.specs.Walk.{walk};
ghost use Rattle.fws_ipfw_ifcl.specs.Blocks.{place_behind, starts_from};
ghost use Rattle.fws_ipfw_ifcl.specs.Diagram.{all_rules, chains_of, diagram_of, ending, ending_place, goes_on, half, half_place, pass_stage, destination_stage, second_half, second_place, translates};
ghost use Rattle.fws_ipfw_ifcl.specs.Fitting.{IsDrawable};
ghost use Rattle.fws_ipfw_ifcl.specs.Placed.{with_counts};

use crate::blocks::{Leads, put_block};
use crate::counts::with_counts;
use crate::instances::Instances;
use crate::layout::{skipping_to, starts_from};
use crate::spots::spots_of;
use fws_ifcl::{Act, Chain, Ifcl, Rule, Spot, Stage};
use fws_ifcl_rules::{
    always, put_always, ruled_by, rules_are_right_by_parts, straight_diagrams_unfold, sum,
    uses_are_told_by_places, walks_go_by_places,
};
use fws_ipfw::{IpfwAct, IpfwConfig, IpfwRule};
use fws_net::{Site, Test};
use fws_num::{Items, Memory, Text};
use fws_rules::{negative, positive};
use std::alloc::Global;

/// Whether an act translates.
fn translates(act: IpfwAct) -> bool
    ensures { result ≡ translates act }
{
    match act {
        IpfwAct::Nat(_) => true,
        IpfwAct::Allow | IpfwAct::Deny | IpfwAct::Count | IpfwAct::Skip(_) | IpfwAct::Check =>
            false,
    }
}

/// Whether some rule translates.
fn any_translates(rules: &[IpfwRule]) -> bool
    ensures { result ≡ list_any (λ rule. translates rule.act) rules.now }
{
    rules.iter().any(|rule| translates(rule.act))
}

/// Whether some packet may go on behind a translation.
fn goes_on(site: &Site, c: &IpfwConfig) -> bool
    ensures { result ≡ goes_on site.now c.now }
{
    !site.one_pass && any_translates(c.rules.as_slice())
}

/// Where the halves of a diagram's rules stand.
#[derive(Drop)]
pub(crate) struct Layout {
    /// Where the rules of each rule begin in the first half, and the place behind them.
    first: Vec<usize>,
    /// The same of the second half, or where it would stand.
    second: Vec<usize>,
    /// The place of the second half, or where it would stand.
    pub(crate) begin: usize,
    /// Whether there is a second half.
    pub(crate) goes_on: bool,
    /// The place of the rules that end a pass.
    ends: usize,
}

/// The layout of a configuration's diagram. Fails if memory runs out.
pub(crate) fn laid_out(
    alloc: Global,
    instances: &Instances,
    c: &IpfwConfig,
    site: &Site,
) -> Result<Layout, Memory>
    requires { are_apart c.now.nats ≡ true }
    ensures first_count { IfOk result (λ l. length l.first.items ≡ length c.now.rules + 1) }
    ensures second_count { IfOk result (λ l. length l.second.items ≡ length c.now.rules + 1) }
    ensures first { IfOk result (λ l. l.first.items ≡ starts_from c.now.nats false 0 c.now.rules) }
    ensures second { IfOk result (λ l. l.second.items ≡ starts_from c.now.nats true (second_place c.now) c.now.rules) }
    ensures begin { IfOk result (λ l. l.begin ≡ second_place c.now) }
    ensures goes_on { IfOk result (λ l. l.goes_on ≡ goes_on site.now c.now) }
    ensures ends { IfOk result (λ l. l.ends ≡ ending_place site.now c.now) }
{
    let nats = c.nats.as_slice();
    let rules = c.rules.as_slice();
    let count = rules.len();
    let first = starts_from(alloc, instances, nats, false, 0, rules)?;
    let begin = sum(first[count], 1)?;
    let second = starts_from(alloc, instances, nats, true, begin, rules)?;
    let goes_on = goes_on(site, c);
    let last = if goes_on { second[count] } else { begin };
    let ends = sum(last, 1)?;
    Ok(Layout {
        first,
        second,
        begin,
        goes_on,
        ends,
    })
}

/// Where a packet goes on behind the translation of a rule, of which the next has this place in the second half. Fails if memory
/// runs out.
fn place_behind(one_pass: bool, ends: usize, next: usize) -> Result<usize, Memory>
    ensures { IfOk result (λ place. place ≡ place_behind one_pass ends next) }
{
    if one_pass { sum(ends, 2) } else { Ok(next) }
}

/// Puts the rules of one half behind the others, which begin at these places, and those of the second half at the others. Fails if
/// memory runs out.
fn put_half(
    alloc: Global,
    rules: &mut Vec<Rule>,
    instances: &Instances,
    c: &IpfwConfig,
    site: &Site,
    translated: bool,
    starts: &[usize],
    others: &[usize],
    ends: usize,
) -> Result<(), Memory>
    requires drawable { IsDrawable c.now }
    requires starts { starts.now ≡ starts_from c.now.nats translated (half_place c.now translated) c.now.rules }
    requires others { others.now ≡ starts_from c.now.nats true (second_place c.now) c.now.rules }
    requires starts_count { length starts.now ≡ length c.now.rules + 1 }
    requires others_count { length others.now ≡ length c.now.rules + 1 }
    requires ends { ends ≡ ending_place site.now c.now }
    requires begin { length rules.old.items ≡ half_place c.now translated }
    ensures { OnOk result (rules.new.items ≡ rules.old.items ++ half site.now c.now translated) }
{
    let nats = c.nats.as_slice();
    let all = c.rules.as_slice();
    for k in 0..all.len() {
        let rule = &all[k];
        let leads = Leads {
            translated,
            ends,
            done: place_behind(site.one_pass, ends, others[k + 1])?,
            to: skipping_to(starts, all, k + 1, rule.act),
        };
        put_block(alloc, rules, instances, nats, leads, rule)?;
    }
    Ok(())
}

/// Puts the rules that end a pass behind the others. Fails if memory runs out.
fn put_ending(alloc: Global, rules: &mut Vec<Rule>) -> Result<(), Memory>
    ensures { OnOk result (rules.new.items ≡ rules.old.items ++ ending) }
{
    let inward = ruled_by(alloc, negative(Test::Outward), Act::RecDst)?;
    rules.push(inward)?;
    let outward = ruled_by(alloc, positive(Test::Outward), Act::RecSrc)?;
    rules.push(outward)?;
    put_always(alloc, rules, Act::Accept)
}

/// Puts the rules of the second half behind the others, where some packet may go on behind a translation. Fails if memory runs out.
fn put_second_half(
    alloc: Global,
    rules: &mut Vec<Rule>,
    instances: &Instances,
    c: &IpfwConfig,
    site: &Site,
    is_there: bool,
    others: &[usize],
    ends: usize,
) -> Result<(), Memory>
    requires drawable { IsDrawable c.now }
    requires is_there { is_there ≡ goes_on site.now c.now }
    requires others { others.now ≡ starts_from c.now.nats true (second_place c.now) c.now.rules }
    requires others_count { length others.now ≡ length c.now.rules + 1 }
    requires ends { ends ≡ ending_place site.now c.now }
    requires begin { length rules.old.items ≡ second_place c.now }
    ensures { OnOk result (rules.new.items ≡ rules.old.items ++ second_half site.now c.now) }
{
    if is_there {
        put_half(alloc, rules, instances, c, site, true, others, others, ends)?;
        return Ok(());
    }
    Ok(())
}

/// All rules of a pass. Fails if memory runs out.
fn all_rules(alloc: Global, c: &IpfwConfig, site: &Site) -> Result<Vec<Rule>, Memory>
    requires { IsDrawable c.now }
    ensures { IfOk result (λ rules. rules.items ≡ all_rules site.now c.now) }
{
    let instances = Instances::of(alloc, c.nats.as_slice())?;
    let layout = laid_out(alloc, &instances, c, site)?;
    let first = layout.first.as_slice();
    let second = layout.second.as_slice();
    let ends = layout.ends;
    let mut rules = Vec::new(alloc);
    put_half(
        alloc, &mut rules, &instances, c, site, false, first, second, ends,
    )?;
    put_always(alloc, &mut rules, Act::Drop)?;
    put_second_half(
        alloc,
        &mut rules,
        &instances,
        c,
        site,
        layout.goes_on,
        second,
        ends,
    )?;
    put_always(alloc, &mut rules, Act::Drop)?;
    put_ending(alloc, &mut rules)?;
    Ok(rules)
}

/// The chain of all rules of a pass, and the one that puts the destination of a connection in place. Fails if memory runs out.
fn chains_of(alloc: Global, c: &IpfwConfig, site: &Site) -> Result<Items<Chain>, Memory>
    requires { IsDrawable c.now }
    ensures { IfOk result (λ chains. chains ≡ chains_of site.now c.now) }
{
    let mut chains = Items::new(alloc);
    chains.put(Chain {
        name: Text::of(alloc, b"rules")?,
        rules: Items::from_vec(all_rules(alloc, c, site)?),
    })?;
    let mut own = Items::new(alloc);
    own.put(always(alloc, Act::RecDst))?;
    chains.put(Chain {
        name: Text::of(alloc, b"destination")?,
        rules: own,
    })?;
    Ok(chains)
}

/// The stage of a pass.
fn pass_stage(outward: bool) -> Stage
    ensures { result ≡ pass_stage outward }
{
    Stage {
        chain: 0,
        shows_recv: true,
        shows_xmit: outward,
        outward,
        end: true,
    }
}

/// The stage that puts the destination of a connection in place.
fn destination_stage() -> Stage
    ensures { result ≡ destination_stage }
{
    Stage {
        chain: 1,
        shows_recv: false,
        shows_xmit: false,
        outward: false,
        end: true,
    }
}

/// The diagram, put together from its chains and stages. Fails if memory runs out.
fn drawn(alloc: Global, c: &IpfwConfig, site: &Site) -> Result<Ifcl, Memory>
    requires { IsDrawable c.now }
    ensures { IfOk result (λ d. d ≡ diagram_of site.now c.now) }
{
    let mut arrive = Items::new(alloc);
    arrive.put(pass_stage(false))?;
    let mut forward = Items::new(alloc);
    forward.put(pass_stage(true))?;
    let mut send = Items::new(alloc);
    send.put(destination_stage())?;
    send.put(pass_stage(true))?;
    Ok(Ifcl {
        chains: chains_of(alloc, c, site)?,
        arrive,
        deliver: Items::new(alloc),
        forward,
        send,
    })
}

/// The control diagram of a configuration on a site. It does with each packet what the configuration does, new or of a connection,
/// and it can be unfolded. One chain has the rules of all passes, each rule in its place, and once more for packets that were
/// translated where these go on; another puts the destination of a connection in place for packets of the host. Fails if memory or
/// numbers for rules run out. Linear in the rules and in the redirects of the instances that they name.
pub fn to_ifcl(alloc: Global, c: &IpfwConfig, site: &Site) -> Result<Ifcl, Memory>
    requires { IsDrawable c.now }
    ensures diagram { IfOk result (λ d. d ≡ diagram_of site.now c.now) }
    ensures ok { IfOk result (λ d. ifcl_ok d ≡ true) }
    ensures means { IfOk result (λ d. (p : Packet) (k : Kind) → means d site.now p k ≡ walk c.now site.now p k) }
    ensures straight { IfOk result (λ d. is_straight d ≡ true) }
    ensures unfolds { IfOk result (λ d. refusal_of d ≡ None) }
{
    walks_go_by_places();
    rules_are_right_by_parts();
    straight_diagrams_unfold();
    let d = drawn(alloc, c, site)?;
    Ok(d)
}

/// A control diagram of a configuration on a site, and where the configuration's rules stand in it. It does with each packet what
/// the configuration does, as the diagram of `to_ifcl` does, and the rules whose places a packet's walk uses are those that the
/// configuration's walk uses, as often and in the same order. So ahead of a rule that keeps state or checks it one is drawn that
/// has its condition and does nothing: packets of connections pass at the rules behind it by other conditions. A rule has one place
/// in each half: in the one for packets that weren't translated in their pass, and in the other, where there is one. The rules are
/// counted from 0, as they stand. Fails if memory or numbers for rules run out. Linear in the rules and in the redirects of the
/// instances that they name.
pub fn places(alloc: Global, c: &IpfwConfig, site: &Site) -> Result<(Ifcl, Vec<Spot>), Memory>
    requires { IsDrawable c.now }
    ensures ok { IfOk result (λ x. ifcl_ok x.0 ≡ true) }
    ensures means { IfOk result (λ x. (p : Packet) (k : Kind) → means x.0 site.now p k ≡ walk c.now site.now p k) }
    ensures straight { IfOk result (λ x. is_straight x.0 ≡ true) }
    ensures unfolds { IfOk result (λ x. refusal_of x.0 ≡ None) }
    ensures spots { IfOk result (λ x. are_spots_of x.0 (length c.now.rules) x.1.items ≡ true) }
    ensures uses { IfOk result (λ x. (p : Packet) (k : Kind) → told x.1.items (used_places x.0 site.now p k) ≡ used c.now site.now p k) }
{
    walks_go_by_places();
    rules_are_right_by_parts();
    straight_diagrams_unfold();
    uses_are_told_by_places();
    let counted = with_counts(alloc, c)?;
    let d = drawn(alloc, &counted, site)?;
    let spots = spots_of(alloc, c, &counted, site)?;
    Ok((d, spots))
}
