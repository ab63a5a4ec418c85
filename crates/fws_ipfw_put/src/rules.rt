//! The rules that stand besides those of trees.

ghost use Rattle.std.specs.Prelude.{◌≡◌, ◌+◌, ◌≤◌, ◌<◌, false, [], ◌∷◌, ◌++◌, length, IfOk, OnOk};
ghost use Rattle.fws_net.specs.Routes.{IsSound};
ghost use Rattle.fws_ipfw_put.specs.Layout.{allowing, destination_rules, inward, leaving_rules, lookup_rules, outwards, plain_rule, source_rules, tagged_with, unreceived, destination_pair, source_rule};

use crate::sections::{
    ARRIVED, ARRIVED_LEAVE, DESTINATIONS, KNOWN_SENT, LOOKUP, OWN_LEAVE, SOURCES, TAGGING,
    TO_SOURCES,
};
use fws_ipfw::{IpfwAct, IpfwRule, IpfwTag};
use fws_iv::one;
use fws_net::{Cond, End, Lit, Site, Test};
use fws_num::{Items, Memory};
use std::alloc::Global;

/// The packet doesn't leave.
fn inward() -> Lit
    ensures { result ≡ inward }
{
    Lit {
        not: true,
        test: Test::Outward,
    }
}

/// The packet leaves.
fn outwards() -> Lit
    ensures { result ≡ outwards }
{
    Lit {
        not: false,
        test: Test::Outward,
    }
}

/// The packet has this tag.
fn tagged_with(tag: u32) -> Lit
    ensures { result ≡ tagged_with tag }
{
    Lit {
        not: false,
        test: Test::Tag(tag),
    }
}

/// No interface received the packet. Fails if memory runs out.
fn unreceived(alloc: Global, site: &Site) -> Result<Lit, Memory>
    requires { IsSound site.now }
    ensures { IfOk result (λ lit. lit ≡ unreceived site.now) }
{
    let last = site.faces.as_slice().len() as u32 + 1;
    Ok(Lit {
        not: true,
        test: Test::Recv(one(alloc, 1, last)?),
    })
}

/// The condition of one literal. Fails if memory runs out.
fn one_literal(alloc: Global, lit: Lit) -> Result<Cond, Memory>
    ensures { IfOk result (λ cond. cond ≡ lit ∷ []) }
{
    let mut cond = Cond::new(alloc);
    cond.put(lit)?;
    Ok(cond)
}

/// The condition of two literals. Fails if memory runs out.
fn two_literals(alloc: Global, first: Lit, second: Lit) -> Result<Cond, Memory>
    ensures { IfOk result (λ cond. cond ≡ first ∷ second ∷ []) }
{
    let mut cond = Cond::new(alloc);
    cond.put(first)?;
    cond.put(second)?;
    Ok(cond)
}

/// The condition that a packet leaves and has this tag. Fails if memory runs out.
fn leaving_with(alloc: Global, tag: u32) -> Result<Cond, Memory>
    ensures { IfOk result (λ cond. cond ≡ outwards ∷ tagged_with tag ∷ []) }
{
    two_literals(alloc, outwards(), tagged_with(tag))
}

/// A rule that leaves tags and state as they are.
fn plain_rule(number: u32, cond: Cond, act: IpfwAct) -> IpfwRule
    ensures { result ≡ plain_rule number cond act }
{
    IpfwRule {
        number,
        cond,
        act,
        tag: IpfwTag::Nothing,
        keep: false,
    }
}

/// A rule that allows packets and keeps state.
fn allowing(number: u32, cond: Cond) -> IpfwRule
    ensures { result ≡ allowing number cond }
{
    IpfwRule {
        number,
        cond,
        act: IpfwAct::Allow,
        tag: IpfwTag::Nothing,
        keep: true,
    }
}

/// Puts the rules by which new packets that arrived go on to the look-up of connections as they leave, and packets of the host past
/// the list of those that are forwarded. Fails if memory runs out.
pub(crate) fn put_leaving(
    alloc: Global,
    rules: &mut Items<IpfwRule>,
    site: &Site,
) -> Result<(), Memory>
    requires { IsSound site.now }
    ensures { OnOk result (rules.new ≡ rules.old ++ leaving_rules site.now) }
{
    let arrived = leaving_with(alloc, ARRIVED)?;
    let own = two_literals(alloc, outwards(), unreceived(alloc, site)?)?;
    rules.put(plain_rule(ARRIVED_LEAVE, arrived, IpfwAct::Skip(LOOKUP)))?;
    rules.put(plain_rule(OWN_LEAVE, own, IpfwAct::Skip(KNOWN_SENT.number)))?;
    Ok(())
}

/// The rule that gives new packets that arrive their tag. Fails if memory runs out.
fn tagging_rule(alloc: Global) -> Result<IpfwRule, Memory>
    ensures { IfOk result (λ rule. rule ≡ record { number = 5100; cond = inward ∷ []; act = IpfwAct.Count; tag = IpfwTag.Add 1; keep = false }) }
{
    Ok(IpfwRule {
        number: TAGGING,
        cond: one_literal(alloc, inward())?,
        act: IpfwAct::Count,
        tag: IpfwTag::Add(ARRIVED),
        keep: false,
    })
}

/// Puts the look-up of connections, and the rules for new packets that arrive and that leave behind it. Fails if memory runs out.
pub(crate) fn put_lookup(alloc: Global, rules: &mut Items<IpfwRule>) -> Result<(), Memory>
    ensures { OnOk result (rules.new ≡ rules.old ++ lookup_rules) }
{
    let arrived = leaving_with(alloc, ARRIVED)?;
    rules.put(plain_rule(LOOKUP, Cond::new(alloc), IpfwAct::Check))?;
    rules.put(tagging_rule(alloc)?)?;
    rules.put(plain_rule(TO_SOURCES, arrived, IpfwAct::Skip(SOURCES)))?;
    Ok(())
}

/// Puts the rules for the destination at a place. Fails if memory runs out.
fn put_destination(alloc: Global, rules: &mut Items<IpfwRule>, place: u32) -> Result<(), Memory>
    requires { place ≤ 4096 }
    ensures { OnOk result (rules.new ≡ rules.old ++ destination_pair place) }
{
    let number = DESTINATIONS + place;
    rules.put(plain_rule(
        number,
        one_literal(alloc, inward())?,
        IpfwAct::Nat(place + 1),
    ))?;
    rules.put(allowing(number, one_literal(alloc, inward())?))?;
    Ok(())
}

/// Puts the rules for so many destinations. Fails if memory runs out.
pub(crate) fn put_destinations(
    alloc: Global,
    rules: &mut Items<IpfwRule>,
    ends: &[End],
) -> Result<(), Memory>
    requires { length ends.now ≤ 4096 }
    ensures { OnOk result (rules.new ≡ rules.old ++ destination_rules 0 ends.now) }
{
    for (place, _) in ends.iter().enumerate() {
        put_destination(alloc, rules, place as u32)?;
    }
    Ok(())
}

/// Puts the rule for the source at a place behind so many destinations. Fails if memory runs out.
fn put_source(
    alloc: Global,
    rules: &mut Items<IpfwRule>,
    destinations: u32,
    place: u32,
) -> Result<(), Memory>
    requires few_destinations { destinations ≤ 4096 }
    requires few_sources { place ≤ 60000 }
    ensures { OnOk result (rules.new ≡ rules.old ++ source_rule destinations place ∷ []) }
{
    let cond = leaving_with(alloc, place + 2)?;
    rules.put(plain_rule(SOURCES, cond, IpfwAct::Nat(destinations + place + 1)))?;
    Ok(())
}

/// Puts the rules for sources behind so many destinations. Fails if memory runs out.
pub(crate) fn put_sources(
    alloc: Global,
    rules: &mut Items<IpfwRule>,
    destinations: u32,
    ends: &[End],
) -> Result<(), Memory>
    requires few_destinations { destinations ≤ 4096 }
    requires few_sources { length ends.now ≤ 60000 }
    ensures { OnOk result (rules.new ≡ rules.old ++ source_rules destinations 0 ends.now) }
{
    for (place, _) in ends.iter().enumerate() {
        put_source(alloc, rules, destinations, place as u32)?;
    }
    rules.put(allowing(SOURCES, one_literal(alloc, outwards())?))?;
    Ok(())
}
