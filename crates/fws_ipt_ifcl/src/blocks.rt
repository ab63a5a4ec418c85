//! The rules to which a rule is unfolded.

ghost use Rattle.std.specs.Prelude.{◌≡◌, ◌+◌, [], ◌∷◌, ◌++◌, true, false, length, map, IfOk, OnOk};
ghost use Rattle.fws_net.specs.Routes.{IsSound};
ghost use Rattle.fws_ifcl_rules.specs.Rules.{always, guarded, ruled};
ghost use Rattle.fws_ipt_ifcl.specs.declared.side.SideTest.TheVariants.{Each, First};
ghost use Rattle.fws_ipt_ifcl.specs.Blocks.{all_entries, at_side, guarded_writes, mapping, masquerading, redirecting, side_writes, sided, unfolded};
ghost use Rattle.fws_rules.specs.Literals.{positive};

use crate::guards::{all_entries, one_entry, put_guarded, put_write};
use crate::numbers::file_chain;
use crate::side::SideTest;
use fws_ifcl::{Act, Rule};
use fws_ifcl_rules::{narrowed, place_behind, put_always, put_guard, put_rule, ruled_by};
use fws_ipt::{IptGo, IptRule};
use fws_net::{Cond, End, LOOPBACK_ADDR, Site, Test, face_addr};
use fws_num::{Memory, Prefix};
use fws_rules::{negative, net_end, positive};
use std::alloc::Global;

/// The entry of the last interface.
fn last_entry(site: &Site) -> u8
    requires { IsSound site.now }
    ensures { result ≡ length site.now.faces + 1 }
{
    site.faces.len() as u8 + 1
}

/// The rules that write the address of the sending interface over the source. Fails if memory runs out.
fn masquerading(alloc: Global, site: &Site) -> Result<Vec<Rule>, Memory>
    requires { IsSound site.now }
    ensures { IfOk result (λ rules. rules.items ≡ masquerading site.now) }
{
    let mut rules = Vec::new(alloc);
    for entry in 1..last_entry(site) + 1 {
        let own = positive(Test::Xmit(one_entry(alloc, entry)?));
        let end = End::host(face_addr(site, entry), None);
        rules.push(ruled_by(alloc, own, Act::Src(end))?)?;
    }
    Ok(rules)
}

/// The rules that write the address of the receiving interface over the destination, and 127.0.0.1 for the host's own packets.
/// Fails if memory runs out.
fn redirecting(alloc: Global, site: &Site, port: Option<u16>) -> Result<Vec<Rule>, Memory>
    requires { IsSound site.now }
    ensures { IfOk result (λ rules. rules.items ≡ redirecting site.now port) }
{
    let mut rules = Vec::new(alloc);
    for entry in 1..last_entry(site) + 1 {
        let own = positive(Test::Recv(one_entry(alloc, entry)?));
        let end = End::host(face_addr(site, entry), port);
        rules.push(ruled_by(alloc, own, Act::Dst(end))?)?;
    }
    let sent = negative(Test::Recv(all_entries(alloc, site)?));
    let end = End::host(LOOPBACK_ADDR, port);
    rules.push(ruled_by(alloc, sent, Act::Dst(end))?)?;
    Ok(rules)
}

/// What `NETMAP` writes: the source in a chain that packets meet as they leave or are delivered, else the
/// destination.
fn mapping(on_source: bool, net: Prefix) -> Act
    ensures { result ≡ mapping on_source net }
{
    if on_source {
        Act::Src(net_end(net))
    } else {
        Act::Dst(net_end(net))
    }
}

/// Puts a rule behind the others that acts where the condition holds. Fails if memory runs out.
fn put_ruled(alloc: Global, rules: &mut Vec<Rule>, cond: &Cond, act: Act) -> Result<(), Memory>
    ensures { OnOk result (rules.new.items ≡ rules.old.items ++ ruled cond.now act ∷ []) }
{
    let cond = cond.copy(alloc)?;
    put_rule(rules, cond, act)
}

/// The condition on one side of routing. Fails if memory runs out.
fn at_side(alloc: Global, cond: &Cond, outward: bool) -> Result<Cond, Memory>
    ensures { IfOk result (λ c. c ≡ at_side outward cond.now) }
{
    let there = cond.copy(alloc)?;
    if outward {
        narrowed(there, positive(Test::Outward))
    } else {
        narrowed(there, negative(Test::Outward))
    }
}

/// The condition that an interface by which the packet goes out is shown. Fails if memory runs out.
fn sent(alloc: Global, site: &Site) -> Result<Cond, Memory>
    requires { IsSound site.now }
    ensures { IfOk result (λ c. c ≡ positive (Test.Xmit (all_entries site.now)) ∷ []) }
{
    let mut cond = Cond::new(alloc);
    cond.put(positive(Test::Xmit(all_entries(alloc, site)?)))?;
    Ok(cond)
}

/// The condition of packets that go out by an interface. Fails if memory runs out.
fn leaving(alloc: Global, site: &Site, cond: &Cond) -> Result<Cond, Memory>
    requires { IsSound site.now }
    ensures { IfOk result (λ c. c ≡ cond.now ++ positive Test.Outward ∷ positive (Test.Xmit (all_entries site.now)) ∷ []) }
{
    let outward = at_side(alloc, cond, true)?;
    let sent = positive(Test::Xmit(all_entries(alloc, site)?));
    narrowed(outward, sent)
}

/// Puts rules behind the others, each of which acts on one side of routing alone. Fails if memory runs out.
fn put_sided(
    alloc: Global,
    rules: &mut Vec<Rule>,
    outward: bool,
    inner: &[Rule],
) -> Result<(), Memory>
    ensures { OnOk result (rules.new.items ≡ rules.old.items ++ map (sided outward) inner.now) }
{
    for rule in inner {
        let there = at_side(alloc, &rule.cond, outward)?;
        put_rule(rules, there, rule.act)?;
    }
    Ok(())
}

/// Puts rules behind the others that are met where the condition holds, and act on one side of routing alone. Fails if memory runs
/// out.
fn put_met(
    alloc: Global,
    rules: &mut Vec<Rule>,
    cond: &Cond,
    outward: bool,
    inner: &[Rule],
) -> Result<(), Memory>
    ensures { OnOk result (rules.new.items ≡ rules.old.items ++ guarded (length rules.old.items) cond.now (map (sided outward) inner.now)) }
{
    let met = cond.copy(alloc)?;
    put_guard(alloc, rules, met, inner.len())?;
    put_sided(alloc, rules, outward, inner)
}

/// Puts rules behind the others that write where the condition holds, and end the stage where one more condition holds, each of
/// which asks for the side of routing. Fails if memory runs out.
fn put_asking(
    alloc: Global,
    rules: &mut Vec<Rule>,
    cond: &Cond,
    outward: bool,
    more: Cond,
    writes: &mut Vec<Rule>,
) -> Result<(), Memory>
    ensures { OnOk result (rules.new.items ≡ rules.old.items ++ side_writes Each (length rules.old.items) cond.now outward more writes.old.items) }
{
    put_rule(writes, more, Act::Accept)?;
    put_met(alloc, rules, cond, outward, writes.as_slice())
}

/// Puts a rule behind the others that writes an end where the condition holds on one side of routing, and ends the stage there.
/// Fails if memory runs out.
fn put_ahead(
    alloc: Global,
    rules: &mut Vec<Rule>,
    cond: &Cond,
    outward: bool,
    act: Act,
) -> Result<(), Memory>
    ensures { OnOk result (rules.new.items ≡ rules.old.items ++ guarded_writes (length rules.old.items) (at_side outward cond.now) (always act ∷ [])) }
{
    let there = at_side(alloc, cond, outward)?;
    put_write(alloc, rules, there, act)
}

/// The same, where the rules that write and accept ask for the side. Fails if memory runs out.
fn put_within(
    alloc: Global,
    rules: &mut Vec<Rule>,
    cond: &Cond,
    outward: bool,
    act: Act,
) -> Result<(), Memory>
    ensures { OnOk result (rules.new.items ≡ rules.old.items ++ side_writes Each (length rules.old.items) cond.now outward [] (always act ∷ [])) }
{
    let mut writes = Vec::new(alloc);
    put_always(alloc, &mut writes, act)?;
    put_asking(alloc, rules, cond, outward, Cond::new(alloc), &mut writes)
}

/// Puts the rules behind the others of a rule that writes an end on one side of routing. Fails if memory runs out.
fn put_written(
    alloc: Global,
    rules: &mut Vec<Rule>,
    test: SideTest,
    cond: &Cond,
    outward: bool,
    act: Act,
) -> Result<(), Memory>
    ensures { OnOk result (rules.new.items ≡ rules.old.items ++ side_writes test (length rules.old.items) cond.now outward [] (always act ∷ [])) }
{
    match test {
        SideTest::First => put_ahead(alloc, rules, cond, outward, act),
        SideTest::Each => put_within(alloc, rules, cond, outward, act),
    }
}

/// Puts rules behind the others that write where packets go out by an interface. Fails if memory runs out.
fn put_leaving(
    alloc: Global,
    rules: &mut Vec<Rule>,
    site: &Site,
    cond: &Cond,
    writes: &mut Vec<Rule>,
) -> Result<(), Memory>
    requires { IsSound site.now }
    ensures { OnOk result (rules.new.items ≡ rules.old.items ++ guarded_writes (length rules.old.items) (cond.now ++ positive Test.Outward ∷ positive (Test.Xmit (all_entries site.now)) ∷ []) writes.old.items) }
{
    let there = leaving(alloc, site, cond)?;
    put_guarded(alloc, rules, there, writes)
}

/// The same, where the rules that write and accept ask for the side. Fails if memory runs out.
fn put_asking_leaving(
    alloc: Global,
    rules: &mut Vec<Rule>,
    site: &Site,
    cond: &Cond,
    writes: &mut Vec<Rule>,
) -> Result<(), Memory>
    requires { IsSound site.now }
    ensures { OnOk result (rules.new.items ≡ rules.old.items ++ side_writes Each (length rules.old.items) cond.now true (positive (Test.Xmit (all_entries site.now)) ∷ []) writes.old.items) }
{
    let sent = sent(alloc, site)?;
    put_asking(alloc, rules, cond, true, sent, writes)
}

/// Puts the rules of MASQUERADE behind the others. Fails if memory runs out.
fn put_masquerade(
    alloc: Global,
    rules: &mut Vec<Rule>,
    test: SideTest,
    site: &Site,
    cond: &Cond,
) -> Result<(), Memory>
    requires { IsSound site.now }
    ensures { OnOk result (rules.new.items ≡ rules.old.items ++ side_writes test (length rules.old.items) cond.now true (positive (Test.Xmit (all_entries site.now)) ∷ []) (masquerading site.now)) }
{
    let mut writes = masquerading(alloc, site)?;
    match test {
        SideTest::First => put_leaving(alloc, rules, site, cond, &mut writes),
        SideTest::Each => put_asking_leaving(alloc, rules, site, cond, &mut writes),
    }
}

/// Puts rules behind the others that write where packets come in. Fails if memory runs out.
fn put_coming(
    alloc: Global,
    rules: &mut Vec<Rule>,
    cond: &Cond,
    writes: &mut Vec<Rule>,
) -> Result<(), Memory>
    ensures { OnOk result (rules.new.items ≡ rules.old.items ++ guarded_writes (length rules.old.items) (at_side false cond.now) writes.old.items) }
{
    let there = at_side(alloc, cond, false)?;
    put_guarded(alloc, rules, there, writes)
}

/// Puts the rules of REDIRECT behind the others. Fails if memory runs out.
fn put_redirect(
    alloc: Global,
    rules: &mut Vec<Rule>,
    test: SideTest,
    site: &Site,
    cond: &Cond,
    port: Option<u16>,
) -> Result<(), Memory>
    requires { IsSound site.now }
    ensures { OnOk result (rules.new.items ≡ rules.old.items ++ side_writes test (length rules.old.items) cond.now false [] (redirecting site.now port)) }
{
    let mut writes = redirecting(alloc, site, port)?;
    match test {
        SideTest::First => put_coming(alloc, rules, cond, &mut writes),
        SideTest::Each => { put_asking(alloc, rules, cond, false, Cond::new(alloc), &mut writes) }
    }
}

/// Puts the rules to which a rule is unfolded behind the others. Fails if memory runs out.
pub(crate) fn put_unfolded(
    alloc: Global,
    test: SideTest,
    site: &Site,
    on_source: bool,
    rule: &IptRule,
    rules: &mut Vec<Rule>,
) -> Result<(), Memory>
    requires { IsSound site.now }
    ensures { OnOk result (rules.new.items ≡ rules.old.items ++ unfolded test site.now on_source (length rules.old.items) rule.now.cond rule.now.go) }
{
    let cond = &rule.cond;
    match rule.go {
        IptGo::Accept => put_ruled(alloc, rules, cond, Act::Accept),
        IptGo::Drop => put_ruled(alloc, rules, cond, Act::Drop),
        IptGo::Return => put_ruled(alloc, rules, cond, Act::Return),
        IptGo::Next => {
            let next = place_behind(rules.len(), 1)?;
            put_ruled(alloc, rules, cond, Act::Skip(next))
        }
        IptGo::Jump(c) => put_ruled(alloc, rules, cond, Act::Call(file_chain(c)?)),
        IptGo::Goto(c) => put_ruled(alloc, rules, cond, Act::Goto(file_chain(c)?)),
        IptGo::Mark(mark) => put_ruled(alloc, rules, cond, Act::OnlyTag(mark)),
        IptGo::Source(end) => put_written(alloc, rules, test, cond, true, Act::Src(end)),
        IptGo::Masquerade => put_masquerade(alloc, rules, test, site, cond),
        IptGo::Dest(end) => put_written(alloc, rules, test, cond, false, Act::Dst(end)),
        IptGo::Redirect(port) => put_redirect(alloc, rules, test, site, cond, port),
        IptGo::Netmap(net) => {
            let there = cond.copy(alloc)?;
            put_write(alloc, rules, there, mapping(on_source, net))
        }
    }
}
