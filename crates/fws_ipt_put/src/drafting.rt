//! The chains of a policy with all their rules.

ghost use Rattle.std.specs.Prelude.{◌≡◌, ◌+◌, ◌<◌, ◌≤◌, ◌^◌, true, false, [], ◌++◌, length, slice_set, IfOk};
ghost use Rattle.fws_net.specs.Routes.{IsSound};
ghost use Rattle.fws_ipt.specs.declared.config.IptTable.TheVariants as tables;
ghost use Rattle.fws_ipt.specs.declared.hook.Hook.TheVariants as hooks;
ghost use Rattle.fws_ipt_put.specs.Builtin.{builtin, with_filter, with_mangle};
ghost use Rattle.fws_ipt_put.specs.Drafts.{AreRules, IsFilled};
ghost use Rattle.fws_ipt_put.specs.Roots.{AreArriving, AreEntering, sending_rules};

use crate::builtin::builtin;
use crate::chains::Draft;
use crate::roots::{put_arriving, put_sending};
use fws_ipt::{Hook, IptChain, IptRule, IptTable};
use fws_ipt_put_chains::Branch;
use fws_net::Site;
use fws_num::{Items, Memory};
use std::alloc::Global;

/// The entry of the last interface.
fn last_entry(site: &Site) -> u8
    requires { IsSound site.now }
    ensures value { result ≡ length site.now.faces + 1 }
    ensures low { 1 ≤ result }
    ensures high { result < 255 }
{
    site.faces.len() as u8 + 1
}

/// The rules for arriving packets of connections, and behind them for new ones. Fails if memory runs out.
fn entering_rules(
    alloc: Global,
    known: &[Branch],
    fresh: &[Branch],
    last: u8,
) -> Result<Items<IptRule>, Memory>
    requires low { 1 ≤ last }
    requires high { last < 255 }
    ensures { IfOk result (AreEntering known.now fresh.now last) }
{
    let mut rules = Items::new(alloc);
    let _usual = put_arriving(alloc, &mut rules, true, known, last)?;
    let _usual_new = put_arriving(alloc, &mut rules, false, fresh, last)?;
    Ok(rules)
}

/// The rules for packets of connections that arrive. Fails if memory runs out.
fn arriving_rules(alloc: Global, reply: &[Branch], last: u8) -> Result<Items<IptRule>, Memory>
    requires low { 1 ≤ last }
    requires high { last < 255 }
    ensures { IfOk result (AreArriving true reply.now last) }
{
    let mut rules = Items::new(alloc);
    let _usual = put_arriving(alloc, &mut rules, true, reply, last)?;
    Ok(rules)
}

/// The rules for the host's own packets of connections, and behind them for new ones. Fails if memory runs out.
fn host_rules(alloc: Global, known: &[Branch], fresh: &[Branch]) -> Result<Items<IptRule>, Memory>
    ensures { IfOk result (λ rules. rules ≡ sending_rules true known.now ++ sending_rules false fresh.now) }
{
    let mut rules = Items::new(alloc);
    put_sending(alloc, &mut rules, true, known)?;
    put_sending(alloc, &mut rules, false, fresh)?;
    Ok(rules)
}

/// The rules for the host's own packets of connections. Fails if memory runs out.
fn sent_rules(alloc: Global, reply: &[Branch]) -> Result<Items<IptRule>, Memory>
    ensures { IfOk result (λ rules. rules ≡ sending_rules true reply.now) }
{
    let mut rules = Items::new(alloc);
    put_sending(alloc, &mut rules, true, reply)?;
    Ok(rules)
}

/// The chains with another one at this place.
fn with_chain(chains: Items<IptChain>, at: usize, chain: IptChain) -> Items<IptChain>
    requires { at < length chains }
    ensures { result ≡ slice_set chains at chain }
{
    let mut chains = chains.into_vec();
    chains[at] = chain;
    Items::from_vec(chains)
}

/// The rules of the built-in chains for which trees decide.
#[derive(Drop)]
struct Rules {
    /// Those of mangle for what arrives.
    arriving: Items<IptRule>,
    /// Those of mangle for what the host sends.
    sending: Items<IptRule>,
    /// Those of filter for what is delivered.
    delivering: Items<IptRule>,
    /// Those of filter for what is forwarded.
    forwarding: Items<IptRule>,
    /// Those of filter for what the host sends.
    sent: Items<IptRule>,
}

/// The rules of the built-in chains for which trees decide. Fails if memory runs out.
fn rules_of(alloc: Global, site: &Site, draft: &Draft) -> Result<Rules, Memory>
    requires { IsSound site.now }
    ensures { IfOk result (λ rules. AreRules site.now draft.now rules.arriving rules.sending rules.delivering rules.forwarding rules.sent) }
{
    let last = last_entry(site);
    let known = draft.known.as_slice();
    let fresh = draft.fresh.as_slice();
    let reply = draft.reply.as_slice();
    Ok(Rules {
        arriving: entering_rules(alloc, known, fresh, last)?,
        sending: host_rules(alloc, known, fresh)?,
        delivering: arriving_rules(alloc, reply, last)?,
        forwarding: arriving_rules(alloc, reply, last)?,
        sent: sent_rules(alloc, reply)?,
    })
}

/// The chains with these rules in the built-in ones of mangle. Fails if memory runs out.
fn with_mangle(
    alloc: Global,
    chains: Items<IptChain>,
    arriving: Items<IptRule>,
    sending: Items<IptRule>,
) -> Result<Items<IptChain>, Memory>
    requires { 3 < length chains }
    ensures { IfOk result (λ all. all ≡ with_mangle chains arriving sending) }
{
    let prerouting = builtin(alloc, IptTable::Mangle, Hook::Prerouting, false, arriving)?;
    let output = builtin(alloc, IptTable::Mangle, Hook::Output, false, sending)?;
    let first = with_chain(chains, 0, prerouting);
    Ok(with_chain(first, 3, output))
}

/// The chains with these rules in the built-in ones of filter, which stand at this place. Fails if memory runs out.
fn with_filter(
    alloc: Global,
    chains: Items<IptChain>,
    at: usize,
    delivering: Items<IptRule>,
    forwarding: Items<IptRule>,
    sent: Items<IptRule>,
) -> Result<Items<IptChain>, Memory>
    requires room { at < 2 ^ 32 }
    requires there { at + 2 < length chains }
    ensures { IfOk result (λ all. all ≡ with_filter chains at delivering forwarding sent) }
{
    let input = builtin(alloc, IptTable::Filter, Hook::Input, true, delivering)?;
    let forward = builtin(alloc, IptTable::Filter, Hook::Forward, true, forwarding)?;
    let output = builtin(alloc, IptTable::Filter, Hook::Output, true, sent)?;
    let first = with_chain(chains, at, input);
    let second = with_chain(first, at + 1, forward);
    Ok(with_chain(second, at + 2, output))
}

/// The chains of the draft with all their rules. Fails if memory runs out.
pub(crate) fn filled(alloc: Global, site: &Site, draft: Draft) -> Result<Items<IptChain>, Memory>
    requires sound { IsSound site.now }
    requires many { draft.filter + 2 < length draft.chains }
    requires some { 3 < length draft.chains }
    ensures { IfOk result (IsFilled site.now draft) }
{
    let rules = rules_of(alloc, site, &draft)?;
    let at = draft.filter as usize;
    let begun = with_mangle(alloc, draft.chains, rules.arriving, rules.sending)?;
    let all = with_filter(
        alloc,
        begun,
        at,
        rules.delivering,
        rules.forwarding,
        rules.sent,
    )?;
    Ok(all)
}
