//! The configuration whose diagram tells which rules are used.

ghost use Rattle.std.specs.Prelude.{◌≡◌, [], ◌∷◌, ◌++◌, IfOk, OnOk};
ghost use Rattle.fws_ipfw.specs.Soundness.{is_check};
ghost use Rattle.fws_ipfw_ifcl.specs.Placed.{counted, counting, looks_up, with_counts};

use fws_ipfw::{IpfwAct, IpfwConfig, IpfwNat, IpfwRule, IpfwTag, Redirect};
use fws_num::{Items, Memory};
use std::alloc::Global;

/// Whether an act looks up the packet's connection.
fn is_check(act: IpfwAct) -> bool
    ensures { result ≡ is_check act }
{
    match act {
        IpfwAct::Check => true,
        IpfwAct::Allow | IpfwAct::Deny | IpfwAct::Count | IpfwAct::Skip(_) | IpfwAct::Nat(_) =>
            false,
    }
}

/// Whether a rule looks up the packet's connection.
pub(crate) fn looks_up(rule: &IpfwRule) -> bool
    ensures { result ≡ looks_up rule.now }
{
    rule.keep || is_check(rule.act)
}

/// The rule that counts what the rule's condition holds of, with the same number. Fails if memory runs out.
fn counting(alloc: Global, rule: &IpfwRule) -> Result<IpfwRule, Memory>
    ensures { IfOk result (λ r. r ≡ counting rule.now) }
{
    let cond = rule.cond.copy(alloc)?;
    Ok(IpfwRule {
        number: rule.number,
        cond,
        act: IpfwAct::Count,
        tag: IpfwTag::Nothing,
        keep: false,
    })
}

/// An equal rule. Fails if memory runs out.
fn copied_rule(alloc: Global, rule: &IpfwRule) -> Result<IpfwRule, Memory>
    ensures { IfOk result (λ r. r ≡ rule.now) }
{
    let cond = rule.cond.copy(alloc)?;
    Ok(IpfwRule {
        number: rule.number,
        cond,
        act: rule.act,
        tag: rule.tag,
        keep: rule.keep,
    })
}

/// Puts a rule behind the others, and ahead of it the one that counts, if it looks up connections. Fails if memory runs out.
fn put_counted(alloc: Global, all: &mut Vec<IpfwRule>, rule: &IpfwRule) -> Result<(), Memory>
    ensures { OnOk result (all.new.items ≡ all.old.items ++ counted (rule.now ∷ [])) }
{
    if looks_up(rule) {
        all.push(counting(alloc, rule)?)?;
    }
    all.push(copied_rule(alloc, rule)?)?;
    Ok(())
}

/// The rules, with a rule that counts ahead of each that looks up connections. Fails if memory runs out.
fn counted(alloc: Global, rules: &[IpfwRule]) -> Result<Vec<IpfwRule>, Memory>
    ensures { IfOk result (λ all. all.items ≡ counted rules.now) }
{
    let mut all = Vec::new(alloc);
    for rule in rules {
        put_counted(alloc, &mut all, rule)?;
    }
    Ok(all)
}

/// Equal redirects. Fails if memory runs out.
fn copied_redirects(alloc: Global, redirects: &[Redirect]) -> Result<Vec<Redirect>, Memory>
    ensures { IfOk result (λ all. all.items ≡ redirects.now) }
{
    let mut all = Vec::new(alloc);
    for redirect in redirects {
        all.push(*redirect)?;
    }
    Ok(all)
}

/// An equal instance. Fails if memory runs out.
fn copied_nat(alloc: Global, nat: &IpfwNat) -> Result<IpfwNat, Memory>
    ensures { IfOk result (λ n. n ≡ nat.now) }
{
    let redirects = copied_redirects(alloc, nat.redirects.as_slice())?;
    Ok(IpfwNat {
        number: nat.number,
        alias: nat.alias,
        redirects: Items::from_vec(redirects),
    })
}

/// Equal instances. Fails if memory runs out.
fn copied_nats(alloc: Global, nats: &[IpfwNat]) -> Result<Vec<IpfwNat>, Memory>
    ensures { IfOk result (λ all. all.items ≡ nats.now) }
{
    let mut all = Vec::new(alloc);
    for nat in nats {
        all.push(copied_nat(alloc, nat)?)?;
    }
    Ok(all)
}

/// The configuration, with a rule that counts ahead of each that looks up connections. Fails if memory runs out.
pub(crate) fn with_counts(alloc: Global, c: &IpfwConfig) -> Result<IpfwConfig, Memory>
    ensures { IfOk result (λ d. d ≡ with_counts c.now) }
{
    let rules = counted(alloc, c.rules.as_slice())?;
    let nats = copied_nats(alloc, c.nats.as_slice())?;
    Ok(IpfwConfig {
        rules: Items::from_vec(rules),
        nats: Items::from_vec(nats),
    })
}
