//! Which configurations are printed.

ghost use Rattle.std.specs.Prelude.{◌≡◌, ◌≤◌, true, not, nat_eq, nat_le, nat_lt, slice_get, length, Some, IfSome};
ghost use Rattle.std.specs.List.{list_all};
ghost use Rattle.fws_ipfw.specs.FileText.{has_nat};
ghost use Rattle.fws_ipfw.specs.RuleText.{allows, has_ports};
ghost use Rattle.fws_ipfw.specs.Soundness.{are_apart, are_ordered, is_everywhere, leaves_tags};
ghost use Rattle.fws_ipfw_print.specs.Printable.{all_redirects, is_port, is_printable, is_printed_act, is_printed_nat, is_printed_redirect, is_printed_rule, is_printed_tag, is_whole, numbers_ascend, redirects_at, redirects_named};

use crate::rules::is_check;
use crate::sets::is_printed_cond;
use fws_ipfw::{IpfwAct, IpfwConfig, IpfwNat, IpfwRule, IpfwTag, Redirect};
use fws_net::{End, Lit, Site};

/// Where an instance with this number stands if numbers ascend, and some place if they don't.
fn likely_place(nats: &[IpfwNat], n: u32) -> usize
    ensures { result ≤ length nats.now }
{
    nats.partition_point(
        |nat: &IpfwNat| -> bool
            ensures { result ≡ nat_lt nat.now.number n }
        { nat.number < n },
    )
}

/// The instance at this place, if it has the number.
fn nat_at(nats: &[IpfwNat], place: usize, n: u32) -> Option<&IpfwNat>
    ensures { IfSome result (λ nat. (slice_get nats.now place ≡ Some nat.now) × (nat_eq nat.now.number n ≡ true)) }
{
    match nats.get(place) {
        Some(nat) => { if nat.number == n { Some(nat) } else { None } }
        None => None,
    }
}

/// Whether some instance has this number, whatever their order.
fn some_has(nats: &[IpfwNat], n: u32) -> bool
    ensures { result ≡ has_nat nats.now n }
{
    nats.iter().any(|nat| nat.number == n)
}

/// Whether an instance with this number is there. The time is logarithmic where numbers ascend and it is.
fn has_nat(nats: &[IpfwNat], n: u32) -> bool
    ensures { result ≡ has_nat nats.now n }
{
    if let Some(_) = nat_at(nats, likely_place(nats, n), n) {
        return true;
    }
    some_has(nats, n)
}

/// Whether the rule skips forward, or translates by an instance that is there.
fn is_printed_act(nats: &[IpfwNat], number: u32, act: IpfwAct) -> bool
    ensures { result ≡ is_printed_act nats.now number act }
{
    match act {
        IpfwAct::Allow | IpfwAct::Deny | IpfwAct::Count | IpfwAct::Check => true,
        IpfwAct::Skip(n) => number < n && n <= 65534,
        IpfwAct::Nat(n) => has_nat(nats, n),
    }
}

/// Whether a tag is added, or none is changed.
fn is_printed_tag(tag: IpfwTag) -> bool
    ensures { result ≡ is_printed_tag tag }
{
    match tag {
        IpfwTag::Nothing => true,
        IpfwTag::Add(n) => 0 < n && n <= 65534,
        IpfwTag::Remove(_) => false,
    }
}

/// Whether the packet is allowed.
fn allows(act: IpfwAct) -> bool
    ensures { result ≡ allows act }
{
    matches!(act, IpfwAct::Allow)
}

/// Whether no tag is changed.
fn leaves_tags(tag: IpfwTag) -> bool
    ensures { result ≡ leaves_tags tag }
{
    matches!(tag, IpfwTag::Nothing)
}

/// Whether it is the condition of every packet.
fn is_everywhere(cond: &[Lit]) -> bool
    ensures { result ≡ is_everywhere cond.now }
{
    match cond {
        [] => true,
        [_, ..] => false,
    }
}

/// Whether the rule is printed: state is kept where the packet is allowed, and a check-state rule stands
/// alone.
fn is_printed_rule(site: &Site, nats: &[IpfwNat], r: &IpfwRule) -> bool
    ensures { result ≡ is_printed_rule site.now nats.now r.now }
{
    0 < r.number
        && r.number <= 65534
        && is_printed_cond(site, r.cond.lits())
        && is_printed_act(nats, r.number, r.act)
        && is_printed_tag(r.tag)
        && (!r.keep || allows(r.act))
        && (!is_check(r.act) || (is_everywhere(r.cond.lits()) && leaves_tags(r.tag)))
}

/// Whether all rules are printed.
fn are_printed_rules(site: &Site, nats: &[IpfwNat], rules: &[IpfwRule]) -> bool
    ensures { result ≡ list_all (is_printed_rule site.now nats.now) rules.now }
{
    rules.iter().all(|r| is_printed_rule(site, nats, r))
}

/// Whether it is a whole address.
fn is_whole(e: End) -> bool
    ensures { result ≡ is_whole e }
{
    e.len == 32
}

/// Whether it is a port.
fn is_port(port: Option<u16>) -> bool
    ensures { result ≡ is_port port }
{
    match port {
        Some(_) => true,
        None => false,
    }
}

/// Whether it is TCP or UDP.
fn has_ports(proto: Option<u8>) -> bool
    ensures { result ≡ has_ports proto }
{
    match proto {
        Some(n) => n == 6 || n == 17,
        None => false,
    }
}

/// Whether the redirect is one of ports of TCP or UDP, with a port at each end, or one of addresses without
/// ports. No outer address is 0.0.0.0.
fn is_printed_redirect(r: &Redirect) -> bool
    ensures { result ≡ is_printed_redirect r.now }
{
    is_whole(r.local)
        && is_whole(r.public)
        && r.public.addr != 0
        && ((has_ports(r.proto) && is_port(r.local.port) && is_port(r.public.port))
            || (r.proto.is_none() && r.local.port.is_none() && r.public.port.is_none()))
}

/// Whether all redirects are printed.
fn are_printed_redirects(redirects: &[Redirect]) -> bool
    ensures { result ≡ list_all is_printed_redirect redirects.now }
{
    redirects.iter().all(|r| is_printed_redirect(r))
}

/// Whether the instance is printed.
fn is_printed_nat(nat: &IpfwNat) -> bool
    ensures { result ≡ is_printed_nat nat.now }
{
    // it is read, so that it is known to have 32 bits
    let _alias = nat.alias;
    0 < nat.number && nat.number <= 65535 && are_printed_redirects(nat.redirects.as_slice())
}

/// Whether all instances are printed.
fn are_printed_nats(nats: &[IpfwNat]) -> bool
    ensures { result ≡ list_all is_printed_nat nats.now }
{
    nats.iter().all(|nat| is_printed_nat(nat))
}

/// Whether no rule has a greater number than the next one.
fn are_ordered(rules: &[IpfwRule]) -> bool
    ensures { result ≡ are_ordered rules.now }
{
    let mut left = rules;
    while let [r, rest @ ..] = left {
        if let [s, ..] = rest {
            if r.number > s.number {
                return false;
            }
        }
        left = rest;
    }
    true
}

/// Whether the numbers of the instances ascend.
fn numbers_ascend(nats: &[IpfwNat]) -> bool
    ensures { result ≡ numbers_ascend 0 nats.now }
{
    let mut from = 0u64;
    for nat in nats {
        let number = u64::from(nat.number);
        if number < from {
            return false;
        }
        from = number + 1;
    }
    true
}

/// Whether no two instances have the same number. It compares any two.
fn all_differ(nats: &[IpfwNat]) -> bool
    ensures { result ≡ are_apart nats.now }
{
    let mut left = nats;
    while let [nat, rest @ ..] = left {
        if some_has(rest, nat.number) {
            return false;
        }
        left = rest;
    }
    true
}

/// Whether no two instances have the same number. The time is linear where numbers ascend.
fn are_apart(nats: &[IpfwNat]) -> bool
    ensures { result ≡ are_apart nats.now }
{
    if numbers_ascend(nats) {
        return true;
    }
    all_differ(nats)
}

/// The redirects of the first instance with a number, whatever their order.
fn first_redirects(nats: &[IpfwNat], n: u32) -> u64
    ensures { result ≡ redirects_at nats.now n }
{
    for nat in nats {
        if nat.number == n {
            return nat.redirects.len() as u64;
        }
    }
    0
}

/// The redirects of the instance with a number. The time is logarithmic where numbers ascend and it is
/// there.
fn redirects_at(nats: &[IpfwNat], n: u32) -> u64
    requires { are_apart nats.now ≡ true }
    ensures { result ≡ redirects_at nats.now n }
{
    if let Some(nat) = nat_at(nats, likely_place(nats, n), n) {
        return nat.redirects.len() as u64;
    }
    first_redirects(nats, n)
}

/// The redirects of the instance that an act names.
fn redirects_named(nats: &[IpfwNat], act: IpfwAct) -> u64
    requires { are_apart nats.now ≡ true }
    ensures { result ≡ redirects_named nats.now act }
{
    match act {
        IpfwAct::Nat(n) => redirects_at(nats, n),
        IpfwAct::Allow | IpfwAct::Deny | IpfwAct::Count | IpfwAct::Skip(_) | IpfwAct::Check => 0,
    }
}

/// Whether the rules name instances of at most 200,000 redirects, counted at each such rule.
fn name_few_redirects(nats: &[IpfwNat], rules: &[IpfwRule]) -> bool
    requires { are_apart nats.now ≡ true }
    ensures { result ≡ nat_le (all_redirects nats.now rules.now) 200000 }
{
    let mut redirects = 0u64;
    for r in rules {
        redirects = redirects.saturating_add(redirects_named(nats, r.act));
        if redirects > 200000 {
            return false;
        }
    }
    true
}

/// Whether the configuration can be printed: its rules stand by their numbers, no two instances have the
/// same number, there are at most 200,000 redirects, and all its rules and instances are printed. The time
/// is linear but for a search for each rule that translates, where the numbers of instances ascend.
pub fn printable(c: &IpfwConfig, site: &Site) -> bool
    ensures { result ≡ is_printable site.now c.now }
{
    let rules = c.rules.as_slice();
    let nats = c.nats.as_slice();
    are_ordered(rules)
        && are_apart(nats)
        && are_printed_nats(nats)
        && are_printed_rules(site, nats, rules)
        && name_few_redirects(nats, rules)
}
