//! Which rules are printed.

ghost use Rattle.std.specs.Prelude.{◌≡◌, not, nat_eq};
ghost use Rattle.std.specs.List.{list_all, list_any};
ghost use Rattle.fws_ipt.specs.Soundness.{is_user_chain};
ghost use Rattle.fws_ipt.specs.Spelled.{asks, asks_ports, is_network, is_prefix_set, names_block, tests_dst, tests_src};
ghost use Rattle.fws_ipt.specs.Walk.{writes_dst_at, writes_src_at};
ghost use Rattle.fws_ipt_print.specs.Printable.{are_different, is_class, is_end, is_port_test, is_printed_act, is_printed_literal, is_printed_rule, is_printed_test, is_protocol_test, maps_block, option_of, protocol_leads, shows_receiving, stands_where};

use crate::lines::is_table;
use crate::names::hook_named;
use crate::ports::asks_protocol;
use crate::sets::{are_ports, begins_at_none, is_prefix_set};
use fws_ipt::{Hook, IptChain, IptGo, IptRule, IptTable};
use fws_net::{End, Lit, Site, Test};
use fws_num::Prefix;
use fws_print::{is_number, is_range};

/// Whether the condition asks for TCP or for UDP.
fn asks_ports(cond: &[Lit]) -> bool
    ensures { result ≡ asks_ports cond.now }
{
    asks_protocol(6, cond) || asks_protocol(17, cond)
}

/// The number of an option, which stands once in a rule.
fn option_of(test: &Test) -> u8
    ensures { result ≡ option_of test.now }
{
    match test {
        Test::Proto(_) => 0,
        Test::Src(_) => 1,
        Test::Dst(_) => 2,
        Test::Sport(_) => 3,
        Test::Dport(_) => 4,
        Test::Flags { .. } => 5,
        Test::Icmp(_) => 6,
        Test::Recv(_) => 7,
        Test::Est => 8,
        Test::Tag(_) => 9,
        Test::AnyFlag(_) | Test::Xmit(_) | Test::Via(_) | Test::Outward | Test::Never => 10,
    }
}

/// Whether no other literal has this option.
fn is_alone(option: u8, others: &[Lit]) -> bool
    ensures { result ≡ list_all (λ other. not (nat_eq option (option_of other.test))) others.now }
{
    others.iter().all(|other| option != option_of(&other.test))
}

/// Whether no two literals have the same option.
fn are_different(cond: &[Lit]) -> bool
    ensures { result ≡ are_different cond.now }
{
    match cond {
        [] => true,
        [lit, others @ ..] => is_alone(option_of(&lit.test), others) && are_different(others),
    }
}

/// Whether it is a test of ports.
fn is_port_test(test: &Test) -> bool
    ensures { result ≡ is_port_test test.now }
{
    matches!(test, Test::Sport(_) | Test::Dport(_))
}

/// Whether it is a test of a protocol.
fn is_protocol_test(test: &Test) -> bool
    ensures { result ≡ is_protocol_test test.now }
{
    matches!(test, Test::Proto(_))
}

/// Whether a protocol is tested.
fn has_protocol(lits: &[Lit]) -> bool
    ensures { result ≡ list_any (λ later. is_protocol_test later.test) lits.now }
{
    lits.iter().any(|later| is_protocol_test(&later.test))
}

/// Whether the protocol is named ahead of ports.
fn protocol_leads(cond: &[Lit]) -> bool
    ensures { result ≡ protocol_leads cond.now }
{
    match cond {
        [] => true,
        [lit, others @ ..] => {
            !(is_port_test(&lit.test) && has_protocol(others)) && protocol_leads(others)
        }
    }
}

/// Whether the test is printed: of a protocol but 0, of one range of addresses, of ports under TCP or UDP,
/// of flags under TCP, of an ICMP type but 255 under ICMP, of one interface where it is shown, of the class,
/// and of a mark.
fn is_printed_test(site: &Site, shown: bool, cond: &[Lit], test: &Test) -> bool
    ensures { result ≡ is_printed_test site.now shown cond.now test.now }
{
    match test {
        Test::Proto(set) => is_number(255, set) && !begins_at_none(set),
        Test::Src(set) => is_range(4294967295, set),
        Test::Dst(set) => is_range(4294967295, set),
        Test::Sport(set) => asks_ports(cond) && are_ports(set),
        Test::Dport(set) => asks_ports(cond) && are_ports(set),
        Test::Flags { mask, want } => asks_protocol(6, cond) && *mask <= 63 && *want <= 63,
        Test::Icmp(set) => asks_protocol(1, cond) && is_number(254, set),
        Test::Recv(set) => {
            shown && is_number(site.faces.len() as u128 + 1, set) && !begins_at_none(set)
        }
        Test::Est => true,
        Test::Tag(mark) => {
            // it is read, so that it is known to have 32 bits
            let _mark = *mark;
            true
        }
        Test::AnyFlag(_) | Test::Xmit(_) | Test::Via(_) | Test::Outward | Test::Never => false,
    }
}

/// Whether it is the class of a packet.
fn is_class(test: &Test) -> bool
    ensures { result ≡ is_class test.now }
{
    matches!(test, Test::Est)
}

/// Whether the literal is printed: only the class of a packet is tested by a negated one.
fn is_printed_literal(site: &Site, shown: bool, cond: &[Lit], lit: &Lit) -> bool
    ensures { result ≡ is_printed_literal site.now shown cond.now lit.now }
{
    (!lit.not || is_class(&lit.test)) && is_printed_test(site, shown, cond, &lit.test)
}

/// Whether all literals are printed.
fn are_printed_literals(site: &Site, shown: bool, cond: &[Lit]) -> bool
    ensures { result ≡ list_all (is_printed_literal site.now shown cond.now) cond.now }
{
    cond.iter()
        .all(|lit| is_printed_literal(site, shown, cond, lit))
}

/// Whether it is a built-in chain at a hook at which the receiving interface is shown.
fn shows_receiving(chain: &IptChain) -> bool
    ensures { result ≡ shows_receiving chain.now }
{
    chain.policy.is_some()
        && match hook_named(chain.name.as_slice()) {
            Some(hook) => hook.shows_recv(),
            None => false,
        }
}

/// Whether it is a built-in chain at a hook at which sources are written.
fn writes_source(chain: &IptChain) -> bool
    ensures { result ≡ stands_where writes_src_at chain.now }
{
    chain.policy.is_some()
        && match hook_named(chain.name.as_slice()) {
            Some(hook) => hook.writes_src(),
            None => false,
        }
}

/// Whether it is a built-in chain at a hook at which destinations are written.
fn writes_destination(chain: &IptChain) -> bool
    ensures { result ≡ stands_where writes_dst_at chain.now }
{
    chain.policy.is_some()
        && match hook_named(chain.name.as_slice()) {
            Some(hook) => hook.writes_dst(),
            None => false,
        }
}

/// Whether the source is tested by a prefix of this length, or a longer one.
fn tests_source(len: u8, test: &Test) -> bool
    ensures { result ≡ tests_src (is_prefix_set len) test.now }
{
    match test {
        Test::Src(set) => is_prefix_set(len, set),
        _ => false,
    }
}

/// Whether the destination is tested by a prefix of this length, or a longer one.
fn tests_destination(len: u8, test: &Test) -> bool
    ensures { result ≡ tests_dst (is_prefix_set len) test.now }
{
    match test {
        Test::Dst(set) => is_prefix_set(len, set),
        _ => false,
    }
}

/// Whether the condition names sources by such a prefix.
fn names_sources(len: u8, cond: &[Lit]) -> bool
    ensures { result ≡ asks (tests_src (is_prefix_set len)) cond.now }
{
    cond.iter()
        .any(|lit| !lit.not && tests_source(len, &lit.test))
}

/// Whether the condition names destinations by such a prefix.
fn names_destinations(len: u8, cond: &[Lit]) -> bool
    ensures { result ≡ asks (tests_dst (is_prefix_set len)) cond.now }
{
    cond.iter()
        .any(|lit| !lit.not && tests_destination(len, &lit.test))
}

/// Whether the condition names the addresses over which NETMAP writes at the hook.
fn names_block(hook: Hook, len: u8, cond: &[Lit]) -> bool
    ensures { result ≡ names_block hook len cond.now }
{
    if hook.writes_dst() {
        names_destinations(len, cond)
    } else if hook.writes_src() {
        names_sources(len, cond)
    } else {
        false
    }
}

/// Whether it is a built-in chain at a hook at which the condition names the addresses over which NETMAP
/// writes.
fn stands_behind(chain: &IptChain, len: u8, cond: &[Lit]) -> bool
    ensures { result ≡ stands_where (λ hook. names_block hook len cond.now) chain.now }
{
    chain.policy.is_some()
        && match hook_named(chain.name.as_slice()) {
            Some(hook) => names_block(hook, len, cond),
            None => false,
        }
}

/// Whether the network has a length of 1 to 32, and no bits past it.
fn is_network(net: Prefix) -> bool
    ensures { result ≡ is_network net }
{
    if net.len < 1 || net.len > 32 {
        return false;
    }
    u64::from(net.addr) % 2u64.pow(u32::from(32 - net.len)) == 0
}

/// Whether NETMAP stands in a built-in chain, behind a prefix of the addresses over which it writes.
fn maps_block(chain: &IptChain, cond: &[Lit], net: Prefix) -> bool
    ensures { result ≡ maps_block chain.now cond.now net }
{
    is_network(net) && stands_behind(chain, net.len, cond)
}

/// Whether it is a whole address, whose port is written under TCP or UDP.
fn is_end(cond: &[Lit], e: End) -> bool
    ensures { result ≡ is_end cond.now e }
{
    e.len == 32
        && match e.port {
            Some(_) => asks_ports(cond),
            None => true,
        }
}

/// Whether the chain with this number is one of the user's in the table.
fn is_user_chain(table: IptTable, chains: &[IptChain], c: u32) -> bool
    ensures { result ≡ is_user_chain table chains.now c }
{
    match chains.get(c as usize) {
        Some(chain) => is_table(table, chain.table) && chain.policy.is_none(),
        None => false,
    }
}

/// Whether the act is printed.
fn is_printed_act(chains: &[IptChain], chain: &IptChain, cond: &[Lit], go: IptGo) -> bool
    ensures { result ≡ is_printed_act chains.now chain.now cond.now go }
{
    match go {
        IptGo::Accept => true,
        IptGo::Drop => !is_table(IptTable::Nat, chain.table),
        IptGo::Goto(c) => is_user_chain(chain.table, chains, c),
        IptGo::Mark(_) => is_table(IptTable::Mangle, chain.table),
        IptGo::Source(e) => {
            is_table(IptTable::Nat, chain.table) && writes_source(chain) && is_end(cond, e)
        }
        IptGo::Dest(e) => {
            is_table(IptTable::Nat, chain.table) && writes_destination(chain) && is_end(cond, e)
        }
        IptGo::Netmap(net) => {
            is_table(IptTable::Nat, chain.table) && maps_block(chain, cond, net)
        }
        IptGo::Return | IptGo::Next | IptGo::Jump(_) | IptGo::Masquerade | IptGo::Redirect(_) =>
            false,
    }
}

/// Whether the rule of this chain is printed.
fn is_printed_rule(site: &Site, chains: &[IptChain], chain: &IptChain, rule: &IptRule) -> bool
    ensures { result ≡ is_printed_rule site.now chains.now chain.now rule.now }
{
    are_different(rule.cond.lits())
        && protocol_leads(rule.cond.lits())
        && are_printed_literals(site, shows_receiving(chain), rule.cond.lits())
        && is_printed_act(chains, chain, rule.cond.lits(), rule.go)
}

/// Whether all rules of the chain are printed.
pub fn are_printed_rules(site: &Site, chains: &[IptChain], chain: &IptChain) -> bool
    ensures { result ≡ list_all (is_printed_rule site.now chains.now chain.now) chain.now.rules }
{
    chain
        .rules
        .as_slice()
        .iter()
        .all(|rule| is_printed_rule(site, chains, chain, rule))
}
