//! The rules of nat, which write the ends of packets by their marks.

ghost use Rattle.std.specs.Prelude.{◌≡◌, ◌+◌, ◌-◌, ◌^◌, ◌≤◌, ◌<◌, true, false, [], ◌∷◌, ◌++◌, length, map, IfOk, OnOk, All};
ghost use Rattle.fws_iv.specs.Prefixes.{IsBlock};
ghost use Rattle.fws_ipt_put.specs.NatRules.{address_rules, addresses, asked, block_rule, end_rules, lies_in, mark_rules_at, nat_rules, port_rule, port_rules, rules_for, whole_rule, writing};
ghost use Rattle.fws_ipt_put.specs.Marks.{HaveBlocks};

use crate::marks::Mark;
use crate::rules::{asked, put_if, rule_of_one, rule_of_two};
use fws_ipt::{Hook, IptGo, IptRule};
use fws_iv::{Ivs, one};
use fws_net::{End, Test};
use fws_num::{Items, Memory, Prefix};
use std::alloc::Global;

/// An end is written over the source, or over the destination.
fn writing(on_source: bool, end: End) -> IptGo
    ensures { result ≡ writing on_source end }
{
    if on_source {
        IptGo::Source(end)
    } else {
        IptGo::Dest(end)
    }
}

/// The addresses of a block. Fails if memory runs out.
fn addresses(alloc: Global, block: Prefix) -> Result<Ivs, Memory>
    requires { IsBlock block }
    ensures { IfOk result (λ set. set ≡ addresses block) }
{
    let size = 2u64.pow(32 - u32::from(block.len));
    let hi = u64::from(block.addr) + (size - 1);
    one(alloc, block.addr, hi as u32)
}

/// The source, or the destination, lies in the block. Fails if memory runs out.
fn lies_in(alloc: Global, on_source: bool, block: Prefix) -> Result<Test, Memory>
    requires { IsBlock block }
    ensures { IfOk result (λ test. test ≡ lies_in on_source block) }
{
    let set = addresses(alloc, block)?;
    if on_source {
        Ok(Test::Src(set))
    } else {
        Ok(Test::Dst(set))
    }
}

/// Packets of a protocol with the mark get the end. Fails if memory runs out.
fn port_rule(
    alloc: Global,
    on_source: bool,
    tag: u32,
    end: End,
    proto: u8,
) -> Result<IptRule, Memory>
    ensures { IfOk result (λ rule. rule ≡ port_rule on_source tag end proto) }
{
    let protos = one(alloc, u32::from(proto), u32::from(proto))?;
    rule_of_two(
        alloc,
        asked(Test::Proto(protos)),
        asked(Test::Tag(tag)),
        writing(on_source, end),
    )
}

/// Packets with the mark that have an address of the block get the network over it. Fails if memory runs out.
fn block_rule(
    alloc: Global,
    on_source: bool,
    tag: u32,
    end: End,
    block: Prefix,
) -> Result<IptRule, Memory>
    requires { IsBlock block }
    ensures { IfOk result (λ rule. rule ≡ block_rule on_source tag end block) }
{
    let within = lies_in(alloc, on_source, block)?;
    let net = Prefix {
        addr: end.addr,
        len: end.len,
    };
    rule_of_two(
        alloc,
        asked(within),
        asked(Test::Tag(tag)),
        IptGo::Netmap(net),
    )
}

/// Puts a rule for each block. Fails if memory runs out.
fn put_blocks(
    alloc: Global,
    rules: &mut Items<IptRule>,
    on_source: bool,
    tag: u32,
    end: End,
    blocks: &[Prefix],
) -> Result<(), Memory>
    requires { All IsBlock blocks.now }
    ensures { OnOk result (rules.new ≡ rules.old ++ map (block_rule on_source tag end) blocks.now) }
{
    for block in blocks {
        rules.put(block_rule(alloc, on_source, tag, end, *block)?)?;
    }
    Ok(())
}

/// Puts the rules for a whole address or a network. Fails if memory runs out.
fn put_address(
    alloc: Global,
    rules: &mut Items<IptRule>,
    on_source: bool,
    tag: u32,
    end: End,
    blocks: &[Prefix],
) -> Result<(), Memory>
    requires { All IsBlock blocks.now }
    ensures { OnOk result (rules.new ≡ rules.old ++ address_rules on_source tag end blocks.now) }
{
    if end.len < 32 {
        return put_blocks(alloc, rules, on_source, tag, end, blocks);
    }
    rules.put(rule_of_one(alloc, asked(Test::Tag(tag)), writing(on_source, end))?)?;
    Ok(())
}

/// Puts the rules for an end with a port: for TCP and for UDP, as far as there are such packets. Fails if memory runs out.
fn put_ports(
    alloc: Global,
    rules: &mut Items<IptRule>,
    on_source: bool,
    tag: u32,
    end: End,
    mark: &Mark,
) -> Result<(), Memory>
    ensures { OnOk result (rules.new ≡ rules.old ++ port_rules on_source tag end mark.now.tcp mark.now.udp) }
{
    put_if(rules, mark.tcp, port_rule(alloc, on_source, tag, end, 6)?)?;
    put_if(rules, mark.udp, port_rule(alloc, on_source, tag, end, 17)?)?;
    Ok(())
}

/// Puts the rules for an end, if there is one. Fails if memory runs out.
fn put_end(
    alloc: Global,
    rules: &mut Items<IptRule>,
    on_source: bool,
    tag: u32,
    mark: &Mark,
    blocks: &[Prefix],
    end: Option<End>,
) -> Result<(), Memory>
    requires { All IsBlock blocks.now }
    ensures { OnOk result (rules.new ≡ rules.old ++ end_rules on_source tag mark.now blocks.now end) }
{
    match end {
        None => Ok(()),
        Some(end) => match end.port {
            Some(_) => put_ports(alloc, rules, on_source, tag, end, mark),
            None => put_address(alloc, rules, on_source, tag, end, blocks),
        },
    }
}

/// Puts the rules for the destination that a mark stands for. Fails if memory runs out.
fn put_dst(alloc: Global, rules: &mut Items<IptRule>, tag: u32, mark: &Mark) -> Result<(), Memory>
    requires { All IsBlock mark.now.dst_blocks }
    ensures { OnOk result (rules.new ≡ rules.old ++ end_rules false tag mark.now mark.now.dst_blocks mark.now.rewrite.dst) }
{
    put_end(
        alloc,
        rules,
        false,
        tag,
        mark,
        mark.dst_blocks.as_slice(),
        mark.rewrite.dst,
    )
}

/// Puts the rules for the source that a mark stands for. Fails if memory runs out.
fn put_src(alloc: Global, rules: &mut Items<IptRule>, tag: u32, mark: &Mark) -> Result<(), Memory>
    requires { All IsBlock mark.now.src_blocks }
    ensures { OnOk result (rules.new ≡ rules.old ++ end_rules true tag mark.now mark.now.src_blocks mark.now.rewrite.src) }
{
    put_end(
        alloc,
        rules,
        true,
        tag,
        mark,
        mark.src_blocks.as_slice(),
        mark.rewrite.src,
    )
}

/// Puts the rules of a mark at a hook. Fails if memory runs out.
fn put_mark(
    alloc: Global,
    rules: &mut Items<IptRule>,
    hook: Hook,
    tag: u32,
    mark: &Mark,
) -> Result<(), Memory>
    requires { HaveBlocks mark.now }
    ensures { OnOk result (rules.new ≡ rules.old ++ mark_rules_at hook tag mark.now) }
{
    match hook {
        Hook::Prerouting if mark.arrives => put_dst(alloc, rules, tag, mark),
        Hook::Output if mark.sends => put_dst(alloc, rules, tag, mark),
        Hook::Input if mark.arrives => put_src(alloc, rules, tag, mark),
        Hook::Postrouting => put_src(alloc, rules, tag, mark),
        Hook::Prerouting | Hook::Output | Hook::Input | Hook::Forward => Ok(()),
    }
}

/// The rules of the marks at a hook, of which the first has the number 5. Fails if memory runs out.
pub(crate) fn nat_rules(alloc: Global, hook: Hook, marks: &[Mark]) -> Result<Items<IptRule>, Memory>
    requires blocks { All HaveBlocks marks.now }
    requires few { length marks.now + 5 < 2 ^ 32 }
    ensures { IfOk result (λ rules. rules ≡ nat_rules hook 5 marks.now) }
{
    let mut rules = Items::new(alloc);
    for (place, mark) in marks.iter().enumerate() {
        put_mark(alloc, &mut rules, hook, place as u32 + 5, mark)?;
    }
    Ok(rules)
}
