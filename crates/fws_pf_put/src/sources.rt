//! The translations that write sources as packets go out, by the tags of the states to which they have come.

ghost use Rattle.std.specs.Prelude.{◌≡◌, ◌+◌, ◌-◌, ◌^◌, ◌<◌, [], ◌++◌, Some, map, All, IfOk, OnOk};
ghost use Rattle.fws_iv.specs.Prefixes.{IsBlock};
ghost use Rattle.fws_pf.specs.declared.config.PfNat.{PfNat};
ghost use Rattle.fws_pf_put.specs.Sources.{IsSourceBlock, addresses, asked, block_rule, whole_rule};
ghost use Rattle.fws_print.specs.Appended.{Appends};

use crate::blocks::blocks_of;
use crate::ends::{Sources, set_of};
use fws_iv::{Ivs, one};
use fws_net::{Cond, End, Lit, Test};
use fws_num::{Items, Memory, Prefix};
use fws_pf::PfNat;
use std::alloc::Global;

/// A literal that isn't negated.
fn asked(test: Test) -> Lit
    ensures { result ≡ asked test }
{
    Lit { not: false, test }
}

/// The addresses of a block. Fails if memory runs out.
fn addresses(alloc: Global, block: Prefix) -> Result<Ivs, Memory>
    requires { IsBlock block }
    ensures { IfOk result (λ set. set ≡ addresses block) }
{
    let size = 2u64.pow(32 - u32::from(block.len));
    let hi = u64::from(block.addr) + (size - 1);
    one(alloc, block.addr, hi as u32)
}

/// Packets with the tag get the end over their source, if one is written. Fails if memory runs out.
fn whole_rule(alloc: Global, tag: u32, to: Option<End>) -> Result<PfNat, Memory>
    ensures { IfOk result (λ nat. nat ≡ whole_rule tag to) }
{
    let mut cond = Cond::new(alloc);
    cond.put(asked(Test::Tag(tag)))?;
    Ok(PfNat {
        cond,
        to,
        past: false,
        tag: None,
    })
}

/// Packets with the tag that have a source of the block get the network over it. Fails if memory runs out.
fn block_rule(alloc: Global, tag: u32, end: End, block: Prefix) -> Result<PfNat, Memory>
    requires { IsBlock block }
    ensures { IfOk result (λ nat. nat ≡ block_rule tag end block) }
{
    let mut cond = Cond::new(alloc);
    cond.put(asked(Test::Src(addresses(alloc, block)?)))?;
    cond.put(asked(Test::Tag(tag)))?;
    Ok(PfNat {
        cond,
        to: Some(end),
        past: false,
        tag: None,
    })
}

/// Puts a translation for each block. Fails if memory runs out.
fn put_blocks(
    alloc: Global,
    nats: &mut Items<PfNat>,
    tag: u32,
    end: End,
    blocks: &[Prefix],
) -> Result<(), Memory>
    requires { All IsBlock blocks.now }
    ensures put { OnOk result (nats.new ≡ nats.old ++ map (block_rule tag end) blocks.now) }
    ensures fits { end.addr < 2 ^ 32 }
{
    for block in blocks {
        nats.put(block_rule(alloc, tag, end, *block)?)?;
    }
    Ok(())
}

/// Puts the translations that write a network over the addresses of packets with the tag. Fails if memory runs out.
fn put_network(
    alloc: Global,
    nats: &mut Items<PfNat>,
    tag: u32,
    end: End,
    sources: &Sources,
) -> Result<(), Memory>
    requires { end.len < 32 }
    ensures { OnOk result (Appends nats.old nats.new (IsSourceBlock sources.now.ends.keys sources.now.sets.items tag (Some end))) }
{
    let Some(set) = set_of(sources, end) else {
        return Ok(());
    };
    let parts = blocks_of(alloc, set, end.len)?;
    put_blocks(alloc, nats, tag, end, parts.as_slice())?;
    Ok(())
}

/// Puts the translations that write the end over the sources of packets with the tag. Where tables fit, no source has a port. Fails
/// if memory runs out.
fn put_end(
    alloc: Global,
    nats: &mut Items<PfNat>,
    tag: u32,
    end: End,
    sources: &Sources,
) -> Result<(), Memory>
    ensures { OnOk result (Appends nats.old nats.new (IsSourceBlock sources.now.ends.keys sources.now.sets.items tag (Some end))) }
{
    if end.port.is_some() {
        return Ok(());
    }
    if end.len < 32 {
        return put_network(alloc, nats, tag, end, sources);
    }
    nats.put(whole_rule(alloc, tag, Some(end))?)?;
    Ok(())
}

/// Puts the translations for the sources of packets with the tag, which get this source, or keep their own. Fails if memory runs
/// out.
pub(crate) fn put_source(
    alloc: Global,
    nats: &mut Items<PfNat>,
    tag: u32,
    src: Option<End>,
    sources: &Sources,
) -> Result<(), Memory>
    ensures { OnOk result (Appends nats.old nats.new (IsSourceBlock sources.now.ends.keys sources.now.sets.items tag src)) }
{
    match src {
        None => {
            nats.put(whole_rule(alloc, tag, None)?)?;
            Ok(())
        }
        Some(end) => put_end(alloc, nats, tag, end, sources),
    }
}
