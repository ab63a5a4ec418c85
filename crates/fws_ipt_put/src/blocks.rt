//! Sets of addresses as blocks that aren't larger than a network.

ghost use Rattle.std.specs.Prelude.{◌≡◌, ◌⊎◌, ◌+◌, ◌-◌, ◌*◌, ◌^◌, ◌≤◌, ◌<◌, ℕ, Bool, true, List, [], ◌∷◌, ◌++◌, IfOk, OnOk, All};
ghost use Rattle.fws_iv.specs.Ivs.{has};
ghost use Rattle.fws_iv.specs.Prefixes.{IsBlock, prefix_has, some_prefix_has};
ghost use Rattle.fws_ipt_put.specs.Gathered.{AreBlocksOf, AddsBlocks};

use fws_iv::{Ivs, prefixes};
use fws_num::{Items, Memory, Prefix};
use std::alloc::Global;

/// Puts the parts of a block that have this length, or the block itself if its length isn't less. Fails if memory runs out.
fn put_parts(blocks: &mut Items<Prefix>, block: Prefix, len: u8) -> Result<(), Memory>
    requires block { IsBlock block }
    requires len { len ≤ 32 }
    ensures { OnOk result (AddsBlocks len block blocks.old blocks.new) }
{
    if len <= block.len {
        blocks.put(block)?;
        return Ok(());
    }
    let size = 2u64.pow(32 - u32::from(len));
    for k in 0..2u64.pow(u32::from(len - block.len)) {
        let addr = (u64::from(block.addr) + k * size) as u32;
        blocks.put(Prefix { addr, len })?;
    }
    Ok(())
}

/// Blocks of this length or of longer ones with all addresses of the set. Fails if memory runs out.
pub(crate) fn blocks_of(alloc: Global, set: &Ivs, len: u8) -> Result<Items<Prefix>, Memory>
    requires { len ≤ 32 }
    ensures { IfOk result (AreBlocksOf len set.now) }
{
    let mut blocks = Items::new(alloc);
    for block in &prefixes(alloc, set)? {
        put_parts(&mut blocks, *block, len)?;
    }
    Ok(blocks)
}
