//! Sets of addresses as they are printed: the prefixes that make up their ranges.

ghost use Rattle.std.specs.Prelude.{◌≡◌, ◌≤◌, ◌+◌, ◌^◌, ◌∷◌, ◌++◌, [], OnOk, IfOk};
ghost use Rattle.std.specs.List.{flat_map, join_by};
ghost use Rattle.fws_ipfw_print.specs.PrintedText.{addresses_word, all_bits, blocks_from, blocks_of, is_apart, is_within, prefix_word};

use fws_iv::Iv;
use fws_num::{Memory, Prefix, Text, put_dec, put_quad};
use std::alloc::Global;

/// Whether the `2 ^ bits` addresses from one on lie within the range.
fn is_within(bits: u8, addr: u32, iv: Iv) -> bool
    requires { bits ≤ 32 }
    ensures { result ≡ is_within bits addr iv }
{
    iv.lo <= addr && u64::from(addr) + 2u64.pow(u32::from(bits)) <= u64::from(iv.hi) + 1
}

/// Whether none of the `2 ^ bits` addresses from one on lies within the range.
fn is_apart(bits: u8, addr: u32, iv: Iv) -> bool
    requires { bits ≤ 32 }
    ensures { result ≡ is_apart bits addr iv }
{
    iv.hi < addr || u64::from(addr) + 2u64.pow(u32::from(bits)) <= u64::from(iv.lo)
}

/// Appends the prefixes that make up what a range has of the `2 ^ bits` addresses from one on. It takes
/// some hundred steps at most.
fn add_blocks(nets: &mut Vec<Prefix>, bits: u8, addr: u32, iv: Iv) -> Result<(), Memory>
    requires few { bits ≤ 32 }
    requires fits { addr + 2 ^ bits ≤ 2 ^ 32 }
    ensures { OnOk result (nets.new.items ≡ nets.old.items ++ blocks_from bits addr iv) }
{
    if is_within(bits, addr, iv) {
        nets.push(Prefix {
            addr,
            len: 32 - bits,
        })?;
        return Ok(());
    }
    if bits > 0 && !is_apart(bits, addr, iv) {
        add_blocks(nets, bits - 1, addr, iv)?;
        add_blocks(nets, bits - 1, addr + 2u32.pow(u32::from(bits - 1)), iv)?;
    }
    Ok(())
}

/// The bits of an address.
#[tactic(auto, unfolding(crate::specs::PrintedText::all_bits))]
fn all_bits() -> u8
    ensures value { result ≡ all_bits }
    ensures few { result ≤ 32 }
    ensures fits { 2 ^ result ≤ 2 ^ 32 }
{
    32
}

/// Appends the prefixes that make up a range.
fn add_range(nets: &mut Vec<Prefix>, iv: Iv) -> Result<(), Memory>
    ensures { OnOk result (nets.new.items ≡ nets.old.items ++ blocks_of iv) }
{
    add_blocks(nets, all_bits(), 0, iv)?;
    Ok(())
}

/// The prefixes that make up the ranges, one range after another.
fn all_blocks(alloc: Global, parts: &[Iv]) -> Result<Vec<Prefix>, Memory>
    ensures { IfOk result (λ nets. nets.items ≡ flat_map blocks_of parts.now) }
{
    let mut nets = Vec::new(alloc);
    for iv in parts {
        add_range(&mut nets, *iv)?;
    }
    Ok(nets)
}

/// Appends a prefix; a whole address without its length.
fn put_prefix(out: &mut Text, net: Prefix) -> Result<(), Memory>
    ensures { OnOk result (out.new ≡ out.old ++ prefix_word net) }
{
    put_quad(out, net.addr)?;
    if net.len != 32 {
        out.put(b"/")?;
        put_dec(out, u64::from(net.len))?;
    }
    Ok(())
}

/// Appends the prefixes joined by commas.
fn put_joined(out: &mut Text, nets: &[Prefix]) -> Result<(), Memory>
    ensures { OnOk result (out.new ≡ out.old ++ join_by prefix_word (44 ∷ []) nets.now) }
{
    if let [first, rest @ ..] = nets {
        put_prefix(out, *first)?;
        for net in rest {
            out.put(b",")?;
            put_prefix(out, *net)?;
        }
    }
    Ok(())
}

/// Appends the addresses of the ranges, behind a blank.
pub fn put_addresses(out: &mut Text, alloc: Global, parts: &[Iv]) -> Result<(), Memory>
    ensures { OnOk result (out.new ≡ out.old ++ 32 ∷ addresses_word parts.now) }
{
    let nets = all_blocks(alloc, parts)?;
    out.put(b" ")?;
    put_joined(out, nets.as_slice())?;
    Ok(())
}
