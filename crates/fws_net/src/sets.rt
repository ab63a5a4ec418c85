//! Local addresses and routes as sets of addresses.

ghost use Rattle.std.specs.Prelude.{◌≡◌, ℕ, ◌-◌, ◌≤◌, ◌^◌, [], ◌∷◌, ◌++◌, IfOk, OnOk};
ghost use Rattle.std.specs.List.{list_any};
ghost use Rattle.fws_iv.specs.Ivs.{has, with_ranges, AreRanges};
ghost use Rattle.fws_iv.specs.Prefixes.{agree};
ghost use Rattle.fws_net.specs.Faces.{all_own_ranges, block, local_parts, net_ranges, own_ranges, prefix_parts};
ghost use Rattle.fws_net.specs.Routes.{has_addr, is_local};

use crate::site::{Iface, Site};
use fws_iv::{Iv, Ivs, one};
use fws_num::{Memory, Prefix};
use std::alloc::Global;

/// Puts the addresses of the interface behind the ranges.
fn put_own_ranges(ranges: &mut Vec<Iv>, face: &Iface) -> Result<(), Memory>
    requires { AreRanges ranges.old.items }
    ensures ranges { OnOk result (ranges.new.items ≡ ranges.old.items ++ own_ranges face.now) }
    ensures sound { OnOk result (AreRanges ranges.new.items) }
{
    for own in face.addrs.as_slice() {
        ranges.push(Iv {
            lo: own.addr,
            hi: own.addr,
        })?;
    }
    Ok(())
}

/// The addresses of the interface. Fails if memory runs out.
pub(crate) fn own_set(alloc: Global, face: &Iface) -> Result<Ivs, Memory>
    ensures { IfOk result (λ s. s ≡ with_ranges [] (own_ranges face.now)) }
{
    let mut ranges = Vec::new(alloc);
    put_own_ranges(&mut ranges, face)?;
    Ivs::of_ranges(alloc, ranges.as_slice())
}

/// The addresses of the interfaces, one by one.
fn all_own_ranges(alloc: Global, faces: &[Iface]) -> Result<Vec<Iv>, Memory>
    ensures ranges { IfOk result (λ ranges. ranges.items ≡ all_own_ranges faces.now) }
    ensures sound { IfOk result (λ ranges. AreRanges ranges.items) }
{
    let mut ranges = Vec::new(alloc);
    for face in faces {
        put_own_ranges(&mut ranges, face)?;
    }
    Ok(ranges)
}

/// The addresses of the interfaces. Fails if memory runs out.
pub fn all_own_set(alloc: Global, faces: &[Iface]) -> Result<Ivs, Memory>
    ensures value { IfOk result (λ s. s ≡ with_ranges [] (all_own_ranges faces.now)) }
    ensures members { IfOk result (λ s. (a : ℕ) → has s a ≡ list_any (λ face. has_addr face a) faces.now) }
{
    let ranges = all_own_ranges(alloc, faces)?;
    Ivs::of_ranges(alloc, ranges.as_slice())
}

/// The addresses of the interfaces and those of 127.0.0.0/8. Fails if memory runs out.
pub fn local_set(alloc: Global, site: &Site) -> Result<Ivs, Memory>
    ensures value { IfOk result (λ s. s ≡ local_parts site.now) }
    ensures members { IfOk result (λ s. (a : ℕ) → has s a ≡ is_local site.now a) }
{
    let own = all_own_set(alloc, site.faces.as_slice())?;
    own.with_range(alloc, 127 << 24, (127 << 24) + 0xff_ffff)
}

/// How many addresses agree in their first `len` bits.
fn block_size(len: u8) -> u64
    ensures { result ≡ 2 ^ (32 - len) }
{
    2u64.pow(32u32.saturating_sub(u32::from(len)))
}

/// The addresses that agree with this one in their first `len` bits. Fails if memory runs out.
pub fn agreeing_set(alloc: Global, len: u8, addr: u32) -> Result<Ivs, Memory>
    ensures value { IfOk result (λ s. s ≡ block len addr ∷ []) }
    ensures members { IfOk result (λ s. (v : ℕ) → has s v ≡ agree len addr v) }
{
    let range = block_range(len, addr);
    one(alloc, range.lo, range.hi)
}

/// The addresses of the prefix. Fails if memory runs out.
pub fn prefix_set(alloc: Global, prefix: &Prefix) -> Result<Ivs, Memory>
    ensures value { IfOk result (λ s. s ≡ prefix_parts prefix.now) }
    ensures members { IfOk result (λ s. (a : ℕ) → has s a ≡ agree prefix.now.len prefix.now.addr a) }
{
    agreeing_set(alloc, prefix.len, prefix.addr)
}

/// The range of the addresses that agree with this one in their first `len` bits.
fn block_range(len: u8, addr: u32) -> Iv
    ensures range { result ≡ block len addr }
    ensures order { result.lo ≤ result.hi }
{
    let size = block_size(len);
    let below = u64::from(addr) % size;
    let lo = addr - below as u32;
    Iv {
        lo,
        hi: (u64::from(lo) + (size - 1)) as u32,
    }
}

/// The networks of the interface's addresses. Fails if memory runs out.
pub(crate) fn net_set(alloc: Global, face: &Iface) -> Result<Ivs, Memory>
    ensures { IfOk result (λ s. s ≡ with_ranges [] (net_ranges face.now)) }
{
    let mut ranges = Vec::new(alloc);
    for own in face.addrs.as_slice() {
        ranges.push(block_range(own.len, own.addr))?;
    }
    Ivs::of_ranges(alloc, ranges.as_slice())
}
