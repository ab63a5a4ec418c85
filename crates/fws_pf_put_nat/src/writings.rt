//! The paths on which an end is written.

ghost use Rattle.std.specs.Prelude.{◌≡◌, ◌<◌, ◌≤◌, ◌+◌, ◌^◌, ◌++◌, ℕ, true, List, Some, None, All, IfOk, OnOk, IfSome};
ghost use Rattle.fws_iv.specs.declared.iv.Iv.{Iv};
ghost use Rattle.fws_net.specs.declared.site.Site.{Site};
ghost use Rattle.fws_pf_put_nat.specs.Narrowing.{takes_protocol};
ghost use Rattle.fws_iv.specs.Prefixes.{agree};
ghost use Rattle.fws_net.specs.declared.packet.Packet.{Packet};
ghost use Rattle.fws_pf_put_nat.specs.Paths.{part_has};
ghost use Rattle.fws_pf_put_nat.specs.Writings.{host_paths_of, over, port_paths_of, written_part, written_side, AreBlockPaths, AreEndPaths, IsPrintedPath};

use crate::narrowing::may_have;
use crate::path::{Path, narrowed, only};
use crate::side::Side;
use fws_iv::Iv;
use fws_net::End;
use fws_num::{Items, Memory};
use std::alloc::Global;

/// The field that is written over on a pass.
pub(crate) fn side_written(outward: bool) -> Side
    ensures { result ≡ written_side outward }
{
    if outward { Side::Src } else { Side::Dst }
}

// The range of addresses that are written over on the path.
fn part_written(outward: bool, path: Path) -> Iv
    ensures { result ≡ written_part outward path }
{
    let part = if outward { path.src } else { path.dst };
    match part {
        Some(range) => range,
        None => Iv {
            lo: 0,
            hi: u32::MAX,
        },
    }
}

// The last address of the block of the length that has an address.
fn block_end(from: u64, len: u8) -> u64
    requires low { from < 2 ^ 32 }
    requires some { 1 ≤ len }
    requires short { len < 32 }
    ensures later { from ≤ result }
    ensures small { result < 2 ^ 33 }
    ensures agrees { (v : ℕ) → from ≤ v → v ≤ result → agree len from v ≡ true }
{
    let size = 2u64.pow(32 - len as u32);
    from / size * size + (size - 1)
}

// The last address of a range that lies in the block of its first one.
fn block_last(from: u64, len: u8, last: u64) -> u64
    requires low { from ≤ last }
    requires small { last < 2 ^ 32 }
    requires some { 1 ≤ len }
    requires short { len < 32 }
    ensures later { from ≤ result }
    ensures within { result ≤ last }
    ensures agrees { agree len from result ≡ true }
{
    let end = block_end(from, len);
    if end < last { end } else { last }
}

// For each block of addresses of the length that the range meets, the path on which what they share is written over.
fn block_paths(
    alloc: Global,
    outward: bool,
    path: Path,
    len: u8,
    lo: u32,
    hi: u32,
) -> Result<Items<Path>, Memory>
    requires some { 1 ≤ len }
    requires short { len < 32 }
    requires order { lo ≤ hi }
    requires within { (p : Packet) → lo ≤ over outward p → over outward p ≤ hi → part_has (written_side outward) path p ≡ true }
    ensures { IfOk result (λ paths. AreBlockPaths outward path len lo (hi + 1) paths) }
{
    let side = side_written(outward);
    let last = hi as u64;
    let mut paths = Items::new(alloc);
    let mut from = lo as u64;
    while from <= last {
        let end = block_last(from, len, last);
        let part = Iv {
            lo: from as u32,
            hi: end as u32,
        };
        paths.put(narrowed(path, side, part))?;
        from = end + 1;
    }
    Ok(paths)
}

// Appends the path of packets of the protocol, if these may be on the path.
fn put_protocol(paths: &mut Items<Path>, proto: u32, path: Path) -> Result<(), Memory>
    ensures { OnOk result (paths.new ≡ paths.old ++ port_paths_of proto path) }
{
    if may_have(path, proto) {
        paths.put(narrowed(path, Side::Proto, only(proto)))?;
    }
    Ok(())
}

// The paths of packets of TCP and UDP.
fn port_paths(alloc: Global, path: Path) -> Result<Items<Path>, Memory>
    ensures { IfOk result (λ paths. paths ≡ port_paths_of 6 path ++ port_paths_of 17 path) }
{
    let mut paths = Items::new(alloc);
    put_protocol(&mut paths, 6, path)?;
    put_protocol(&mut paths, 17, path)?;
    Ok(paths)
}

// The paths on which a whole address is written, with a port or without one. On the out pass no port can be written, nor
// is one, since packets keep their source ports.
fn host_paths(
    alloc: Global,
    outward: bool,
    path: Path,
    port: Option<u16>,
) -> Result<Items<Path>, Memory>
    ensures { IfOk result (λ paths. paths ≡ host_paths_of outward path port) }
{
    if port.is_some() {
        if outward {
            return Ok(Items::new(alloc));
        }
        return port_paths(alloc, path);
    }
    let mut paths = Items::new(alloc);
    paths.put(path)?;
    Ok(paths)
}

/// The paths on which an end can be written, of packets that are on the path. Fails if memory runs out.
pub(crate) fn end_paths(
    alloc: Global,
    outward: bool,
    path: Path,
    end: End,
) -> Result<Items<Path>, Memory>
    requires { (site : Site) × IsPrintedPath site path }
    ensures { (site : Site) → IsPrintedPath site path → IfOk result (λ paths. AreEndPaths site outward end path paths) }
{
    if end.len < 32 {
        let part = part_written(outward, path);
        return block_paths(alloc, outward, path, end.len, part.lo, part.hi);
    }
    host_paths(alloc, outward, path, end.port)
}
