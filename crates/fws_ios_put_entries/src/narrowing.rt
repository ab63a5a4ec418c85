//! The paths that together ask for the members of a set.

ghost use Rattle.std.specs.Prelude.{◌≡◌, ◌≤◌, ◌++◌, ℕ, true, false, map, IfOk, OnOk};
ghost use Rattle.fws_iv.specs.declared.iv.Iv.{Iv};
ghost use Rattle.fws_iv.specs.Ivs.{has};
ghost use Rattle.fws_num.specs.declared.prefix.Prefix.{Prefix};
ghost use Rattle.fws_ios_put_entries.specs.Narrowing.{protocol_paths, takes_protocol, under, with_net, with_number, with_range, AreMembers, AreNarrowed, AreNetPaths, AreNumberPaths, AreTypePaths, AsksNoDetail};
ghost use Rattle.fws_ios_put_entries.specs.Paths.{asks, top_of, IsWritable};

use crate::path::{Path, on_net, on_number, on_range, under};
use crate::side::Side;
use fws_iv::{Iv, Ivs, prefixes};
use fws_num::{Items, Memory, Prefix};
use std::alloc::Global;

// The members of a set of protocols or types.
fn members(alloc: Global, set: &Ivs) -> Result<Items<u8>, Memory>
    ensures { IfOk result (AreMembers set.now 256) }
{
    let mut numbers = Items::new(alloc);
    for v in 0..256u32 {
        if set.has(v) {
            numbers.put(v as u8)?;
        }
    }
    Ok(numbers)
}

// Appends the paths that ask for the numbers.
fn put_numbers(
    paths: &mut Items<Path>,
    side: Side,
    numbers: &[u8],
    path: Path,
) -> Result<(), Memory>
    ensures { OnOk result (paths.new ≡ paths.old ++ map (λ n. with_number side n path) numbers.now) }
{
    for n in numbers {
        paths.put(on_number(path, side, *n))?;
    }
    Ok(())
}

// Appends the paths that ask for the addresses.
fn put_nets(paths: &mut Items<Path>, side: Side, nets: &[Prefix], path: Path) -> Result<(), Memory>
    ensures { OnOk result (paths.new ≡ paths.old ++ map (λ (net : Prefix). with_net side net path) nets.now) }
{
    for net in nets {
        paths.put(on_net(path, side, *net))?;
    }
    Ok(())
}

// Appends the paths that ask for the ranges.
fn put_ranges(paths: &mut Items<Path>, side: Side, ranges: &[Iv], path: Path) -> Result<(), Memory>
    ensures { OnOk result (paths.new ≡ paths.old ++ map (λ (range : Iv). with_range side range path) ranges.now) }
{
    for range in ranges {
        paths.put(on_range(path, side, *range))?;
    }
    Ok(())
}

// Whether the path may be one of packets of the protocol.
fn takes_protocol(path: Path, proto: u8) -> bool
    ensures { result ≡ takes_protocol path proto }
{
    match path.proto {
        Some(n) => n == proto,
        None => true,
    }
}

// Appends the paths of packets of the protocol that ask for the ranges.
fn put_protocol(
    paths: &mut Items<Path>,
    proto: u8,
    side: Side,
    ranges: &[Iv],
    path: Path,
) -> Result<(), Memory>
    ensures { OnOk result (paths.new ≡ paths.old ++ protocol_paths proto side ranges.now path) }
{
    if takes_protocol(path, proto) {
        put_ranges(paths, side, ranges, under(path, proto))?;
    }
    Ok(())
}

// The paths that ask for ranges of ports, under TCP and UDP.
fn port_paths(alloc: Global, side: Side, ranges: &[Iv], path: Path) -> Result<Items<Path>, Memory>
    ensures { IfOk result (λ paths. paths ≡ protocol_paths 6 side ranges.now path ++ protocol_paths 17 side ranges.now path) }
{
    let mut paths = Items::new(alloc);
    put_protocol(&mut paths, 6, side, ranges, path)?;
    put_protocol(&mut paths, 17, side, ranges, path)?;
    Ok(paths)
}

// The paths that ask for the members of a set of protocols or types.
fn number_paths(alloc: Global, side: Side, set: &Ivs, path: Path) -> Result<Items<Path>, Memory>
    ensures { IfOk result (AreNumberPaths side set.now path) }
{
    let numbers = members(alloc, set)?;
    let mut paths = Items::new(alloc);
    put_numbers(&mut paths, side, numbers.as_slice(), path)?;
    Ok(paths)
}

// The paths that ask for the members of a set of types, under ICMP.
fn type_paths(alloc: Global, set: &Ivs, path: Path) -> Result<Items<Path>, Memory>
    ensures { IfOk result (AreTypePaths set.now path) }
{
    if takes_protocol(path, 1) {
        number_paths(alloc, Side::Icmp, set, under(path, 1))
    } else {
        Ok(Items::new(alloc))
    }
}

// The paths that ask for the members of a set of addresses.
fn net_paths(alloc: Global, side: Side, set: &Ivs, path: Path) -> Result<Items<Path>, Memory>
    ensures { IfOk result (AreNetPaths side set.now path) }
{
    let nets = prefixes(alloc, set)?;
    let mut paths = Items::new(alloc);
    put_nets(&mut paths, side, nets.as_slice(), path)?;
    Ok(paths)
}

/// The paths of the packets on a path whose field is a member of the set; the path asks nothing of the field. Fails if memory runs
/// out.
pub fn narrowed(alloc: Global, path: Path, side: Side, set: &Ivs) -> Result<Items<Path>, Memory>
    requires writable { IsWritable path }
    requires free { asks side path ≡ false }
    requires detail { side ≡ Side.Proto → AsksNoDetail path }
    requires within { (v : ℕ) → has set.now v ≡ true → v ≤ top_of side }
    ensures { IfOk result (AreNarrowed path side set.now) }
{
    match side {
        Side::Proto => number_paths(alloc, side, set, path),
        Side::Dst => net_paths(alloc, side, set, path),
        Side::Dport => port_paths(alloc, side, set.parts(), path),
        Side::Src => net_paths(alloc, side, set, path),
        Side::Sport => port_paths(alloc, side, set.parts(), path),
        Side::Icmp => type_paths(alloc, set, path),
    }
}
