//! The paths that together ask for the members of a set.

ghost use Rattle.std.specs.Prelude.{◌≡◌, ◌<◌, ◌≤◌, ◌+◌, ◌++◌, ℕ, Bool, suc, true, None, length, IfOk, OnOk};
ghost use Rattle.fws_net.specs.declared.site.Site.{Site};
ghost use Rattle.fws_iv.specs.Ivs.{has};
ghost use Rattle.std.specs.Prelude.{slice_index};
ghost use Rattle.fws_pf_put_nat.specs.Scenes.{IsPlanned};
ghost use Rattle.fws_pf_put_nat.specs.Turns.{ArePaths};
ghost use Rattle.fws_pf_put_nat.specs.Narrowing.{protocol_paths, range_paths, takes_protocol, AreNumberPaths, AreNumbers};
ghost use Rattle.fws_pf_put_nat.specs.Paths.{number_of, part_of, IsGoodPath};
ghost use Rattle.fws_pf_put_nat.specs.Sheets.{scene_of};

use crate::path::{Path, narrowed, only};
use crate::sheet::Sheet;
use crate::side::Side;
use fws_iv::{Iv, Ivs};
use fws_num::{Items, Memory};
use std::alloc::Global;

// For each member of the set from one number to another, the path that asks for it.
fn number_paths(
    alloc: Global,
    side: Side,
    set: &Ivs,
    path: Path,
    from: u32,
    top: u32,
) -> Result<Items<Path>, Memory>
    requires order { from ≤ top }
    requires top { top ≤ 65535 }
    requires number { (site : Site) × (outward : Bool) × AreNumbers site outward side from top }
    requires free { part_of side path ≡ None }
    ensures { IfOk result (λ paths. AreNumberPaths side set.now path from (top + 1) paths) }
{
    let mut paths = Items::new(alloc);
    for v in from..top + 1 {
        if set.has(v) {
            paths.put(narrowed(path, side, only(v)))?;
        }
    }
    Ok(paths)
}

// Appends the paths that ask for the ranges.
fn put_ranges(paths: &mut Items<Path>, side: Side, parts: &[Iv], path: Path) -> Result<(), Memory>
    ensures { OnOk result (paths.new ≡ paths.old ++ range_paths side parts.now path) }
{
    for part in parts {
        paths.put(narrowed(path, side, *part))?;
    }
    Ok(())
}

/// Whether the path may be one of packets of the protocol.
pub(crate) fn may_have(path: Path, proto: u32) -> bool
    ensures { result ≡ takes_protocol path proto }
{
    match path.proto {
        Some(part) => part.lo <= proto && proto <= part.hi,
        None => true,
    }
}

// Appends the paths of packets of the protocol that ask for the ranges.
fn put_protocol(
    paths: &mut Items<Path>,
    proto: u32,
    side: Side,
    parts: &[Iv],
    path: Path,
) -> Result<(), Memory>
    ensures { OnOk result (paths.new ≡ paths.old ++ protocol_paths proto side parts.now path) }
{
    if may_have(path, proto) {
        put_ranges(paths, side, parts, narrowed(path, Side::Proto, only(proto)))?;
    }
    Ok(())
}

// The paths that ask for ranges of ports, under TCP and UDP.
fn port_paths(alloc: Global, side: Side, parts: &[Iv], path: Path) -> Result<Items<Path>, Memory>
    ensures { IfOk result (λ paths. paths ≡ protocol_paths 6 side parts.now path ++ protocol_paths 17 side parts.now path) }
{
    let mut paths = Items::new(alloc);
    put_protocol(&mut paths, 6, side, parts, path)?;
    put_protocol(&mut paths, 17, side, parts, path)?;
    Ok(paths)
}

// The paths that ask for ranges of addresses.
fn address_paths(alloc: Global, side: Side, parts: &[Iv], path: Path) -> Result<Items<Path>, Memory>
    ensures { IfOk result (λ paths. paths ≡ range_paths side parts.now path) }
{
    let mut paths = Items::new(alloc);
    put_ranges(&mut paths, side, parts, path)?;
    Ok(paths)
}

/// The paths that ask for the members of the set besides what the path does. Fails if memory runs out.
pub(crate) fn set_paths(
    alloc: Global,
    sheet: &Sheet<'_>,
    side: Side,
    set: &Ivs,
    path: Path,
) -> Result<Items<Path>, Memory>
    requires planned { IsPlanned (scene_of sheet.now) }
    requires few { length sheet.now.site.now.faces ≤ 62 }
    requires good { IsGoodPath sheet.now.site.now sheet.now.outward (number_of side) path }
    requires inward { sheet.now.outward ≡ true → 1 ≤ number_of side }
    requires within { (v : ℕ) → has set.now v ≡ true → v ≤ slice_index sheet.now.tree.now.0 (number_of side) }
    ensures { IfOk result (λ paths. ArePaths (scene_of sheet.now) side set.now path (suc (number_of side)) paths) }
{
    match side {
        Side::Entry => number_paths(alloc, side, set, path, 1, sheet.site.faces.len() as u32 + 1),
        Side::Proto => number_paths(alloc, side, set, path, 0, 255),
        Side::Dst => address_paths(alloc, side, set.parts(), path),
        Side::Src => address_paths(alloc, side, set.parts(), path),
        Side::Dport => port_paths(alloc, side, set.parts(), path),
        Side::Sport => port_paths(alloc, side, set.parts(), path),
    }
}
