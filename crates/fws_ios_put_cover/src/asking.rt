//! The paths of boxes.

ghost use Rattle.std.specs.Prelude.{◌≡◌, ◌<◌, ◌≤◌, ◌++◌, ℕ, Bool, List, true, false, All, IfOk, OnOk};
ghost use Rattle.fws_iv.specs.Ivs.{has};
ghost use Rattle.fws_ios_put_entries.specs.declared.side.Side.{Side};
ghost use Rattle.fws_ios_put_entries.specs.Paths.{number_of, top_of};
ghost use Rattle.fws_ios_put_cover.specs.Boxes.{is_whole, part};
ghost use Rattle.fws_ios_put_cover.specs.Steps.{AreAllNarrowed, AreBoxPaths, AreFirstPaths, AreStepped, IsOpenPath};

use fws_ios_put_entries::{Path, Side, narrowed, whole_path};
use fws_iv::Ivs;
use fws_num::{Items, Memory};
use std::alloc::Global;

/// Whether the set has all values of the field, whose greatest is given.
pub(crate) fn is_whole(set: &Ivs, top: u32) -> bool
    ensures { result ≡ is_whole top set.now }
{
    match set.parts() {
        [iv] => iv.lo == 0 && iv.hi == top,
        _ => false,
    }
}

// The greatest value of a field.
fn top_of(side: Side) -> u32
    ensures { result ≡ top_of side }
{
    match side {
        Side::Proto | Side::Icmp => 255,
        Side::Src | Side::Dst => u32::MAX,
        Side::Sport | Side::Dport => 65535,
    }
}

// Appends the paths.
fn put_all(paths: &mut Items<Path>, further: &[Path]) -> Result<(), Memory>
    ensures { OnOk result (paths.new ≡ paths.old ++ further.now) }
{
    for path in further {
        paths.put(*path)?;
    }
    Ok(())
}

// The paths of the packets on these ones whose field is a member.
fn all_narrowed(alloc: Global, paths: &[Path], side: Side, set: &Ivs) -> Result<Items<Path>, Memory>
    requires unasked { All (IsOpenPath false (number_of side)) paths.now }
    requires low { (v : ℕ) → has set.now v ≡ true → v ≤ top_of side }
    ensures { IfOk result (AreAllNarrowed side set.now paths.now) }
{
    let mut next = Items::new(alloc);
    for path in paths {
        let further = narrowed(alloc, *path, side, set)?;
        put_all(&mut next, further.as_slice())?;
    }
    Ok(next)
}

// The paths of the packets on these ones whose field is as a box asks.
fn stepped_by(
    alloc: Global,
    paths: Items<Path>,
    side: Side,
    set: &Ivs,
) -> Result<Items<Path>, Memory>
    requires unasked { All (IsOpenPath false (number_of side)) paths }
    requires low { (v : ℕ) → has set.now v ≡ true → v ≤ top_of side }
    ensures { IfOk result (AreStepped side set.now paths) }
{
    if is_whole(set, top_of(side)) {
        return Ok(paths);
    }
    all_narrowed(alloc, paths.as_slice(), side, set)
}

// The place of a field's set in a box.
fn place_of(side: Side) -> usize
    ensures place { result ≡ number_of side }
    ensures low { result < 12 }
{
    match side {
        Side::Proto => 1,
        Side::Dst => 2,
        Side::Dport => 3,
        Side::Src => 4,
        Side::Sport => 5,
        Side::Icmp => 7,
    }
}

// The paths of the packets on these ones whose field is as the box asks.
fn stepped(
    alloc: Global,
    paths: Items<Path>,
    side: Side,
    sides: &[Ivs; 12],
) -> Result<Items<Path>, Memory>
    requires unasked { All (IsOpenPath false (number_of side)) paths }
    requires low { (v : ℕ) → has (part sides.now (number_of side)) v ≡ true → v ≤ top_of side }
    ensures { IfOk result (AreStepped side (part sides.now (number_of side)) paths) }
{
    stepped_by(alloc, paths, side, &sides[place_of(side)])
}

// The paths of the packets whose protocol, destination and its port are as the box asks.
fn first_paths(alloc: Global, sides: &[Ivs; 12]) -> Result<Items<Path>, Memory>
    requires low { (side : Side) (v : ℕ) → has (part sides.now (number_of side)) v ≡ true → v ≤ top_of side }
    ensures { IfOk result (AreFirstPaths sides.now) }
{
    let mut paths = Items::new(alloc);
    paths.put(whole_path())?;
    let paths = stepped(alloc, paths, Side::Proto, sides)?;
    let paths = stepped(alloc, paths, Side::Dst, sides)?;
    let paths = stepped(alloc, paths, Side::Dport, sides)?;
    Ok(paths)
}

/// The paths of the packets that the box asks for. Fails if memory runs out.
pub(crate) fn paths_for(alloc: Global, sides: &[Ivs; 12]) -> Result<Items<Path>, Memory>
    requires low { (side : Side) (v : ℕ) → has (part sides.now (number_of side)) v ≡ true → v ≤ top_of side }
    ensures { IfOk result (AreBoxPaths sides.now) }
{
    let paths = first_paths(alloc, sides)?;
    let paths = stepped(alloc, paths, Side::Src, sides)?;
    let paths = stepped(alloc, paths, Side::Sport, sides)?;
    let paths = stepped(alloc, paths, Side::Icmp, sides)?;
    Ok(paths)
}
