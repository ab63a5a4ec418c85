//! Trees of truth values for packets of one kind.

ghost use Rattle.std.specs.Prelude.{◌≡◌, ◌&&◌, not, ◌+◌, ◌-◌, ◌^◌, ◌≤◌, ℕ, false, length, [], IfOk};
ghost use Rattle.fws_iv.specs.Ivs.{has};
ghost use Rattle.fws_net.specs.Points.{tops_of};
ghost use Rattle.fws_net.specs.Routes.{is_local, IsSound};
ghost use Rattle.fws_tree_seen.specs.declared.seen.Seen.TheVariants.{Entered};
ghost use Rattle.fws_tree_seen.specs.Shown.{IsTold};
ghost use Rattle.fws_tree.specs.Plain.{value};
ghost use Rattle.fws_ios_put.specs.Choices.{framed, is_stray, is_tcp, truth, IsAskable, IsNowhere, HasTruth, is_framed};
ghost use Rattle.fws_place.specs.Kept.{HaveWhere, IsKeptWhere};

use fws_box::{Field, whole_sides};
use fws_iv::{Ivs, one};
use fws_net::{Site, local_set, tops};
use fws_num::Memory;
use fws_tree::Tree;
use fws_truth::fields::{ALL, ENTRY, FLAGS};
use std::alloc::Global;

/// The tree that is this one at points of TCP and false elsewhere. Fails if memory runs out.
pub(crate) fn of_tcp(alloc: Global, site: &Site, tree: &Tree<bool>) -> Result<Tree<bool>, Memory>
    requires sound { IsSound site.now }
    requires tree { IsAskable site.now tree.now }
    ensures askable { IfOk result (λ t. IsAskable site.now t) }
    ensures value { IfOk result (HasTruth site.now (λ x. is_tcp x && truth tree.now.1 x)) }
{
    let tops = tops(site);
    let mut sides = whole_sides(alloc, &tops)?;
    sides[Field::Proto as usize] = one(alloc, 6, 6)?;
    let part = tree.restrict(alloc, &sides, false)?;
    Ok(part)
}

// The destinations of packets that are lost where they arrive. Fails if memory runs out.
fn stray_set(alloc: Global, site: &Site) -> Result<Ivs, Memory>
    ensures { IfOk result (λ set. (a : ℕ) → a ≤ 2 ^ 32 - 1 → has set a ≡ (not site.now.forwarding && not (is_local site.now a))) }
{
    if site.forwarding {
        return Ok(Ivs::none(alloc));
    }
    let local = local_set(alloc, site)?;
    Ok(one(alloc, 0, u32::MAX)?.minus(alloc, &local)?)
}

/// The tree that is this one at points with a stray destination and false elsewhere. Fails if memory runs out.
pub(crate) fn of_strays(alloc: Global, site: &Site, tree: &Tree<bool>) -> Result<Tree<bool>, Memory>
    requires sound { IsSound site.now }
    requires tree { IsAskable site.now tree.now }
    ensures askable { IfOk result (λ t. IsAskable site.now t) }
    ensures value { IfOk result (HasTruth site.now (λ x. is_stray site.now x && truth tree.now.1 x)) }
{
    let tops = tops(site);
    let mut sides = whole_sides(alloc, &tops)?;
    sides[Field::Dst as usize] = stray_set(alloc, site)?;
    let part = tree.restrict(alloc, &sides, false)?;
    Ok(part)
}

// The fields of the entry and of flags.
const ENTRY_AND_FLAGS: u16 = ENTRY | FLAGS;

// The sides of the points with this entry and these flags. Fails if memory runs out.
fn framed_sides(alloc: Global, site: &Site, entry: u8, flags: u8) -> Result<[Ivs; 12], Memory>
    requires { IsSound site.now }
    ensures { IfOk result (HaveWhere (tops_of site.now) (is_framed entry flags)) }
{
    let tops = tops(site);
    let mut sides = whole_sides(alloc, &tops)?;
    sides[Field::Entry as usize] = one(alloc, entry as u32, entry as u32)?;
    sides[Field::Flags as usize] = one(alloc, flags as u32, flags as u32)?;
    Ok(sides)
}

// The tree that is this one at points with this entry and these flags, and false elsewhere. Fails if memory runs out.
fn framed_part(
    alloc: Global,
    site: &Site,
    tree: &Tree<bool>,
    entry: u8,
    flags: u8,
) -> Result<Tree<bool>, Memory>
    requires sound { IsSound site.now }
    requires tops { tree.now.0 ≡ tops_of site.now }
    ensures tops { IfOk result (λ t. t.0 ≡ tree.now.0) }
    ensures value { IfOk result (λ t. IsKeptWhere (tops_of site.now) (is_framed entry flags) tree.now.1 t.1) }
{
    let sides = framed_sides(alloc, site, entry, flags)?;
    tree.restrict(alloc, &sides, false)
}

/// The tree as it is at points with this entry and these flags. Fails if memory runs out.
pub(crate) fn fixed(
    alloc: Global,
    site: &Site,
    tree: &Tree<bool>,
    entry: u8,
    flags: u8,
) -> Result<Tree<bool>, Memory>
    requires sound { IsSound site.now }
    requires tops { tree.now.0 ≡ tops_of site.now }
    requires told { IsTold Entered (tops_of site.now) tree.now.1 }
    requires entry { entry ≤ length site.now.faces + 1 }
    requires flags { flags ≤ 63 }
    ensures askable { IfOk result (λ t. IsAskable site.now t) }
    ensures value { IfOk result (HasTruth site.now (λ x. truth tree.now.1 (framed entry flags x))) }
{
    let part = framed_part(alloc, site, tree, entry, flags)?;
    let fixed = part.exists(alloc, ENTRY_AND_FLAGS)?;
    Ok(fixed)
}

/// Whether the tree is true at some point of the site. Fails if memory runs out.
pub(crate) fn is_somewhere(alloc: Global, site: &Site, tree: &Tree<bool>) -> Result<bool, Memory>
    requires { tree.now.0 ≡ tops_of site.now }
    ensures { IfOk result (λ b. b ≡ false → IsNowhere site.now tree.now.1) }
{
    let all = tree.exists(alloc, ALL)?;
    Ok(*all.lookup(&[0; 12]))
}
