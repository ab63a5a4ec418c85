//! The diagram of a configuration that has a place for each of its rules.

ghost use Rattle.std.specs.Prelude.{◌≡◌, true, IfOk};
ghost use Rattle.fws_net.specs.Routes.{IsSound};
ghost use Rattle.fws_ifcl.specs.Soundness.{ifcl_ok};
ghost use Rattle.fws_ifcl.specs.Spots.{are_spots_of};
ghost use Rattle.fws_ipt.specs.Soundness.{is_fitting};
ghost use Rattle.fws_ipt_ifcl.specs.Kept.{KeepsWalks, KeepsChains, KeepsStages, KeepsRefusals, KeepsUses, rule_count};

use crate::diagram::drawn;
use crate::side::SideTest;
use crate::spots::spots_of;
use fws_ifcl::{Ifcl, Spot};
use fws_ifcl_rules::{rules_are_right_by_parts, uses_are_told_by_places};
use fws_ipt::{IptConfig, loops_are_found, sizes_stand_still};
use fws_net::{Site, routes_are_entries};
use fws_num::Memory;
use std::alloc::Global;

/// A control diagram of a configuration on a site, and where the configuration's rules stand in it. The diagram does and is refused
/// as that of `to_ifcl`, with as many chains and rules; and where it does with packets what the configuration does, the rules whose
/// places a packet's walk uses are those that the configuration's walk uses, as often and in the same order. So a rule that writes
/// an end has a place that the walk comes to wherever its condition holds, and the side of routing is asked for behind it. Each
/// rule has one place. The rules are counted from 0, through the chains in their order. Fails if memory or numbers for chains and
/// rules run out. Linear in the rules, and for MASQUERADE and REDIRECT in the interfaces.
pub fn places(alloc: Global, c: &IptConfig, site: &Site) -> Result<(Ifcl, Vec<Spot>), Memory>
    requires { IsSound site.now }
    ensures ok { IfOk result (λ x. is_fitting c.now ≡ true → ifcl_ok x.0 ≡ true) }
    ensures means { IfOk result (λ x. KeepsWalks x.0 site.now c.now) }
    ensures chains { IfOk result (λ x. KeepsChains x.0 site.now c.now) }
    ensures stages { IfOk result (λ x. KeepsStages x.0 c.now) }
    ensures refused { IfOk result (λ x. KeepsRefusals x.0 site.now c.now) }
    ensures spots { IfOk result (λ x. are_spots_of x.0 (rule_count c.now) x.1.items ≡ true) }
    ensures uses { IfOk result (λ x. KeepsUses x.0 x.1.items site.now c.now) }
{
    routes_are_entries();
    rules_are_right_by_parts();
    loops_are_found();
    sizes_stand_still();
    uses_are_told_by_places();
    let d = drawn(alloc, SideTest::Each, c, site)?;
    let spots = spots_of(alloc, c, site)?;
    Ok((d, spots))
}
