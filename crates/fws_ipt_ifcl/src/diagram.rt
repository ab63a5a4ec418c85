//! The diagram of a configuration.

ghost use Rattle.std.specs.Prelude.{◌≡◌, true, IfOk};
ghost use Rattle.fws_net.specs.Routes.{IsSound};
ghost use Rattle.fws_ifcl.specs.Soundness.{ifcl_ok};
ghost use Rattle.fws_ipt.specs.Soundness.{is_fitting};
ghost use Rattle.fws_ipt_ifcl.specs.Diagram.{diagram_of, drawn_by};
ghost use Rattle.fws_ipt_ifcl.specs.Kept.{KeepsWalks, KeepsChains, KeepsStages, KeepsRefusals};

use crate::chains::chains_for;
use crate::side::SideTest;
use crate::stages::{arrive_stages, deliver_stages, forward_stages, send_stages};
use fws_ifcl::Ifcl;
use fws_ifcl_rules::rules_are_right_by_parts;
use fws_ipt::{IptConfig, loops_are_found, sizes_stand_still};
use fws_net::{Site, routes_are_entries};
use fws_num::Memory;
use std::alloc::Global;

/// The diagram, put together from its chains and stages. Fails if memory runs out.
pub(crate) fn drawn(
    alloc: Global,
    test: SideTest,
    c: &IptConfig,
    site: &Site,
) -> Result<Ifcl, Memory>
    requires { IsSound site.now }
    ensures { IfOk result (λ d. d ≡ drawn_by test site.now c.now) }
{
    let chains = c.chains.as_slice();
    Ok(Ifcl {
        chains: chains_for(alloc, test, site, chains)?,
        arrive: arrive_stages(alloc, chains)?,
        deliver: deliver_stages(alloc, chains)?,
        forward: forward_stages(alloc, chains)?,
        send: send_stages(alloc, chains)?,
    })
}

/// The control diagram of a configuration on a site. Of a configuration as texts spell it (`spelled_diagrams`) it does with each
/// packet of the site what the configuration does, new or of a connection, where no chain reaches itself, and is refused where the
/// configuration is, for the same cause and chain. Three chains of its own come first, with one rule each: they put the mark 0 and
/// the destination and the source of a connection in place. The file's chains follow in their order, with their names and calls,
/// and as many rules as their widths say; the stages meet the three and the built-in chains. Fails if memory or numbers for chains
/// and rules run out. Linear in the rules, and for MASQUERADE and REDIRECT in the interfaces.
pub fn to_ifcl(alloc: Global, c: &IptConfig, site: &Site) -> Result<Ifcl, Memory>
    requires { IsSound site.now }
    ensures diagram { IfOk result (λ d. d ≡ diagram_of site.now c.now) }
    ensures ok { IfOk result (λ d. is_fitting c.now ≡ true → ifcl_ok d ≡ true) }
    ensures means { IfOk result (λ d. KeepsWalks d site.now c.now) }
    ensures chains { IfOk result (λ d. KeepsChains d site.now c.now) }
    ensures stages { IfOk result (λ d. KeepsStages d c.now) }
    ensures refused { IfOk result (λ d. KeepsRefusals d site.now c.now) }
{
    routes_are_entries();
    rules_are_right_by_parts();
    loops_are_found();
    sizes_stand_still();
    let d = drawn(alloc, SideTest::First, c, site)?;
    Ok(d)
}
