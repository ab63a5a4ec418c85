//! From the text of a configuration to a diagram in which its rules have places, and to code with these places, once for all
//! languages.

ghost use Rattle.std.specs.Prelude.{◌≡◌, true, IfOk, IfErr};
ghost use Rattle.fws_ifcl.specs.Soundness.{ifcl_ok};
ghost use Rattle.fws_net.specs.Routes.{IsSound};
ghost use Rattle.fws_top.specs.Judged.{HasText, Policy, diagram_refusal, judged_chains, judged_in, meant_in};
ghost use Rattle.fws_top.specs.PlacedCodes.{IsPlaced, IsUnfoldedFrom, IsUnfoldedOf};
ghost use Rattle.fws_top.specs.Plan.{judged};
ghost use Rattle.fws_top.specs.Steps.{EndsIn};

use crate::answer::Stop;
use crate::policy::{refused_diagram, take_config};
use crate::source::Source;
use fws_flat::Flat;
use fws_ifcl::{Ifcl, Place, Spot};
use fws_net::Site;
use fws_num::{Memory, Text};
use fws_unfold::unfold_from;
use std::alloc::Global;

/// A diagram that does what a configuration does, and its rules.
#[derive(Drop)]
pub(crate) struct Placed {
    pub(crate) diagram: Ifcl,
    /// Where in the diagram the rules are.
    pub(crate) spots: Vec<Spot>,
    /// The labels of the rules, by their numbers.
    pub(crate) labels: Vec<Text>,
}

/// Flat code that does what a configuration does, and its rules.
#[derive(Drop)]
pub(crate) struct PlacedCode {
    pub(crate) flat: Flat,
    /// The place of the diagram that each instruction is for, if it has one.
    pub(crate) from: Vec<Option<Place>>,
    /// Where in the diagram the rules are.
    pub(crate) spots: Vec<Spot>,
    /// The labels of the rules, by their numbers.
    pub(crate) labels: Vec<Text>,
}

/// The diagram of a configuration in which its rules have places.
fn placed_in<L: Source>(alloc: Global, c: &L::Config, site: &Site) -> Result<Placed, Memory>
    requires sound { IsSound site.now }
    requires from_text { HasText (L.spelled site.now) c.now }
    ensures { IfOk result (IsPlaced (judged_chains (L.refusal site.now c.now) (meant_in L.walk L.tracks L.used L.labels site.now c.now)) site.now) }
{
    let (diagram, spots) = L::places(alloc, c, site)?;
    let labels = L::labels(alloc, c)?;
    Ok(Placed {
        diagram,
        spots,
        labels,
    })
}

/// The diagram of the configuration in the bytes in which its rules have places, or the refusal of one of its lines.
pub(crate) fn take_placed<L: Source>(
    alloc: Global,
    site: &Site,
    name: &[u8],
    bytes: &[u8],
) -> Result<Placed, Stop>
    requires { IsSound site.now }
    ensures placed { IfOk result (IsPlaced (judged_in L.spelled L.refusal L.walk L.tracks L.used L.labels site.now bytes.now) site.now) }
    ensures refused { IfErr result (EndsIn (judged name.now (judged_in L.spelled L.refusal L.walk L.tracks L.used L.labels site.now bytes.now))) }
{
    let config = take_config::<L>(alloc, site, name, bytes)?;
    Ok(placed_in::<L>(alloc, &config, site)?)
}

/// The flat code of a diagram with the places that its instructions are for, or the refusal of a chain.
fn take_code_from(
    alloc: Global,
    name: &[u8],
    diagram: &Ifcl,
) -> Result<(Flat, Vec<Option<Place>>), Stop>
    requires { ifcl_ok diagram.now ≡ true }
    ensures code { IfOk result (λ x. IsUnfoldedFrom diagram.now x.0 x.1.items) }
    ensures refused { (policy : Policy) → IfErr result (EndsIn (judged name.now (judged_chains (diagram_refusal diagram.now) policy))) }
{
    match unfold_from(alloc, diagram) {
        Ok(made) => Ok(made),
        Err(why) => Err(Stop::Due(refused_diagram(alloc, name, diagram, why)?)),
    }
}

/// The flat code of a diagram in which rules have places, or the refusal of a chain.
pub(crate) fn placed_code(alloc: Global, name: &[u8], placed: Placed) -> Result<PlacedCode, Stop>
    requires { ifcl_ok placed.diagram ≡ true }
    ensures code { IfOk result (IsUnfoldedOf placed) }
    ensures refused { (policy : Policy) → IfErr result (EndsIn (judged name.now (judged_chains (diagram_refusal placed.diagram) policy))) }
{
    let (flat, from) = take_code_from(alloc, name, &placed.diagram)?;
    Ok(PlacedCode {
        flat,
        from,
        spots: placed.spots,
        labels: placed.labels,
    })
}
