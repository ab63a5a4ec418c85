//! From the text of a configuration to flat code, once for all languages.

ghost use Rattle.std.specs.Prelude.{◌≡◌, Ok, true, IfOk, IfErr};
ghost use Rattle.fws_ifcl.specs.Refusals.{refusal_of};
ghost use Rattle.fws_ifcl.specs.Soundness.{ifcl_ok};
ghost use Rattle.fws_net.specs.Routes.{IsSound};
ghost use Rattle.fws_top.specs.Codes.{IsCode, IsUnfolded};
ghost use Rattle.fws_top.specs.declared.answer.Stop.TheVariants.{Due};
ghost use Rattle.fws_top.specs.Judged.{Policy, chain_name, diagram_refusal, judged_chains, judged_in};
ghost use Rattle.fws_top.specs.Plan.{judged};
ghost use Rattle.fws_top.specs.Steps.{EndsIn};
ghost use Rattle.fws_unfold.specs.Refused.{Refuses};

use crate::answer::{Answer, Stop, refused_for_chain, refused_for_line};
use crate::lines::cause_text;
use crate::source::Source;
use fws_flat::Flat;
use fws_ifcl::Ifcl;
use fws_net::{ReadAnswer, Site};
use fws_num::Memory;
use fws_unfold::{UnfoldAnswer, unfold};
use std::alloc::Global;

/// What is made of the text of a configuration.
#[derive(Drop)]
pub(crate) struct PolicyCode {
    /// Flat code that does what the configuration does.
    pub(crate) flat: Flat,
    /// Whether it keeps state where it accepts.
    pub(crate) tracks: bool,
}

/// The configuration that the bytes spell, or the refusal of a line.
pub(crate) fn take_config<L: Source>(
    alloc: Global,
    site: &Site,
    name: &[u8],
    bytes: &[u8],
) -> Result<L::Config, Stop>
    requires { IsSound site.now }
    ensures given { IfOk result (λ config. L.spelled site.now bytes.now ≡ Ok config) }
    ensures refused { IfErr result (EndsIn (judged name.now (judged_in L.spelled L.refusal L.walk L.tracks L.used L.labels site.now bytes.now))) }
{
    match L::read(alloc, bytes, site) {
        Ok(config) => Ok(config),
        Err(ReadAnswer::Memory) => Err(Stop::Memory),
        Err(ReadAnswer::Refused { line, cause }) => Err(Stop::Due(refused_for_line(
            alloc,
            name,
            line,
            cause_text(cause),
        )?)),
    }
}

/// The name of a diagram's chain.
fn chain_name(diagram: &Ifcl, chain: u32) -> &[u8]
    ensures { result.now ≡ chain_name diagram.now.chains chain }
{
    match diagram.chains.as_slice().get(chain as usize) {
        Some(chain) => chain.name.as_slice(),
        None => b"",
    }
}

/// The refusal of the chain at which a diagram can't be unfolded.
pub(crate) fn refused_diagram(
    alloc: Global,
    name: &[u8],
    diagram: &Ifcl,
    why: UnfoldAnswer,
) -> Result<Answer, Memory>
    requires { Refuses why (refusal_of diagram.now) }
    ensures { (policy : Policy) → IfOk result (λ answer. EndsIn (judged name.now (judged_chains (diagram_refusal diagram.now) policy)) (Due answer)) }
{
    match why {
        UnfoldAnswer::Loop(chain) => {
            refused_for_chain(alloc, name, b"loop ", chain_name(diagram, chain))
        }
        UnfoldAnswer::Deep(chain) => {
            refused_for_chain(alloc, name, b"deep ", chain_name(diagram, chain))
        }
        UnfoldAnswer::Long(chain) => {
            refused_for_chain(alloc, name, b"long ", chain_name(diagram, chain))
        }
        UnfoldAnswer::Memory => Err(Memory),
    }
}

/// The flat code of a diagram, or the refusal of a chain.
fn take_code(alloc: Global, name: &[u8], diagram: &Ifcl) -> Result<Flat, Stop>
    requires { ifcl_ok diagram.now ≡ true }
    ensures code { IfOk result (IsUnfolded diagram.now) }
    ensures refused { (policy : Policy) → IfErr result (EndsIn (judged name.now (judged_chains (diagram_refusal diagram.now) policy))) }
{
    match unfold(alloc, diagram) {
        Ok(code) => Ok(code),
        Err(why) => Err(Stop::Due(refused_diagram(alloc, name, diagram, why)?)),
    }
}

/// What is made of the configuration in the bytes: code that does at the site what this does, and whether it tracks; or the refusal
/// of one of its lines or chains.
pub(crate) fn take_policy<L: Source>(
    alloc: Global,
    site: &Site,
    name: &[u8],
    bytes: &[u8],
) -> Result<PolicyCode, Stop>
    requires { IsSound site.now }
    ensures code { IfOk result (IsCode (judged name.now (judged_in L.spelled L.refusal L.walk L.tracks L.used L.labels site.now bytes.now)) site.now) }
    ensures refused { IfErr result (EndsIn (judged name.now (judged_in L.spelled L.refusal L.walk L.tracks L.used L.labels site.now bytes.now))) }
{
    L::spelled_walks_are_regular();
    let config = take_config::<L>(alloc, site, name, bytes)?;
    let diagram = L::to_ifcl(alloc, &config, site)?;
    let flat = take_code(alloc, name, &diagram)?;
    Ok(PolicyCode {
        flat,
        tracks: L::tracks(&config, site),
    })
}
