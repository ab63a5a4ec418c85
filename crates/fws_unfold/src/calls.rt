//! Which chains a diagram's chains name.

ghost use Rattle.std.specs.Prelude.{◌≡◌, List, length, map, IfOk};
ghost use Rattle.fws_ifcl.specs.declared.diagram.Chain.{Chain};
ghost use Rattle.fws_ifcl.specs.Refusals.{named_by, all_named, named_in};
ghost use Rattle.fws_unfold.specs.Calls.{shape_of, AreCalls};

use fws_ifcl::{Act, Chain, Rule};
use fws_num::{Items, Memory};
use std::alloc::Global;

/// What of a chain the refusals hang on.
#[derive(Drop)]
pub(crate) struct Shape {
    /// How many rules it has.
    pub(crate) rules: usize,
    /// The chains that its rules call or go to, in the order of the rules.
    pub(crate) names: Items<u32>,
}

/// Chains and their shapes.
#[derive(Clone, Copy)]
pub(crate) struct Calls<'a> {
    /// The chains.
    pub(crate) chains: &'a [Chain],
    /// Their shapes.
    pub(crate) shapes: &'a [Shape],
}

/// The chain that a rule calls or goes to.
fn named_by(act: Act) -> Option<u32>
    ensures { result ≡ named_by act }
{
    match act {
        Act::Call(c) | Act::Goto(c) => Some(c),
        _ => None,
    }
}

/// The chains that rules name, in the order of the rules.
fn all_named(alloc: Global, rules: &[Rule]) -> Result<Items<u32>, Memory>
    ensures { IfOk result (λ names. names ≡ all_named rules.now) }
{
    let mut names = Items::new(alloc);
    for rule in rules {
        if let Some(c) = named_by(rule.act) {
            names.put(c)?;
        }
    }
    Ok(names)
}

/// The shape of a chain.
fn shape_of(alloc: Global, chain: &Chain) -> Result<Shape, Memory>
    ensures { IfOk result (λ shape. shape ≡ shape_of chain.now) }
{
    let rules = chain.rules.as_slice();
    Ok(Shape {
        rules: rules.len(),
        names: all_named(alloc, rules)?,
    })
}

/// The shapes of chains.
pub(crate) fn shapes_of(alloc: Global, chains: &[Chain]) -> Result<Vec<Shape>, Memory>
    ensures { IfOk result (λ shapes. shapes.items ≡ map shape_of chains.now) }
{
    let mut shapes = Vec::new(alloc);
    for chain in chains {
        shapes.push(shape_of(alloc, chain)?)?;
    }
    Ok(shapes)
}

/// The chains that the chain with this number names; none past the end.
#[tactic(auto, using(crate::proofs::Shapes::named_past, crate::proofs::Shapes::named_there))]
pub(crate) fn named(shapes: &[Shape], c: usize) -> &[u32]
    ensures { (chains : List Chain) → shapes.now ≡ map shape_of chains → result.now ≡ named_in chains c }
{
    match shapes.get(c) {
        Some(shape) => shape.names.as_slice(),
        None => &[],
    }
}
