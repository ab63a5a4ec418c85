//! Trees of truth values that are made of others, as lists can ask for them. The site is read by contracts alone: it says
//! over which points lists ask.

ghost use Rattle.std.specs.Prelude.{◌&&◌, ◌||◌, not, IfOk};
ghost use Rattle.fws_ios_put.specs.Choices.{truth, IsAskable, HasTruth};

use fws_net::Site;
use fws_num::Memory;
use fws_tree::Tree;
use std::alloc::Global;

/// The tree that is true where the first one is and the second one isn't. Fails if memory runs out.
pub(crate) fn without(
    alloc: Global,
    _site: &Site,
    tree: &Tree<bool>,
    excused: &Tree<bool>,
) -> Result<Tree<bool>, Memory>
    requires tree { IsAskable _site.now tree.now }
    requires excused { IsAskable _site.now excused.now }
    ensures askable { IfOk result (λ t. IsAskable _site.now t) }
    ensures value { IfOk result (HasTruth _site.now (λ x. truth tree.now.1 x && not (truth excused.now.1 x))) }
{
    let made = fws_truth::without(alloc, tree, excused)?;
    Ok(made)
}

/// The tree that is true where one of the two is. Fails if memory runs out.
pub(crate) fn either(
    alloc: Global,
    _site: &Site,
    tree: &Tree<bool>,
    other: &Tree<bool>,
) -> Result<Tree<bool>, Memory>
    requires tree { IsAskable _site.now tree.now }
    requires other { IsAskable _site.now other.now }
    ensures askable { IfOk result (λ t. IsAskable _site.now t) }
    ensures value { IfOk result (HasTruth _site.now (λ x. truth tree.now.1 x || truth other.now.1 x)) }
{
    let made = fws_truth::either(alloc, tree, other)?;
    Ok(made)
}

/// The tree that is true where this one isn't. Fails if memory runs out.
pub(crate) fn negated(alloc: Global, _site: &Site, tree: &Tree<bool>) -> Result<Tree<bool>, Memory>
    requires { IsAskable _site.now tree.now }
    ensures askable { IfOk result (λ t. IsAskable _site.now t) }
    ensures value { IfOk result (HasTruth _site.now (λ x. not (truth tree.now.1 x))) }
{
    let made = fws_truth::negated(alloc, tree)?;
    Ok(made)
}
