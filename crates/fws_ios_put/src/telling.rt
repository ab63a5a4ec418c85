//! What tables tell of packets as they come in.

ghost use Rattle.std.specs.Prelude.{◌≡◌, IfOk};
ghost use Rattle.fws_ios_put.specs.Choices.{TellsKnown, TellsNew};
ghost use Rattle.fws_tree.specs.Regular.{AreRegular};

use fws_net::{Outcome, Site};
use fws_num::Memory;
use fws_place::{accepted_somewhere, views_are_told};
use fws_tree::{Relabelling, Tables, Tree};
use fws_tree_seen::relabelled_trees_are_told;
use std::alloc::Global;

/// Whether an outcome accepts.
struct Accepting;

impl Relabelling<Outcome, bool> for Accepting {
    ghost use Rattle.fws_place.specs.Rewritings.{is_accepted};

    ghost gives = { λ s o. is_accepted o };

    fn leaf(&self, _alloc: Global, leaf: &Outcome) -> Result<bool, Memory> {
        match leaf {
            Outcome::Drop => Ok(false),
            Outcome::Accept(_) => Ok(true),
        }
    }
}

/// The tree that tells of each new packet whether it is accepted. Fails if memory runs out.
pub(crate) fn new_tree(alloc: Global, _site: &Site, tables: &Tables) -> Result<Tree<bool>, Memory>
    requires { AreRegular _site.now tables.now }
    ensures { IfOk result (TellsNew _site.now tables.now) }
{
    views_are_told();
    relabelled_trees_are_told::<Outcome, bool>();
    let made = tables.fresh.relabel(alloc, &Accepting)?;
    Ok(made)
}

/// The tree that tells of each packet whether it is accepted in some connection. Fails if memory runs out.
pub(crate) fn known_tree(alloc: Global, site: &Site, tables: &Tables) -> Result<Tree<bool>, Memory>
    requires { AreRegular site.now tables.now }
    ensures { IfOk result (TellsKnown site.now tables.now) }
{
    views_are_told();
    let made = accepted_somewhere(alloc, site, tables)?;
    Ok(made)
}
