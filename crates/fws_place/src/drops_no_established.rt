//! Whether established packets are dropped.

ghost use Rattle.std.specs.Prelude.{◌≡◌, IfOk};
ghost use Rattle.fws_net.specs.Points.{tops_of};
ghost use Rattle.fws_net.specs.Routes.{IsSound};
ghost use Rattle.fws_place.specs.declared.clause.Clause.TheVariants.{DropsNoEstablished};
ghost use Rattle.fws_place.specs.Found.{IsSought};
ghost use Rattle.fws_place.specs.Pairs.{IsDropped};
ghost use Rattle.fws_place.specs.Seen.{Tells};
ghost use Rattle.fws_tree.specs.Regular.{AreRegular};

use crate::breach::Pair;
use crate::lost::without_lost;
use crate::naming::named_pair;
use fws_net::{Outcome, Site};
use fws_num::Memory;
use fws_tree::{Relabelling, Tables, Tree};
use std::alloc::Global;

/// Whether an outcome drops.
struct Dropping;

impl Relabelling<Outcome, bool> for Dropping {
    ghost use Rattle.std.specs.Prelude.{not};
    ghost use Rattle.fws_place.specs.Rewritings.{is_accepted};

    ghost gives = { λ s o. not (is_accepted o) };

    fn leaf(&self, _alloc: Global, leaf: &Outcome) -> Result<bool, Memory> {
        match leaf {
            Outcome::Drop => Ok(true),
            Outcome::Accept(_) => Ok(false),
        }
    }
}

/// The tree that tells of each pair whether it is dropped and isn't lost. Fails if memory runs out.
pub(crate) fn dropped(alloc: Global, site: &Site, tables: &Tables) -> Result<Tree<bool>, Memory>
    requires sound { IsSound site.now }
    requires regular { AreRegular site.now tables.now }
    ensures tops { IfOk result (λ t. t.0 ≡ tops_of site.now) }
    ensures tells { IfOk result (λ t. Tells site.now (IsDropped site.now tables.now) t.1) }
{
    let dropped = tables.est.relabel(alloc, &Dropping)?;
    without_lost(alloc, site, dropped)
}

/// A pair that is dropped and isn't lost, if there is one. Fails if memory runs out.
pub(crate) fn drops_no_established(
    alloc: Global,
    site: &Site,
    tables: &Tables,
) -> Result<Option<(Pair, Option<Pair>)>, Memory>
    requires sound { IsSound site.now }
    requires regular { AreRegular site.now tables.now }
    ensures { IfOk result (λ found. IsSought site.now tables.now DropsNoEstablished found) }
{
    let dropped = dropped(alloc, site, tables)?;
    named_pair(alloc, site, &dropped)
}
