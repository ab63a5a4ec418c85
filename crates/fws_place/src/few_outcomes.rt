//! Whether new packets have few different outcomes.

ghost use Rattle.std.specs.Prelude.{◌≡◌, true, [], IfOk, MatchOption};
ghost use Rattle.fws_net.specs.Routes.{IsSound};
ghost use Rattle.fws_place.specs.declared.clause.Clause.TheVariants.{FewOutcomes};
ghost use Rattle.fws_place.specs.Counts.{IsFirstAbove, ShowLeavesAbove};
ghost use Rattle.fws_place.specs.Found.{IsSought};
ghost use Rattle.fws_tree.specs.Regular.{AreRegular};
ghost use Rattle.fws_tree.specs.Rows.{paths_of};

use crate::breach::Pair;
use crate::exact::put_leaf;
use crate::first_true::leasts;
use crate::point::packet_at;
use fws_net::{Outcome, Site};
use fws_num::Memory;
use fws_tree::{Leaf, Row, Tables, Tree};
use indexmap::IndexSet;
use std::alloc::Global;

// How many different outcomes there may be.
const MOST_OUTCOMES: usize = 60_000;

// Whether all leaves of the tree together are so few.
fn are_few(tree: &Tree<Outcome>) -> bool
    ensures { result ≡ true → ShowLeavesAbove 60000 (paths_of tree.now.0 tree.now.1) → ⊥ }
{
    tree.shared().leaves.len() <= MOST_OUTCOMES
}

// The place of the row with which the rows first show more different leaves, which are put into the empty set.
fn first_above_met<L: Leaf>(
    alloc: Global,
    met: &mut IndexSet<L>,
    rows: &[Row<L>],
    most: usize,
) -> Result<Option<usize>, Memory>
    requires { met.now.keys ≡ [] }
    ensures { IfOk result (λ found. MatchOption found (ShowLeavesAbove most rows.now → ⊥) (IsFirstAbove most rows.now)) }
{
    for (at, row) in rows.iter().enumerate() {
        put_leaf(alloc, met, &row.leaf)?;
        if met.len() > most {
            return Ok(Some(at));
        }
    }
    Ok(None)
}

// The place of the row with which the rows first show more different leaves.
fn first_above<L: Leaf>(
    alloc: Global,
    rows: &[Row<L>],
    most: usize,
) -> Result<Option<usize>, Memory>
    ensures { IfOk result (λ found. MatchOption found (ShowLeavesAbove most rows.now → ⊥) (IsFirstAbove most rows.now)) }
{
    let mut met = IndexSet::new(alloc);
    first_above_met(alloc, &mut met, rows, most)
}

/// A packet of the row with which the rows for new packets first show more than 60,000 outcomes, if there is one. Fails if memory
/// runs out.
pub(crate) fn few_outcomes(
    alloc: Global,
    site: &Site,
    tables: &Tables,
) -> Result<Option<(Pair, Option<Pair>)>, Memory>
    requires sound { IsSound site.now }
    requires regular { AreRegular site.now tables.now }
    ensures { IfOk result (λ found. IsSought site.now tables.now FewOutcomes found) }
{
    if are_few(&tables.fresh) {
        return Ok(None);
    }
    let _tops = tables.fresh.tops();
    let rows = tables.fresh.paths(alloc)?;
    match first_above(alloc, &rows, MOST_OUTCOMES)? {
        Some(at) => {
            let packet = packet_at(&leasts(&rows[at].sides));
            Ok(Some((Pair { packet, rec: None }, None)))
        }
        None => Ok(None),
    }
}
