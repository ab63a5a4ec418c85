//! What becomes of packets, as rows.

ghost use Rattle.std.specs.Prelude.{◌≡◌, ℕ, List, true, Some, All, IsTrue, IfOk};
ghost use Rattle.fws_box.specs.Sides.{IsWithin, sides_have};
ghost use Rattle.fws_net.specs.declared.outcome.Outcome.{Outcome as AnyOutcome};
ghost use Rattle.fws_net.specs.Points.{packet_of, tops_of};
ghost use Rattle.fws_net.specs.Routes.{IsSound};
ghost use Rattle.fws_flat.specs.Soundness.{flat_ok};
ghost use Rattle.fws_flat.specs.Walk.{means};
ghost use Rattle.fws_tree.specs.Plain.{Plain, value, IsReduced};
ghost use Rattle.fws_tree.specs.Rows.{row_hits, paths_of};
ghost use Rattle.fws_exec.specs.Classes.{kind_of};

use crate::execution::execute_tree;
use fws_flat::Flat;
use fws_net::{Outcome, Site, State};
use fws_num::Memory;
use fws_tree::Row;
use std::alloc::Global;

/// What becomes of each packet of the site, as rows: the paths of the reduced tree. Each packet lies in just one of them. For new
/// packets no row asks for the last four fields. Fails if memory runs out.
///
/// There may be many more rows than the tree has nodes, where tests of several fields cross.
pub fn execute(
    alloc: Global,
    f: &Flat,
    site: &Site,
    state: State,
) -> Result<Vec<Row<Outcome>>, Memory>
    requires sound { IsSound site.now }
    requires ok { flat_ok f.now ≡ true }
    ensures paths { IfOk result (λ rows. (t : Plain AnyOutcome) × IsReduced (tops_of site.now) t × ((p : List ℕ) → IsWithin (tops_of site.now) p → value t p ≡ Some (means f.now site.now (packet_of p) (kind_of state p))) × (rows.items ≡ paths_of (tops_of site.now) t)) }
    ensures once { IfOk result (λ rows. (p : List ℕ) → IsWithin (tops_of site.now) p → row_hits rows.items p ≡ 1) }
    ensures right { IfOk result (λ rows. (p : List ℕ) → IsWithin (tops_of site.now) p → All (λ row. IsTrue (sides_have row.sides p) → means f.now site.now (packet_of p) (kind_of state p) ≡ row.leaf) rows.items) }
{
    let tree = execute_tree(alloc, f, site, state)?;
    let rows = tree.paths(alloc)?;
    Ok(rows)
}
